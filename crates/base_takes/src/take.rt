//! What is taken from compact JSON with no value in between, and lists of it.
use crate::Cursor;
use base_json::DecodeError;
use fx_lists::List;
use std::alloc::Global;

/// What is taken from a compact text, within a scope `S` that says what may be named. What was taken is to be written again and compared.
pub trait Take<S>: Drop {
    /// Takes it. Err(Shape) where something else comes, or what is left to another reader.
    fn take(alloc: Global, scope: &S, from: &mut Cursor<'_>) -> Result<Self, DecodeError>;
}

/// Takes an array. Err(Shape) as of its items.
pub fn take_list<S, T: Take<S>>(
    alloc: Global,
    scope: &S,
    from: &mut Cursor<'_>,
) -> Result<List<T>, DecodeError> {
    let mut list = List::new(alloc);
    from.word(b"[")?;
    if from.has(b']') {
        return Ok(list);
    }
    for _ in 0..u64::MAX {
        let item: T = Take::take(alloc, scope, from)?;
        list.push(item)?;
        if !from.has(b',') {
            from.word(b"]")?;
            return Ok(list);
        }
    }
    Err(DecodeError::Shape)
}

impl<S> Take<S> for u32 {
    fn take(_alloc: Global, _scope: &S, from: &mut Cursor<'_>) -> Result<u32, DecodeError> {
        from.short_number()
    }
}
