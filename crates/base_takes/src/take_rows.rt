//! Rows and systems out of compact JSON.
use crate::{Cursor, Take, take_list};
use affine_systems::{Row, Rows, System, Term, Terms, Var};
use base_json::DecodeError;
use std::alloc::Global;

/// Takes a variable: its letter, a comma and its number.
fn take_var(from: &mut Cursor<'_>) -> Result<Var, DecodeError> {
    if from.has_word(b"\"c\",") {
        return Ok(Var::Cell(from.short_number()?));
    }
    if from.has_word(b"\"x\",") {
        return Ok(Var::Exit(from.short_number()?));
    }
    from.word(b"\"p\",")?;
    let number = from.short_number()?;
    match u8::try_from(number) {
        Ok(number) => Ok(Var::Phi(number)),
        Err(_) => Err(DecodeError::Shape),
    }
}

impl<S> Take<S> for Term {
    fn take(_alloc: Global, _scope: &S, from: &mut Cursor<'_>) -> Result<Term, DecodeError> {
        from.word(b"[")?;
        let var = take_var(from)?;
        from.word(b",")?;
        let factor = from.whole()?;
        from.word(b"]")?;
        Ok(Term { var, factor })
    }
}

/// Takes 1 for an equation, 0 for an inequality.
fn take_equal(from: &mut Cursor<'_>) -> Result<bool, DecodeError> {
    if from.has(b'1') {
        return Ok(true);
    }
    from.word(b"0")?;
    Ok(false)
}

impl<S> Take<S> for Row {
    fn take(alloc: Global, scope: &S, from: &mut Cursor<'_>) -> Result<Row, DecodeError> {
        from.word(b"[")?;
        let equal = take_equal(from)?;
        from.word(b",")?;
        let bound = from.whole()?;
        from.word(b",")?;
        let terms: Terms = take_list(alloc, scope, from)?;
        from.word(b"]")?;
        Ok(Row {
            equal,
            terms,
            bound,
        })
    }
}

impl<S> Take<S> for System {
    fn take(alloc: Global, scope: &S, from: &mut Cursor<'_>) -> Result<System, DecodeError> {
        from.word(b"{\"rows\":")?;
        let rows: Rows = take_list(alloc, scope, from)?;
        from.word(b",\"weak\":")?;
        let weak = from.flag()?;
        from.word(b"}")?;
        Ok(System { rows, weak })
    }
}
