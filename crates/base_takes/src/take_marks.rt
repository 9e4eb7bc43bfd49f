//! Marks out of compact JSON.
use crate::{Cursor, Take, take_list};
use base_json::DecodeError;
use f77_ast::{Kinds, Mark, Private, Reason, Symbols, Variable};
use fx_lists::List;
use std::alloc::Global;

impl Take<Symbols> for Kinds {
    fn take(_alloc: Global, _scope: &Symbols, from: &mut Cursor<'_>) -> Result<Kinds, DecodeError> {
        if from.has_word(b"\"W-R\"") {
            return Ok(Kinds::WriteRead);
        }
        if from.has_word(b"\"R-W\"") {
            return Ok(Kinds::ReadWrite);
        }
        from.word(b"\"W-W\"")?;
        Ok(Kinds::WriteWrite)
    }
}

/// Takes the answer on copies.
fn take_answer(from: &mut Cursor<'_>) -> Result<Private, DecodeError> {
    if from.has_word(b"\"Yes\"") {
        return Ok(Private::Yes);
    }
    if from.has_word(b"\"Name\"") {
        return Ok(Private::Name);
    }
    if from.has_word(b"\"Carried\"") {
        return Ok(Private::Carried);
    }
    from.word(b"\"Live\"")?;
    Ok(Private::Live)
}

/// Takes the names of private variables and the bracket behind them.
fn take_private(
    alloc: Global,
    symbols: &Symbols,
    from: &mut Cursor<'_>,
) -> Result<List<u32>, DecodeError> {
    let mut numbers = List::new(alloc);
    for _ in 0..u64::MAX {
        if !from.has(b',') {
            from.word(b"]")?;
            return Ok(numbers);
        }
        let name = from.name(alloc)?;
        let Some(number) = symbols.number(&name) else {
            return Err(DecodeError::Shape);
        };
        numbers.push(number)?;
    }
    Err(DecodeError::Shape)
}

/// Takes what iterations carry.
fn take_carried(
    alloc: Global,
    symbols: &Symbols,
    from: &mut Cursor<'_>,
) -> Result<Reason, DecodeError> {
    let variable: Variable = Take::take(alloc, symbols, from)?;
    from.word(b",")?;
    let kinds: List<Kinds> = take_list(alloc, symbols, from)?;
    from.word(b",")?;
    let answer = take_answer(from)?;
    from.word(b"]")?;
    Ok(Reason::Carries(variable, kinds, answer))
}

/// Takes why a loop is serial, and the bracket behind it.
fn take_reason(
    alloc: Global,
    symbols: &Symbols,
    from: &mut Cursor<'_>,
) -> Result<Reason, DecodeError> {
    if from.has_word(b"\"Jump\"]") {
        return Ok(Reason::Jump);
    }
    if from.has_word(b"\"InputOutput\"]") {
        return Ok(Reason::InputOutput);
    }
    if from.has_word(b"\"Step\"]") {
        return Ok(Reason::Step);
    }
    if from.has_word(b"\"Index\"]") {
        return Ok(Reason::Index);
    }
    take_carried(alloc, symbols, from)
}

impl Take<Symbols> for Mark {
    fn take(alloc: Global, scope: &Symbols, from: &mut Cursor<'_>) -> Result<Mark, DecodeError> {
        if from.has_word(b"[\"PARALLEL\"") {
            return Ok(Mark::Parallel(take_private(alloc, scope, from)?));
        }
        from.word(b"[\"SERIAL\",")?;
        Ok(Mark::Serial(take_reason(alloc, scope, from)?))
    }
}
