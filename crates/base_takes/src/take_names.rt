//! Variables out of compact JSON.
use crate::cursor::place_of;
use crate::{Cursor, Take};
use base_json::DecodeError;
use f77_ast::{Symbols, Unit, Variable};
use fx_lists::Text;
use std::alloc::Global;

/// A block, or a saved local of another module, by what is written of it.
fn foreign_variable(alloc: Global, name: &[u8]) -> Result<Variable, DecodeError> {
    if name.len() >= 2 && name[0] == b'/' && name[name.len() - 1] == b'/' {
        let block = Text::from_bytes(alloc, &name[1..name.len() - 1])?;
        return Ok(Variable::Block(block));
    }
    let Some(colon) = place_of(name, b':') else {
        return Err(DecodeError::Shape);
    };
    let module = Text::from_bytes(alloc, &name[..colon])?;
    Ok(Variable::Saved(module, Text::from_bytes(alloc, &name[colon + 1..])?))
}

impl Take<Symbols> for Variable {
    fn take(
        alloc: Global,
        scope: &Symbols,
        from: &mut Cursor<'_>,
    ) -> Result<Variable, DecodeError> {
        let name = from.name(alloc)?;
        match scope.number(&name) {
            Some(number) => Ok(Variable::Own(number)),
            None => foreign_variable(alloc, name.as_slice()),
        }
    }
}

impl Take<Symbols> for Unit {
    fn take(alloc: Global, _scope: &Symbols, from: &mut Cursor<'_>) -> Result<Unit, DecodeError> {
        from.word(b"[")?;
        let block = from.name(alloc)?;
        from.word(b",")?;
        let offset = from.number()?;
        from.word(b"]")?;
        Ok(Unit { block, offset })
    }
}
