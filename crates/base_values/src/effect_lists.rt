//! Effects out of JSON values.
ghost use Rattle.base_json.specs.Scopes.{scope_tree};
ghost use Rattle.base_values.specs.Read.{effects_of};

use crate::scope::ValueScope;
use base_json::{Decode, DecodeError, field, has_members, list_field};
use f77_ast::{EffectSet, Variable};
use fx_lists::List;
use serde_json::Value;
use std::alloc::Global;

impl<'a> Decode<ValueScope<'a>> for EffectSet {
    ghost read_as = { λ s. effects_of (scope_tree s.cells) };

    fn decode(
        alloc: Global,
        scope: &ValueScope<'a>,
        value: &Value,
    ) -> Result<EffectSet, DecodeError> {
        if !has_members(value, 4) {
            return Err(DecodeError::Shape);
        }
        let reads: List<Variable> = list_field(alloc, &scope.cells, value, "reads")?;
        let writes: List<Variable> = list_field(alloc, &scope.cells, value, "writes")?;
        let io: bool = field(alloc, &scope.cells, value, "io")?;
        let stops: bool = field(alloc, &scope.cells, value, "stops")?;
        Ok(EffectSet {
            reads,
            writes,
            io,
            stops,
        })
    }
}
