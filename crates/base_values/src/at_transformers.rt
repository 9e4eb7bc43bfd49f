//! Transformers out of JSON values.
ghost use Rattle.std.specs.Prelude.{IfOk, nat_eq, codes};
ghost use Rattle.std.specs.HashSet.{IsFromIterResult};
ghost use Rattle.serde_json.specs.View.{view};
ghost use Rattle.base_json.specs.Gives.{Gives};
ghost use Rattle.base_json.specs.Shapes.{member_as};
ghost use Rattle.base_json.specs.Scopes.{scope_tree, with_exits};
ghost use Rattle.base_json.specs.Read.{system_of};
ghost use Rattle.base_values.specs.Read.{unit_in, unit_of, transformer_of};

use crate::scope::ValueScope;
use affine_systems::System;
use base_json::{
    Decode, DecodeError, Scope, field, has_members, is_block, list_field, offset_at, pair, text_at,
};
use f77_ast::Unit;
use fx_lists::List;
use preconditions::transformer_algebra::Transformer;
use serde_json::Value;
use std::alloc::{AllocError as Memory, Global};
use std::collections::HashSet;

/// A unit of its block and its offset.
fn unit_in(alloc: Global, block: &Value, offset: &Value) -> Result<Unit, DecodeError>
    ensures { Gives result (unit_in (view block.now) (view offset.now)) }
{
    let block = text_at(alloc, block)?;
    let Some(offset) = offset_at(offset) else {
        return Err(DecodeError::Shape);
    };
    if !is_block(block.as_slice()) {
        return Err(DecodeError::Shape);
    }
    Ok(Unit { block, offset })
}

impl<'a> Decode<ValueScope<'a>> for Unit {
    ghost read_as = { λ _. unit_of };

    fn decode(alloc: Global, _scope: &ValueScope<'a>, value: &Value) -> Result<Unit, DecodeError> {
        match pair(value) {
            None => Err(DecodeError::Shape),
            Some((block, offset)) => unit_in(alloc, block, offset),
        }
    }
}

/// The set of these numbers.
fn set_of(alloc: Global, numbers: &[u32]) -> Result<HashSet<u32>, Memory>
    ensures { IfOk result (IsFromIterResult nat_eq numbers.now) }
{
    numbers.iter().copied().collect(alloc)
}

/// The system under the key `system`, which may name the exits of these cells.
fn exit_system(
    alloc: Global,
    scope: &ValueScope<'_>,
    cells: &[u32],
    value: &Value,
) -> Result<System, DecodeError>
    ensures { Gives result (member_as (system_of (with_exits cells.now (scope_tree scope.now.cells))) (codes "system") (view value.now)) }
{
    let exits = set_of(alloc, cells)?;
    let scope = Scope {
        symbols: scope.cells.symbols,
        exits: &exits,
        phi: scope.cells.phi,
    };
    field(alloc, &scope, value, "system")
}

impl<'a> Decode<ValueScope<'a>> for Transformer {
    ghost read_as = { λ s. transformer_of (scope_tree s.cells) };

    fn decode(
        alloc: Global,
        scope: &ValueScope<'a>,
        value: &Value,
    ) -> Result<Transformer, DecodeError> {
        if !has_members(value, 3) {
            return Err(DecodeError::Shape);
        }
        let cells: List<u32> = list_field(alloc, &scope.cells, value, "cells")?;
        let foreign: List<Unit> = list_field(alloc, scope, value, "foreign")?;
        let system = exit_system(alloc, scope, cells.as_slice(), value)?;
        Ok(Transformer {
            cells,
            foreign,
            system,
        })
    }
}
