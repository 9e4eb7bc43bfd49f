//! Results out of JSON values.
ghost use Rattle.std.specs.Prelude.{◌≡◌, map, option_map, codes};
ghost use Rattle.serde_json.specs.View.{view};
ghost use Rattle.base_json.specs.Gives.{Gives};
ghost use Rattle.base_json.specs.Scopes.{scope_tree};
ghost use Rattle.base_json.specs.Read.{system_of};
ghost use Rattle.base_values.specs.declared.stored.StoredValue.TheVariants as stored;
ghost use Rattle.base_values.specs.Read.{effects_of, transformer_of, regions_of, mark_of, at_in as at_in_is, at_one as at_one_is, at_each as at_each_is, at_all as at_all_is, results_of, value_of, stored_of};
ghost use Rattle.base_values.specs.Scopes.{names_tree};

use crate::scope::ValueScope;
use crate::{Names, StoredValue};
use affine_systems::System;
use base_json::{
    Decode, DecodeError, Scope, field, has_members, items_of, member, offset_at, pair,
};
use f77_ast::{At, EffectSet, Mark, Results, StmtId};
use fx_lists::List;
use pipsmake_rules::Kind;
use preconditions::transformer_algebra::Transformer;
use region_sets::RegionSet;
use serde_json::Value;
use std::alloc::Global;
use std::collections::HashSet;

impl<'a> Decode<ValueScope<'a>> for System {
    ghost read_as = { λ s. system_of (scope_tree s.cells) };

    fn decode(alloc: Global, scope: &ValueScope<'a>, value: &Value) -> Result<System, DecodeError> {
        Decode::decode(alloc, &scope.cells, value)
    }
}

/// What is said of the statement with a number, of that number and what is said.
fn at_in<'a, T: Decode<ValueScope<'a>>>(
    alloc: Global,
    scope: &ValueScope<'a>,
    id: StmtId,
    number: &Value,
    value: &Value,
) -> Result<At<T>, DecodeError>
    ensures { Gives result (at_in_is (T.read_as scope.now) id (view number.now) (view value.now)) }
{
    let Some(number) = offset_at(number) else {
        return Err(DecodeError::Shape);
    };
    if u64::from(id) != number {
        return Err(DecodeError::Shape);
    }
    let value: T = Decode::decode(alloc, scope, value)?;
    Ok(At { id, value })
}

/// What is said of the statement with a number.
fn at_one<'a, T: Decode<ValueScope<'a>>>(
    alloc: Global,
    scope: &ValueScope<'a>,
    id: StmtId,
    value: &Value,
) -> Result<At<T>, DecodeError>
    ensures { Gives result (at_one_is (T.read_as scope.now) id (view value.now)) }
{
    match pair(value) {
        None => Err(DecodeError::Shape),
        Some((number, value)) => at_in(alloc, scope, id, number, value),
    }
}

/// What is said of the statements with these numbers, in their order.
#[tactic(auto, using(crate::proofs::Steps::reads))]
fn at_each<'a, T: Decode<ValueScope<'a>>>(
    alloc: Global,
    scope: &ValueScope<'a>,
    ids: &[StmtId],
    values: &[Value],
) -> Result<List<At<T>>, DecodeError>
    ensures { Gives result (at_each_is (T.read_as scope.now) ids.now (map view values.now)) }
{
    let mut made = List::new(alloc);
    let mut ids = ids;
    let mut values = values;
    while let [id, more @ ..] = ids {
        let [value, later @ ..] = values else {
            return Err(DecodeError::Shape);
        };
        let one: At<T> = at_one(alloc, scope, *id, value)?;
        made.push(one)?;
        ids = more;
        values = later;
    }
    if values.is_empty() {
        Ok(made)
    } else {
        Err(DecodeError::Shape)
    }
}

/// An array of what is said of these statements.
fn at_all<'a, T: Decode<ValueScope<'a>>>(
    alloc: Global,
    scope: &ValueScope<'a>,
    ids: &[StmtId],
    value: &Value,
) -> Result<List<At<T>>, DecodeError>
    ensures { Gives result (at_all_is (T.read_as scope.now) ids.now (view value.now)) }
{
    match items_of(value) {
        None => Err(DecodeError::Shape),
        Some(values) => at_each(alloc, scope, ids, values),
    }
}

/// What is said of these statements, and of the module under a key.
fn results_at<'a, T: Decode<ValueScope<'a>>>(
    alloc: Global,
    scope: &ValueScope<'a>,
    ids: &[StmtId],
    key: &str,
    value: &Value,
) -> Result<Results<T>, DecodeError>
    ensures { Gives result (results_of (T.read_as scope.now) ids.now key.now (view value.now)) }
{
    if !has_members(value, 2) {
        return Err(DecodeError::Shape);
    }
    let Some(array) = member(value, "at") else {
        return Err(DecodeError::Shape);
    };
    let at: List<At<T>> = at_all(alloc, scope, ids, array)?;
    let summary: T = field(alloc, scope, value, key)?;
    Ok(Results { at, summary })
}

/// Effects.
fn effects_at(
    alloc: Global,
    names: &Names<'_>,
    scope: &ValueScope<'_>,
    value: &Value,
) -> Result<StoredValue, DecodeError>
    ensures { Gives result (option_map stored.Effects (results_of (effects_of (scope_tree scope.now.cells)) names.now.numbers.now.statements (codes "summary") (view value.now))) }
{
    let ids = names.numbers.statements.as_slice();
    let read: Results<EffectSet> = results_at(alloc, scope, ids, "summary", value)?;
    Ok(StoredValue::Effects(read))
}

/// Transformers.
fn transformers_at(
    alloc: Global,
    names: &Names<'_>,
    scope: &ValueScope<'_>,
    value: &Value,
) -> Result<StoredValue, DecodeError>
    ensures { Gives result (option_map stored.Transformers (results_of (transformer_of (scope_tree scope.now.cells)) names.now.numbers.now.statements (codes "summary") (view value.now))) }
{
    let ids = names.numbers.statements.as_slice();
    let read: Results<Transformer> = results_at(alloc, scope, ids, "summary", value)?;
    Ok(StoredValue::Transformers(read))
}

/// Preconditions.
fn preconditions_at(
    alloc: Global,
    names: &Names<'_>,
    scope: &ValueScope<'_>,
    value: &Value,
) -> Result<StoredValue, DecodeError>
    ensures { Gives result (option_map stored.Preconditions (results_of (system_of (scope_tree scope.now.cells)) names.now.numbers.now.statements (codes "entry") (view value.now))) }
{
    let ids = names.numbers.statements.as_slice();
    let read: Results<System> = results_at(alloc, scope, ids, "entry", value)?;
    Ok(StoredValue::Preconditions(read))
}

/// Marks.
fn marks_at(
    alloc: Global,
    names: &Names<'_>,
    scope: &ValueScope<'_>,
    value: &Value,
) -> Result<StoredValue, DecodeError>
    ensures { Gives result (option_map stored.Marks (at_all_is (mark_of (scope_tree scope.now.cells)) names.now.numbers.now.loops (view value.now))) }
{
    let read: List<At<Mark>> = at_all(alloc, scope, names.numbers.loops.as_slice(), value)?;
    Ok(StoredValue::Marks(read))
}

fn read_writes_at(
    alloc: Global,
    names: &Names<'_>,
    scope: &ValueScope<'_>,
    value: &Value,
) -> Result<StoredValue, DecodeError>
    ensures { Gives result (option_map stored.Regions (results_of (regions_of (scope_tree scope.now.cells) scope.now.kind) names.now.numbers.now.statements (codes "summary") (view value.now))) }
{
    let ids = names.numbers.statements.as_slice();
    let read: Results<RegionSet> = results_at(alloc, scope, ids, "summary", value)?;
    Ok(StoredValue::Regions(read))
}

fn ins_at(
    alloc: Global,
    names: &Names<'_>,
    scope: &ValueScope<'_>,
    value: &Value,
) -> Result<StoredValue, DecodeError>
    ensures { Gives result (option_map stored.InRegions (results_of (regions_of (scope_tree scope.now.cells) scope.now.kind) names.now.numbers.now.statements (codes "summary") (view value.now))) }
{
    let ids = names.numbers.statements.as_slice();
    let read: Results<RegionSet> = results_at(alloc, scope, ids, "summary", value)?;
    Ok(StoredValue::InRegions(read))
}

fn outs_at(
    alloc: Global,
    names: &Names<'_>,
    scope: &ValueScope<'_>,
    value: &Value,
) -> Result<StoredValue, DecodeError>
    ensures { Gives result (option_map stored.OutRegions (results_of (regions_of (scope_tree scope.now.cells) scope.now.kind) names.now.numbers.now.statements (codes "summary") (view value.now))) }
{
    let ids = names.numbers.statements.as_slice();
    let read: Results<RegionSet> = results_at(alloc, scope, ids, "summary", value)?;
    Ok(StoredValue::OutRegions(read))
}

/// A result of the kind of a scope.
fn value_at(
    alloc: Global,
    names: &Names<'_>,
    scope: &ValueScope<'_>,
    value: &Value,
) -> Result<StoredValue, DecodeError>
    ensures { Gives result (value_of names.now.numbers.now.statements names.now.numbers.now.loops (scope_tree scope.now.cells) scope.now.kind (view value.now)) }
{
    match scope.kind {
        Kind::Effects => effects_at(alloc, names, scope, value),
        Kind::Transformers => transformers_at(alloc, names, scope, value),
        Kind::Preconditions => preconditions_at(alloc, names, scope, value),
        Kind::Regions => read_writes_at(alloc, names, scope, value),
        Kind::InRegions => ins_at(alloc, names, scope, value),
        Kind::OutRegions => outs_at(alloc, names, scope, value),
        Kind::Marks => marks_at(alloc, names, scope, value),
        Kind::Parsed | Kind::Lines | Kind::Symbols | Kind::CallGraph | Kind::Printed => {
            Err(DecodeError::Shape)
        }
    }
}

/// A result of a kind of the module with these names. Err(Shape) where the value has another shape or does not fit the module, the sizes of the numbers of
/// rows aside, and for a kind that is not stored.
pub fn stored_at(
    alloc: Global,
    names: &Names<'_>,
    kind: Kind,
    value: &Value,
) -> Result<StoredValue, DecodeError>
    ensures { Gives result (stored_of (names_tree names.now) kind (view value.now)) }
{
    let none: HashSet<u32> = HashSet::new(alloc);
    let cells = Scope {
        symbols: names.symbols,
        exits: &none,
        phi: false,
    };
    value_at(alloc, names, &ValueScope { cells, kind }, value)
}
