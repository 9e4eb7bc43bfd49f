//! What is read out of JSON values, and lists of it.
ghost use Rattle.std.specs.Prelude.{◌≡◌, List as Elements, map, Option, option_and_then};
ghost use Rattle.serde_json.specs.Data.{Data};
ghost use Rattle.serde_json.specs.Find.{as_bool};
ghost use Rattle.serde_json.specs.View.{view};
ghost use Rattle.base_json.specs.Shapes.{each_as, list_as, member_as};
ghost use Rattle.base_json.specs.Gives.{Gives};

use crate::DecodeError;
use crate::shapes::{items_of, member};
use fx_lists::List;
use serde_json::Value;
use std::alloc::Global;

/// What is read out of a JSON value, within a scope `S` that says what may be named.
pub trait Decode<S>: Drop {
    ghost read_as: { S → Data → Option Self };

    /// What the value says. Err(Shape) where it has another shape.
    fn decode(alloc: Global, scope: &S, value: &Value) -> Result<Self, DecodeError>
        ensures { Gives result (read_as scope.now (view value.now)) };
}

#[tactic(auto, using(crate::proofs::Lists::reads))]
/// What each of some values says.
pub fn decode_each<S, T: Decode<S>>(
    alloc: Global,
    scope: &S,
    values: &[Value],
) -> Result<List<T>, DecodeError>
    ensures { Gives result (each_as (T.read_as scope.now) (map view values.now)) }
{
    let mut made = List::new(alloc);
    for value in values {
        let item: T = Decode::decode(alloc, scope, value)?;
        made.push(item)?;
    }
    Ok(made)
}

/// What each item of an array says.
pub fn list_at<S, T: Decode<S>>(
    alloc: Global,
    scope: &S,
    value: &Value,
) -> Result<List<T>, DecodeError>
    ensures { Gives result (list_as (T.read_as scope.now) (view value.now)) }
{
    match items_of(value) {
        None => Err(DecodeError::Shape),
        Some(values) => decode_each(alloc, scope, values),
    }
}

impl<S> Decode<S> for bool {
    ghost read_as = { λ _. as_bool };

    fn decode(_alloc: Global, _scope: &S, value: &Value) -> Result<bool, DecodeError> {
        match value.as_bool() {
            None => Err(DecodeError::Shape),
            Some(flag) => Ok(flag),
        }
    }
}

/// What the member with a key says.
pub fn field<S, T: Decode<S>>(
    alloc: Global,
    scope: &S,
    value: &Value,
    key: &str,
) -> Result<T, DecodeError>
    ensures { Gives result (member_as (T.read_as scope.now) key.now (view value.now)) }
{
    match member(value, key) {
        None => Err(DecodeError::Shape),
        Some(found) => Decode::decode(alloc, scope, found),
    }
}

/// What each item of the array under a key says.
pub fn list_field<S, T: Decode<S>>(
    alloc: Global,
    scope: &S,
    value: &Value,
    key: &str,
) -> Result<List<T>, DecodeError>
    ensures { Gives result (member_as (list_as (T.read_as scope.now)) key.now (view value.now)) }
{
    match member(value, key) {
        None => Err(DecodeError::Shape),
        Some(found) => list_at(alloc, scope, found),
    }
}
