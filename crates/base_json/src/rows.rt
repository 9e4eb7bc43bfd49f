//! Rows out of JSON values.
ghost use Rattle.std.specs.Prelude.{◌≡◌};
ghost use Rattle.serde_json.specs.View.{view};
ghost use Rattle.base_json.specs.Gives.{Gives};
ghost use Rattle.base_json.specs.Scopes.{scope_tree};
ghost use Rattle.base_json.specs.Read.{terms_of, row_in as row_in_is, row_of, rows_of};

use crate::reduced::rows_fit;
use crate::terms::terms_ascend;
use crate::{Decode, DecodeError, Scope, flag_at, list_at, triple, whole_at};
use affine_systems::{Row, Rows, Terms};
use serde_json::Value;
use std::alloc::Global;

fn terms_at(alloc: Global, scope: &Scope<'_>, value: &Value) -> Result<Terms, DecodeError>
    ensures { Gives result (terms_of (scope_tree scope.now) (view value.now)) }
{
    let terms: Terms = list_at(alloc, scope, value)?;
    if !terms_ascend(terms.as_slice()) {
        return Err(DecodeError::Shape);
    }
    Ok(terms)
}

/// A row of its three parts.
fn row_in(
    alloc: Global,
    scope: &Scope<'_>,
    equal: &Value,
    bound: &Value,
    terms: &Value,
) -> Result<Row, DecodeError>
    ensures { Gives result (row_in_is (scope_tree scope.now) (view equal.now) (view bound.now) (view terms.now)) }
{
    let Some(equal) = flag_at(equal) else {
        return Err(DecodeError::Shape);
    };
    let Some(bound) = whole_at(bound) else {
        return Err(DecodeError::Shape);
    };
    let terms = terms_at(alloc, scope, terms)?;
    Ok(Row {
        equal,
        terms,
        bound,
    })
}

impl<'a> Decode<Scope<'a>> for Row {
    ghost read_as = { λ s. row_of (scope_tree s) };

    fn decode(alloc: Global, scope: &Scope<'a>, value: &Value) -> Result<Row, DecodeError> {
        match triple(value) {
            None => Err(DecodeError::Shape),
            Some((equal, bound, terms)) => row_in(alloc, scope, equal, bound, terms),
        }
    }
}

impl<'a> Decode<Scope<'a>> for Rows {
    ghost read_as = { λ s. rows_of (scope_tree s) };

    fn decode(alloc: Global, scope: &Scope<'a>, value: &Value) -> Result<Rows, DecodeError> {
        let rows: Rows = list_at(alloc, scope, value)?;
        if !rows_fit(rows.as_slice()) {
            return Err(DecodeError::Shape);
        }
        Ok(rows)
    }
}
