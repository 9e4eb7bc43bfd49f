//! Systems out of JSON values, and the sizes of their numbers.
ghost use Rattle.std.specs.Prelude.{◌≡◌};
ghost use Rattle.affine_systems.specs.Normal.{is_small as is_small_is, are_small as are_small_is};
ghost use Rattle.serde_json.specs.View.{view};
ghost use Rattle.base_json.specs.Scopes.{scope_tree};
ghost use Rattle.base_json.specs.Read.{system_of, is_small_row as is_small_row_is, is_small_system as is_small_system_is};

use crate::{Decode, DecodeError, Scope, field, has_members};
use affine_systems::{Row, Rows, System, Term};
use serde_json::Value;
use std::alloc::Global;

impl<'a> Decode<Scope<'a>> for System {
    ghost read_as = { λ s. system_of (scope_tree s) };

    fn decode(alloc: Global, scope: &Scope<'a>, value: &Value) -> Result<System, DecodeError> {
        if !has_members(value, 2) {
            return Err(DecodeError::Shape);
        }
        let rows: Rows = field(alloc, scope, value, "rows")?;
        let weak: bool = field(alloc, scope, value, "weak")?;
        Ok(System { rows, weak })
    }
}

#[tactic(auto, unfolding(affine_systems::specs::Normal::is_small))]
fn is_small(z: i128) -> bool
    ensures { result ≡ is_small_is z }
{
    z.unsigned_abs() < 1 << 62
}

fn are_small(terms: &[Term]) -> bool
    ensures { result ≡ are_small_is terms.now }
{
    terms.iter().all(|t| is_small(t.factor))
}

fn is_small_row(row: &Row) -> bool
    ensures { result ≡ is_small_row_is row.now }
{
    is_small(row.bound) && are_small(row.terms.as_slice())
}

/// Whether all numbers of the rows are below 2^62 in magnitude.
pub fn is_small_system(system: &System) -> bool
    ensures { result ≡ is_small_system_is system.now }
{
    system.rows.as_slice().iter().all(is_small_row)
}
