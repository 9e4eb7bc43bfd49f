//! Numbers for fresh auxiliary variables.
ghost use Rattle.std.specs.Prelude.{◌≡◌, ◌+◌, ◌<◌, ◌≤◌, ◌^◌, IfOk};
ghost use Rattle.hull_projection.specs.Fresh.{above_aux as above_aux_is};
ghost use Rattle.transformer_algebra.specs.Fresh.{above_terms as above_terms_is, above_rows as above_rows_is, fresh_over as fresh_over_is};

use affine_systems::{Row, System, Term, Var};
use std::alloc::AllocError as Memory;

/// One more than the greatest number of an auxiliary variable.
const NUMBERS: u64 = 1 << 32;

/// The least number that is above the variable's, where that is an auxiliary one, and not below another.
fn above_aux(v: Var, least: u64) -> u64
    requires { least ≤ 2 ^ 32 }
    ensures defined { result ≡ above_aux_is v least }
    ensures below { result ≤ 2 ^ 32 }
{
    match v {
        Var::Cell(_) | Var::Exit(_) | Var::Phi(_) => least,
        Var::Aux(n) => (n as u64 + 1).max(least),
    }
}

fn above_terms(mut least: u64, terms: &[Term]) -> u64
    requires { least ≤ 2 ^ 32 }
    ensures defined { result ≡ above_terms_is least terms.now }
    ensures below { result ≤ 2 ^ 32 }
{
    for t in terms {
        least = above_aux(t.var, least);
    }
    least
}

fn above_rows(mut least: u64, rows: &[Row]) -> u64
    requires { least ≤ 2 ^ 32 }
    ensures defined { result ≡ above_rows_is least rows.now }
    ensures below { result ≤ 2 ^ 32 }
{
    for row in rows {
        least = above_terms(least, row.terms.as_slice());
    }
    least
}

/// The least number above those of the auxiliary variables of both systems, 0 where they have none. Memory where it and
/// `more` after it are not all below 2^32.
pub fn fresh_over(one: &System, other: &System, more: usize) -> Result<u32, Memory>
    ensures defined { IfOk result (λ n. n ≡ fresh_over_is one.now other.now) }
    ensures room { IfOk result (λ n. n + more < 2 ^ 32) }
{
    let least = above_rows(above_rows(0, one.rows.as_slice()), other.rows.as_slice());
    if more as u64 >= NUMBERS - least {
        return Err(Memory);
    }
    Ok(least as u32)
}
