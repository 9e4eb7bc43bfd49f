//! Auxiliary variables with numbers above those in use.
ghost use Rattle.std.specs.Prelude.{◌≡◌, ◌+◌, ◌<◌, ◌≤◌, ◌^◌, length, IfOk};
ghost use Rattle.hull_projection.specs.Fresh.{above_aux as above_aux_is, fresh_after as fresh_after_is, aux_from as aux_from_is, is_old as is_old_is, old_vars as old_vars_is};

use affine_systems::{Var, Vars};
use fx_lists::List;
use std::alloc::{AllocError as Memory, Global};

/// One more than the greatest number of an auxiliary variable.
const NUMBERS: u64 = 1 << 32;

/// The least number that is above the variable's, where that is an auxiliary one, and not below another.
fn above_aux(v: Var, least: u64) -> u64
    requires { least ≤ 2 ^ 32 }
    ensures defined { result ≡ above_aux_is v least }
    ensures below { result ≤ 2 ^ 32 }
{
    match v {
        Var::Cell(_) => least,
        Var::Exit(_) => least,
        Var::Phi(_) => least,
        Var::Aux(n) => (n as u64 + 1).max(least),
    }
}

#[tactic(auto, using(crate::proofs::FreshSteps::fresh_loop))]
/// The least number above those of the auxiliary variables.
fn fresh_after(vars: &[Var]) -> u64
    ensures defined { result ≡ fresh_after_is vars.now }
    ensures below { result ≤ 2 ^ 32 }
{
    let mut least = 0;
    for v in vars {
        least = above_aux(*v, least);
    }
    least
}

/// The least number above those of the auxiliary variables in the list, 0 where there are none. Memory where it and
/// `more` after it are not all below 2^32.
pub fn fresh_number(vars: &[Var], more: usize) -> Result<u32, Memory>
    ensures defined { IfOk result (λ n. n ≡ fresh_after_is vars.now) }
    ensures room { IfOk result (λ n. n + more < 2 ^ 32) }
{
    let least = fresh_after(vars);
    if more as u64 >= NUMBERS - least {
        return Err(Memory);
    }
    Ok(least as u32)
}

#[tactic(auto, using(crate::proofs::FreshSteps::aux_loop))]
/// So many auxiliary variables, numbered one by one from `first` on.
pub fn aux_from(alloc: Global, first: u32, count: usize) -> Result<Vec<Var>, Memory>
    requires { first + count ≤ 2 ^ 32 }
    ensures { IfOk result (λ vs. vs.items ≡ aux_from_is first count) }
{
    let mut out = Vec::new(alloc);
    for i in 0..count {
        out.push(Var::Aux(first + i as u32))?;
    }
    Ok(out)
}

/// Whether it is no auxiliary variable from a number on.
fn is_old(first: u32, v: Var) -> bool
    ensures { result ≡ is_old_is first v }
{
    match v {
        Var::Cell(_) => true,
        Var::Exit(_) => true,
        Var::Phi(_) => true,
        Var::Aux(n) => n < first,
    }
}

/// The variables, in order, without the auxiliary ones numbered `first` or more.
pub fn old_vars(first: u32, mut vars: Vec<Var>) -> Vars
    ensures { result ≡ old_vars_is first vars.items }
{
    vars.retain(|v| is_old(first, *v));
    List::from_vec(vars)
}
