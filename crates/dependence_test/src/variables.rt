//! The variables of two iterations.
ghost use Rattle.std.specs.Prelude.{◌≡◌, ℕ, [], ◌+◌, ◌<◌, ◌≤◌, ◌^◌, ◌++◌, length, true, IfOk};
ghost use Rattle.affine_systems.specs.Given.{Fits};
ghost use Rattle.affine_systems.specs.Terms.{var_lt};
ghost use Rattle.affine_systems.specs.declared.row.Var.TheVariants.{Aux};
ghost use Rattle.dependence_test.specs.Given.{BodyFits};
ghost use Rattle.dependence_test.specs.Variables.{cell_namings as cell_namings_is, at_iteration as at_iteration_is, index_at as index_at_is, before_subscript, subscripts as subscripts_is, named_subscripts as named_subscripts_is, subscript_namings as subscript_namings_is, with_own_subscripts as with_own_subscripts_is};

use crate::LoopBody;
use affine_systems::{System, Var, meet};
use hull_projection::add_rows;
use preconditions::transformer_algebra::{Naming, rename_all, replacement};
use std::alloc::{AllocError as Memory, Global};

/// A number and so many more. Memory where that is 2^32 or more.
pub fn number_after(first: u32, count: usize) -> Result<u32, Memory>
    ensures { IfOk result (λ n. n ≡ first + count) }
{
    match u32::try_from(count) {
        Ok(count) => first.checked_add(count).ok_or(Memory),
        Err(_) => Err(Memory),
    }
}

/// The namings of the cells of one iteration: each becomes an auxiliary variable, numbered from `first` on in their order.
#[tactic(auto, using(crate::proofs::Steps::lists))]
fn cell_namings(alloc: Global, first: u32, cells: &[u32]) -> Result<Vec<Naming>, Memory>
    requires { first + length cells.now < 2 ^ 32 }
    ensures { IfOk result (λ ns. ns.items ≡ cell_namings_is first cells.now) }
{
    let mut out = Vec::new(alloc);
    let mut number = first;
    let mut rest = cells;
    while let [c, more @ ..] = rest {
        out.push(Naming {
            from: Var::Cell(*c),
            to: Var::Aux(number),
        })?;
        number += 1;
        rest = more;
    }
    Ok(out)
}

/// What holds where an iteration begins, with a system there, the cells that an iteration changes numbered from `first` on.
pub fn at_iteration(alloc: Global, first: u32, b: &LoopBody, s: &System) -> Result<System, Memory>
    requires room { first + length b.now.cells < 2 ^ 32 }
    requires body { BodyFits b.now }
    requires system { Fits s.now }
    ensures defined { IfOk result (λ t. t ≡ at_iteration_is first b.now s.now) }
    ensures fits { IfOk result Fits }
{
    let namings = cell_namings(alloc, first, b.cells.as_slice())?;
    let met = meet(alloc, &b.head, s)?;
    rename_all(alloc, &met, namings.as_slice())
}

/// The index of an iteration whose cells are numbered from `first` on.
#[tactic(auto, using(crate::proofs::VariableLaws::index_steps))]
pub fn index_at(alloc: Global, first: u32, b: &LoopBody) -> Result<Var, Memory>
    requires { first + length b.now.cells < 2 ^ 32 }
    ensures defined { IfOk result (λ v. v ≡ index_at_is first b.now) }
    ensures before { IfOk result (λ v. (n : ℕ) → first + length b.now.cells ≤ n → var_lt v (Aux n) ≡ true) }
{
    let namings = cell_namings(alloc, first, b.cells.as_slice())?;
    Ok(replacement(namings.as_slice(), Var::Cell(b.index)))
}

/// Adds the number of a variable that is a subscript.
#[tactic(auto, using(crate::proofs::Steps::lists))]
fn push_subscript(out: &mut Vec<u8>, v: Var) -> Result<(), Memory>
    ensures { IfOk result (λ _. out.new.items ≡ out.old.items ++ before_subscript v []) }
{
    match v {
        Var::Phi(k) => {
            out.push(k)?;
            Ok(())
        }
        Var::Cell(_) | Var::Exit(_) | Var::Aux(_) => Ok(()),
    }
}

#[tactic(auto, using(crate::proofs::Steps::lists))]
fn subscripts(alloc: Global, vars: &[Var]) -> Result<Vec<u8>, Memory>
    ensures { IfOk result (λ ks. ks.items ≡ subscripts_is vars.now) }
{
    let mut out = Vec::new(alloc);
    let mut rest = vars;
    while let [v, more @ ..] = rest {
        push_subscript(&mut out, *v)?;
        rest = more;
    }
    Ok(out)
}

/// The subscripts that a system names, ascending.
pub fn named_subscripts(alloc: Global, s: &System) -> Result<Vec<u8>, Memory>
    ensures { IfOk result (λ ks. ks.items ≡ named_subscripts_is s.now) }
{
    let mut vars = Vec::new(alloc);
    add_rows(&mut vars, s.rows.as_slice())?;
    subscripts(alloc, vars.as_slice())
}

/// The namings of subscripts: each becomes an auxiliary variable, numbered from `first` on in their order.
#[tactic(auto, using(crate::proofs::Steps::lists))]
fn subscript_namings(alloc: Global, first: u32, subscripts: &[u8]) -> Result<Vec<Naming>, Memory>
    requires { first + length subscripts.now < 2 ^ 32 }
    ensures { IfOk result (λ ns. ns.items ≡ subscript_namings_is first subscripts.now) }
{
    let mut out = Vec::new(alloc);
    let mut number = first;
    let mut rest = subscripts;
    while let [k, more @ ..] = rest {
        out.push(Naming {
            from: Var::Phi(*k),
            to: Var::Aux(number),
        })?;
        number += 1;
        rest = more;
    }
    Ok(out)
}

/// A system whose subscripts are these, numbered from `first` on.
pub fn with_own_subscripts(
    alloc: Global,
    first: u32,
    subscripts: &[u8],
    s: &System,
) -> Result<System, Memory>
    requires room { first + length subscripts.now < 2 ^ 32 }
    requires named { subscripts.now ≡ named_subscripts_is s.now }
    requires system { Fits s.now }
    ensures defined { IfOk result (λ t. t ≡ with_own_subscripts_is first s.now) }
    ensures fits { IfOk result Fits }
{
    let namings = subscript_namings(alloc, first, subscripts)?;
    rename_all(alloc, s, namings.as_slice())
}
