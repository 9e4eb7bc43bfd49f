//! The namings of two transformers that are put together: what both change has an auxiliary variable in between.
ghost use Rattle.std.specs.Prelude.{◌≡◌, ◌+◌, ◌<◌, ◌^◌, length, IfOk};
ghost use Rattle.transformer_algebra.specs.Halves.{first_names as first_names_is, second_names as second_names_is, middle as middle_is, to_cells as to_cells_is, cell_vars as cell_vars_is};

use crate::{Naming, has};
use affine_systems::Var;
use fx_lists::List;
use std::alloc::{AllocError as Memory, Global};

#[tactic(auto, using(crate::proofs::CellSteps::first_loop))]
/// The namings for the system of the first transformer. `cells` are those that it changes and `again` those of the
/// second; the exit of each cell in both becomes an auxiliary variable, numbered from `first` on in the order of
/// `cells`.
pub fn first_names(
    alloc: Global,
    first: u32,
    again: &[u32],
    cells: &[u32],
) -> Result<Vec<Naming>, Memory>
    requires { first + length cells.now < 2 ^ 32 }
    ensures { IfOk result (λ ns. ns.items ≡ first_names_is first again.now cells.now) }
{
    let mut out = Vec::new(alloc);
    let mut number = first;
    for c in cells {
        if has(again, *c) {
            out.push(Naming {
                from: Var::Exit(*c),
                to: Var::Aux(number),
            })?;
            number += 1;
        }
    }
    Ok(out)
}

#[tactic(auto, using(crate::proofs::CellSteps::second_loop))]
/// The namings for the system of the second transformer, of each cell in `cells`, which the first changes: those in
/// `again` become the auxiliary variables of `first_names`, the others the exits of the first.
pub fn second_names(
    alloc: Global,
    first: u32,
    again: &[u32],
    cells: &[u32],
) -> Result<Vec<Naming>, Memory>
    requires { first + length cells.now < 2 ^ 32 }
    ensures { IfOk result (λ ns. ns.items ≡ second_names_is first again.now cells.now) }
{
    let mut out = Vec::new(alloc);
    let mut number = first;
    for c in cells {
        if has(again, *c) {
            out.push(Naming {
                from: Var::Cell(*c),
                to: Var::Aux(number),
            })?;
            number += 1;
        } else {
            out.push(Naming {
                from: Var::Cell(*c),
                to: Var::Exit(*c),
            })?;
        }
    }
    Ok(out)
}

#[tactic(auto, using(crate::proofs::CellSteps::middle_loop))]
/// The auxiliary variables of `first_names`, in order: the values between the two transformers of what both change.
pub fn middle(alloc: Global, first: u32, again: &[u32], cells: &[u32]) -> Result<Vec<Var>, Memory>
    requires { first + length cells.now < 2 ^ 32 }
    ensures { IfOk result (λ vs. vs.items ≡ middle_is first again.now cells.now) }
{
    let mut out = Vec::new(alloc);
    let mut number = first;
    for c in cells {
        if has(again, *c) {
            out.push(Var::Aux(number))?;
            number += 1;
        }
    }
    Ok(out)
}

/// The namings by which the exit of each cell becomes the cell.
pub fn to_cells(alloc: Global, cells: &[u32]) -> Result<Vec<Naming>, Memory>
    ensures { IfOk result (λ ns. ns.items ≡ to_cells_is cells.now) }
{
    let mut out = Vec::new(alloc);
    for c in cells {
        out.push(Naming {
            from: Var::Exit(*c),
            to: Var::Cell(*c),
        })?;
    }
    Ok(out)
}

/// The `Cell` variables of these numbers, in order.
pub fn cell_vars(alloc: Global, cells: &[u32]) -> Result<List<Var>, Memory>
    ensures { IfOk result (λ vs. vs ≡ cell_vars_is cells.now) }
{
    let mut out = Vec::new(alloc);
    for c in cells {
        out.push(Var::Cell(*c))?;
    }
    Ok(List::from_vec(out))
}
