//! A choice of transformers.
ghost use Rattle.std.specs.Prelude.{◌≡◌, IfOk};
ghost use Rattle.affine_systems.specs.Rows.{AllRows};
ghost use Rattle.affine_systems.specs.Given.{IsGiven, Fits};
ghost use Rattle.transformer_algebra.specs.Transformers.{AllFit, equal as equal_is, equals as equals_is, complete as complete_is, all_cells as all_cells_is, all_units as all_units_is, hull_of_arms as hull_of_arms_is, one_of as one_of_is};

use crate::{Transformer, joined_cells, joined_units, nowhere, others, push_rows};
use affine_forms::{same_row, var_form};
use affine_systems::{Row, System, Var};
use f77_ast::Unit;
use fx_lists::List;
use hull_projection::hull;
use std::alloc::{AllocError as Memory, Global};

/// That the exit of a cell is the cell.
fn equal(alloc: Global, cell: u32) -> Result<Row, Memory>
    ensures defined { IfOk result (λ r. r ≡ equal_is cell) }
    ensures fits { IfOk result IsGiven }
{
    let exit = var_form(alloc, Var::Exit(cell))?;
    let entry = var_form(alloc, Var::Cell(cell))?;
    same_row(alloc, &exit, &entry)
}

/// For each cell, in order, the equal row which says that its exit is the cell.
pub fn equals(alloc: Global, cells: &[u32]) -> Result<Vec<Row>, Memory>
    ensures defined { IfOk result (λ rs. rs.items ≡ equals_is cells.now) }
    ensures fits { IfOk result (λ rs. AllRows IsGiven rs.items) }
{
    let mut out = Vec::new(alloc);
    for c in cells {
        out.push(equal(alloc, *c)?)?;
    }
    Ok(out)
}

/// The system of a transformer as of one that lists `cells` as changed: of those that it does not change, the exit is
/// the cell.
pub fn complete(alloc: Global, cells: &[u32], t: &Transformer) -> Result<System, Memory>
    requires { Fits t.now.system }
    ensures defined { IfOk result (λ s. s ≡ complete_is cells.now t.now) }
    ensures fits { IfOk result Fits }
{
    let rest = others(alloc, cells, t.cells.as_slice())?;
    let rows = equals(alloc, rest.as_slice())?;
    push_rows(alloc, &t.system, rows)
}

#[tactic(auto, using(crate::proofs::ArmSteps::all_cells_loop))]
/// The cells that some arm may change, ascending, each once.
fn all_cells(alloc: Global, arms: &[Transformer]) -> Result<List<u32>, Memory>
    ensures { IfOk result (λ cs. cs ≡ all_cells_is arms.now) }
{
    let mut cells = List::new(alloc);
    for t in arms {
        cells = joined_cells(alloc, cells.as_slice(), t.cells.as_slice())?;
    }
    Ok(cells)
}

#[tactic(auto, using(crate::proofs::ArmSteps::all_units_loop))]
fn all_units(alloc: Global, arms: &[Transformer]) -> Result<List<Unit>, Memory>
    ensures { IfOk result (λ us. us ≡ all_units_is arms.now) }
{
    let mut units = List::new(alloc);
    for t in arms {
        units = joined_units(alloc, units.as_slice(), t.foreign.as_slice())?;
    }
    Ok(units)
}

#[tactic(auto, using(crate::proofs::ArmSteps::hulled_loop))]
/// The hulls, from left to right.
fn hull_of_arms(
    alloc: Global,
    cells: &[u32],
    first: System,
    arms: &[Transformer],
) -> Result<System, Memory>
    requires first { Fits first }
    requires arms { AllFit arms.now }
    ensures defined { IfOk result (λ s. s ≡ hull_of_arms_is cells.now first arms.now) }
    ensures fits { IfOk result Fits }
{
    let mut hulls = first;
    for t in arms {
        let next = complete(alloc, cells, t)?;
        hulls = hull(alloc, &hulls, &next)?;
    }
    Ok(hulls)
}

/// The transformer of a choice between these: for the cells and units that one of them may change, the hulls of their
/// completed systems, from left to right. Of an empty list, `nowhere`. Memory also where the numbers of auxiliary
/// variables reach 2^32.
pub fn one_of(alloc: Global, arms: &[Transformer]) -> Result<Transformer, Memory>
    requires { AllFit arms.now }
    ensures defined { IfOk result (λ t. t ≡ one_of_is arms.now) }
    ensures fits { IfOk result (λ t. Fits t.system) }
{
    match arms {
        [] => nowhere(alloc),
        [t, more @ ..] => {
            let cells = all_cells(alloc, arms)?;
            let first = complete(alloc, cells.as_slice(), t)?;
            let system = hull_of_arms(alloc, cells.as_slice(), first, more)?;
            Ok(Transformer {
                cells,
                foreign: all_units(alloc, arms)?,
                system,
            })
        }
    }
}
