//! Regions that speak of the cells after a statement, as such that speak of those before it.
ghost use Rattle.std.specs.Prelude.{◌≡◌, true, IfOk, IfSome};
ghost use Rattle.std.specs.Option.{option_copied};
ghost use Rattle.affine_systems.specs.Rows.{AllRows};
ghost use Rattle.affine_systems.specs.Given.{Fits};
ghost use Rattle.affine_systems.specs.Terms.{Ascends};
ghost use Rattle.region_sets.specs.Regions.{RegionFits};
ghost use Rattle.region_sets.specs.Ready.{IsReady};
ghost use Rattle.region_sets.specs.Compose.{is_other_exit as is_other_exit_is, has_other_exit as has_other_exit_is, is_exit_row as is_exit_row_is, exit_row as exit_row_is, put_exits as put_exits_is, composed_with as led_to_is, through_transformer as through_transformer_is, compose_piece as compose_piece_is, compose as compose_is};
ghost use Rattle.region_sets.specs.Laws.{MovesUnits, MovesSharp};

use crate::Region;
use crate::naming::{exit_vars, has_none, named_cells, to_exits};
use crate::putting::put_row;
use crate::region::{copy_system, push_system};
use crate::trimming::trimmed_to;
use affine_systems::terms::factor_of;
use affine_systems::{Row, System, Term, Var, meet, tidy};
use fx_lists::List;
use hull_projection::{Shadow, project_owned};
use std::alloc::{AllocError as Memory, Global};
use transformers::transformer_algebra::{Transformer, rename_all};

fn is_other_exit(cell: u32, v: Var) -> bool
    ensures { result ≡ is_other_exit_is cell v }
{
    match v {
        Var::Cell(_) | Var::Phi(_) | Var::Aux(_) => false,
        Var::Exit(_) => !Var::Exit(cell).is_same(v),
    }
}

fn has_other_exit(cell: u32, terms: &[Term]) -> bool
    ensures { result ≡ has_other_exit_is cell terms.now }
{
    let mut rest = terms;
    while let [t, more @ ..] = rest {
        if is_other_exit(cell, t.var) {
            return true;
        }
        rest = more;
    }
    false
}

/// Whether an equal row has the factor 1 or -1 on the exit of a cell, and no other exit.
fn is_exit_row(cell: u32, row: &Row) -> bool
    requires { Ascends row.now.terms }
    ensures { result ≡ is_exit_row_is cell row.now }
{
    let terms = row.terms.as_slice();
    row.equal
        && factor_of(terms, Var::Exit(cell)).unsigned_abs() == 1
        && !has_other_exit(cell, terms)
}

/// The first row that says what the cell becomes.
#[tactic(auto, using(crate::proofs::Steps::ready_rows))]
fn exit_row(cell: u32, rows: &[Row]) -> Option<&Row>
    requires { AllRows IsReady rows.now }
    ensures { option_copied result ≡ exit_row_is cell rows.now }
{
    let mut rest = rows;
    while let [row, more @ ..] = rest {
        if is_exit_row(cell, row) {
            return Some(row);
        }
        rest = more;
    }
    None
}

/// A system with the exits of cells replaced, one after the other; None where the rows do not say what one becomes.
#[tactic(auto, using(crate::proofs::PutSteps::putting))]
fn put_exits(
    alloc: Global,
    cells: &[u32],
    rows: &[Row],
    s: System,
) -> Result<Option<System>, Memory>
    requires each { AllRows IsReady rows.now }
    requires rows { AllRows IsReady s.rows }
    ensures defined { IfOk result (λ o. o ≡ put_exits_is cells.now rows.now s) }
    ensures ready { IfOk result (λ o. IfSome o (λ t. AllRows IsReady t.rows)) }
{
    let mut left = s;
    let mut rest = cells;
    while let [cell, more @ ..] = rest {
        match exit_row(*cell, rows) {
            None => return Ok(None),
            Some(by) => left = put_row(alloc, Var::Exit(*cell), by, left)?,
        }
        rest = more;
    }
    Ok(Some(left))
}

/// The system for some numbers of these cells afterwards that the transformer leads to.
fn composed_with(
    alloc: Global,
    cells: &[u32],
    t: &Transformer,
    s: &System,
) -> Result<System, Memory>
    requires transformer { Fits t.now.system }
    requires fits { Fits s.now }
    ensures defined { IfOk result (λ r. r ≡ led_to_is cells.now t.now s.now) }
    ensures fits { IfOk result Fits }
{
    let names = to_exits(alloc, cells)?;
    let after = rename_all(alloc, s, names.as_slice())?;
    let both = meet(alloc, &after, &t.system)?;
    let vars = exit_vars(alloc, t.cells.as_slice())?;
    Ok(project_owned(alloc, both, &vars)?.system)
}

/// Where these are the changed cells that the system names.
#[tactic(auto, using(crate::proofs::Steps::ready_rows))]
fn through_transformer(
    alloc: Global,
    cells: &[u32],
    t: &Transformer,
    s: &System,
) -> Result<Shadow, Memory>
    requires transformer { Fits t.now.system }
    requires fits { Fits s.now }
    ensures defined { IfOk result (λ r. r ≡ through_transformer_is cells.now t.now s.now) }
    ensures fits { IfOk result (λ r. Fits r.system) }
{
    if has_none(cells) {
        return Ok(Shadow {
            system: copy_system(s)?,
            exact: true,
        });
    }
    let names = to_exits(alloc, cells)?;
    let after = rename_all(alloc, s, names.as_slice())?;
    match put_exits(alloc, cells, t.system.rows.as_slice(), after)? {
        None => Ok(Shadow {
            system: composed_with(alloc, cells, t, s)?,
            exact: false,
        }),
        Some(put) => Ok(Shadow {
            system: tidy(alloc, &put)?,
            exact: true,
        }),
    }
}

fn compose_piece(alloc: Global, t: &Transformer, s: &System) -> Result<Shadow, Memory>
    requires transformer { Fits t.now.system }
    requires fits { Fits s.now }
    ensures defined { IfOk result (λ r. r ≡ compose_piece_is t.now s.now) }
    ensures fits { IfOk result (λ r. Fits r.system) }
{
    let cells = named_cells(alloc, t.cells.as_slice(), s)?;
    through_transformer(alloc, cells.as_slice(), t, s)
}

#[tactic(auto, using(crate::proofs::Steps::fitting))]
fn of_all(alloc: Global, r: &Region, t: &Transformer) -> Result<Region, Memory>
    requires region { RegionFits r.now }
    requires transformer { Fits t.now.system }
    ensures defined { IfOk result (λ q. q ≡ compose_is r.now t.now) }
    ensures fits { IfOk result RegionFits }
{
    let mut pieces = List::from_vec(Vec::with_capacity(alloc, r.pieces.len())?);
    let mut exact = true;
    let mut rest = r.pieces.as_slice();
    while let [piece, more @ ..] = rest {
        let one = compose_piece(alloc, t, piece)?;
        exact = exact && one.exact;
        push_system(&mut pieces, one.system)?;
        rest = more;
    }
    trimmed_to(alloc, r, r.exact && exact, pieces)
}

/// The region before what a transformer describes, from one for the values of the analysed scalars after it. Where the transformer's rows do
/// not say what each changed scalar becomes that the region names, the result has the elements for some values to which it leads, and is not
/// exact. The result is trimmed.
pub fn compose(alloc: Global, r: &Region, t: &Transformer) -> Result<Region, Memory>
    requires region { RegionFits r.now }
    requires transformer { Fits t.now.system }
    ensures defined { IfOk result (λ q. q ≡ compose_is r.now t.now) }
    ensures fits { IfOk result RegionFits }
    ensures sound { IfOk result (MovesUnits t.now r.now) }
    ensures exact { IfOk result (MovesSharp t.now r.now) }
{
    of_all(alloc, r, t)
}
