//! From the caller to the callee: what one CALL gives for the entry of what it calls.
ghost use Rattle.std.specs.Prelude.{◌≡◌, ◌+◌, ◌++◌, map, IfOk, IfSome};
ghost use Rattle.affine_systems.specs.Rows.{AllRows, renamed_row as renamed_row_is};
ghost use Rattle.affine_systems.specs.Given.{IsGiven, IsSmallRow, Fits};
ghost use Rattle.f77_ast.specs.Symbols.{symbol_tree};
ghost use Rattle.transformer_algebra.specs.Renaming.{renamed_by};
ghost use Rattle.call_translation.specs.Scopes.{scope_tree};
ghost use Rattle.call_translation.specs.Sites.{site_tree};
ghost use Rattle.call_translation.specs.SiteEntry.{dummy_form as dummy_form_is, row_of, rows_from, kept_cell as kept_cell_is, in_callee as in_callee_is, names_from, site_entry as site_entry_is};
ghost use Rattle.tracked_cells.specs.Standing.{is_int_scalar};
ghost use Rattle.affine_forms.specs.Forms.{IsSmallForm};

use crate::actual::{actual_of, form_in};
use crate::common::tracked_at;
use crate::variables::auxiliaries_in;
use crate::{CellScope, Site, next_number};
use affine_forms::{Affine, is_cell, no_rows, same_row, var_form};
use affine_systems::{Row, System, Var};
use f77_ast::{Place, Symbol};
use fx_lists::List;
use hull_projection::{add_rows, project_owned};
use std::alloc::{AllocError as Memory, Global};
use tracked_cells::is_int_scalar;
use transformer_algebra::{Naming, fresh_over, push_rows, rename_all, renamed_row};

/// The form of the actual of a dummy that is an INTEGER scalar.
fn dummy_form(alloc: Global, site: &Site<System>, symbol: &Symbol) -> Result<Option<Affine>, Memory>
    ensures defined { IfOk result (λ f. f ≡ dummy_form_is (site_tree site.now) (symbol_tree symbol.now)) }
    ensures small { IfOk result (λ f. IfSome f IsSmallForm) }
{
    if !is_int_scalar(symbol) {
        return Ok(None);
    }
    let caller = site.scope();
    match &symbol.place {
        Place::Dummy(dummy) => form_in(alloc, &caller, actual_of(&site.actuals, *dummy)),
        Place::Local(..) | Place::Block(..) | Place::Constant(_) => Ok(None),
    }
}

#[tactic(auto, using(crate::proofs::FormLaws::dummy_rows))]
/// Adds that a dummy, which `Exit` stands for here, is the form of its actual, where that has one.
fn add_dummy(
    alloc: Global,
    rows: &mut Vec<Row>,
    site: &Site<System>,
    number: u32,
    symbol: &Symbol,
) -> Result<(), Memory>
    requires { AllRows IsSmallRow rows.old.items }
    ensures added { IfOk result (λ _. rows.new.items ≡ rows.old.items ++ row_of (site_tree site.now) number (symbol_tree symbol.now)) }
    ensures small { IfOk result (λ _. AllRows IsSmallRow rows.new.items) }
{
    match dummy_form(alloc, site, symbol)? {
        None => Ok(()),
        Some(form) => {
            let exit = var_form(alloc, Var::Exit(number))?;
            rows.push(same_row(alloc, &exit, &form)?)?;
            Ok(())
        }
    }
}

/// That each dummy, which `Exit` stands for here, is the form of its actual, over the cells of the caller.
#[tactic(auto, using(crate::proofs::Steps::rows_loop))]
fn dummy_rows(
    alloc: Global,
    callee: &CellScope<'_>,
    site: &Site<System>,
) -> Result<Vec<Row>, Memory>
    ensures defined { IfOk result (λ rs. rs.items ≡ rows_from (site_tree site.now) 1 (map symbol_tree callee.now.symbols.now)) }
    ensures small { IfOk result (λ rs. AllRows IsSmallRow rs.items) }
{
    let mut rows = Vec::new(alloc);
    let mut number = 0u32;
    for symbol in callee.symbols.as_slice() {
        number = next_number(number)?;
        add_dummy(alloc, &mut rows, site, number, symbol)?;
    }
    Ok(rows)
}

/// The tracked cell of the callee for a cell of the caller: none, unless both modules track the variable of a block at that unit.
fn kept_cell(callee: &CellScope<'_>, site: &Site<System>, cell: u32) -> Result<Option<u32>, Memory>
    ensures { IfOk result (λ x. x ≡ kept_cell_is (scope_tree callee.now.symbols.now callee.now.tracked.now) (site_tree site.now) cell) }
{
    let caller = site.scope();
    if !is_cell(caller.tracked, cell) {
        return Ok(None);
    }
    match caller.symbols.symbol(cell) {
        None => Ok(None),
        Some(symbol) => match &symbol.place {
            Place::Block(block, offset) => tracked_at(callee, block, *offset),
            Place::Local(..) | Place::Dummy(_) | Place::Constant(_) => Ok(None),
        },
    }
}

/// The callee's variable for a variable of the caller, or for a dummy, which `Exit` stands for here; `aux`: the number of the fresh variable, if it
/// has none.
fn in_callee(callee: &CellScope<'_>, site: &Site<System>, aux: u32, v: Var) -> Result<Var, Memory>
    ensures { IfOk result (λ w. w ≡ in_callee_is (scope_tree callee.now.symbols.now callee.now.tracked.now) (site_tree site.now) aux v) }
{
    match v {
        Var::Cell(cell) => match kept_cell(callee, site, cell)? {
            None => Ok(Var::Aux(aux)),
            Some(found) => Ok(Var::Cell(found)),
        },
        Var::Exit(cell) => Ok(Var::Cell(cell)),
        Var::Phi(_) | Var::Aux(_) => Ok(Var::Aux(aux)),
    }
}

/// The callee's variable for each of the variables; the fresh ones are numbered from `first` on.
#[tactic(auto, using(crate::proofs::Steps::names_loop))]
fn namings(
    alloc: Global,
    callee: &CellScope<'_>,
    site: &Site<System>,
    first: u32,
    vars: &[Var],
) -> Result<Vec<Naming>, Memory>
    ensures { IfOk result (λ ns. ns.items ≡ names_from (scope_tree callee.now.symbols.now callee.now.tracked.now) (site_tree site.now) first vars.now) }
{
    let mut names = Vec::new(alloc);
    let mut aux = first;
    for v in vars {
        let to = in_callee(callee, site, aux, *v)?;
        names.push(Naming { from: *v, to })?;
        aux = next_number(aux)?;
    }
    Ok(names)
}

/// Rows with these names of their variables.
fn renamed_rows(alloc: Global, names: &[Naming], rows: &[Row]) -> Result<Vec<Row>, Memory>
    requires { AllRows IsSmallRow rows.now }
    ensures defined { IfOk result (λ rs. rs.items ≡ map (renamed_row_is (renamed_by names.now)) rows.now) }
    ensures fits { IfOk result (λ rs. AllRows IsGiven rs.items) }
{
    let mut out = Vec::new(alloc);
    for row in rows {
        out.push(renamed_row(alloc, names, row)?)?;
    }
    Ok(out)
}

/// What a CALL gives for the entry of its callee, in the callee's variables: what holds where the CALL begins, and that each INTEGER scalar
/// dummy equals the affine expression of its actual, where that has one. All is projected away but these dummies and the scalars that both
/// modules analyse at one unit of a common block. Each variable is looked up among all, and among the callee's symbols.
pub fn site_entry(
    alloc: Global,
    callee: &CellScope<'_>,
    site: &Site<System>,
) -> Result<System, Memory>
    requires { Fits site.now.value }
    ensures defined { IfOk result (λ s. s ≡ site_entry_is (scope_tree callee.now.symbols.now callee.now.tracked.now) (site_tree site.now)) }
    ensures fits { IfOk result Fits }
{
    let rows = dummy_rows(alloc, callee, site)?;
    let mut vars = Vec::new(alloc);
    add_rows(&mut vars, site.value.rows.as_slice())?;
    add_rows(&mut vars, rows.as_slice())?;
    let first = fresh_over(&site.value, &no_rows(alloc), vars.len())?;
    let names = namings(alloc, callee, site, first, vars.as_slice())?;
    let named = rename_all(alloc, &site.value, names.as_slice())?;
    let dummies = renamed_rows(alloc, names.as_slice(), rows.as_slice())?;
    let known = push_rows(alloc, &named, dummies)?;
    let left = auxiliaries_in(alloc, names.as_slice())?;
    Ok(project_owned(alloc, known, &left)?.system)
}
