//! From the callee to the caller: the transformer of a CALL, which is the summary of what is called in the terms of the caller.
ghost use Rattle.std.specs.Prelude.{◌≡◌, ◌+◌, ◌<◌, ◌^◌, ◌++◌, [], length, IfOk, OnOk, IfSome, option_copied, option_map};
ghost use Rattle.affine_systems.specs.Rows.{AllRows};
ghost use Rattle.affine_systems.specs.Given.{IsGiven, Fits};
ghost use Rattle.f77_ast.specs.Plain.{expr_trees};
ghost use Rattle.f77_ast.specs.Summaries.{summary_tree};
ghost use Rattle.transformer_algebra.specs.Cells.{joined_cells as joined_cells_is};
ghost use Rattle.transformer_algebra.specs.Units.{joined_units as joined_units_is};
ghost use Rattle.call_translation.specs.Scopes.{scope_tree};
ghost use Rattle.call_translation.specs.Call.{names_from, maybe_row, rows_from, call_tree};
ghost use Rattle.call_translation.specs.Summary.{SummaryFits, summary_vars as summary_vars_is, call_system as call_system_is, unit_cells as unit_cells_is, cells_of as cells_of_is, if_hidden, hidden_units as hidden_units_is, unit_of, units_of as units_of_is, summary_in_caller as summary_in_caller_is, call_transformer as call_transformer_is};

use crate::call::CallContext;
use crate::common::{copy_unit, declares, tracked_at};
use crate::variables::auxiliaries_in;
use crate::{CellScope, push_cell};
use affine_forms::no_rows;
use affine_systems::{Row, System, Var};
use f77_ast::{Expr, Place, Summary, Unit};
use fx_lists::List;
use hull_projection::{add_rows, add_var, project_owned};
use std::alloc::{AllocError as Memory, Global};
use transformer_algebra::{
    Naming, Transformer, fresh_over, identity_transformer, joined_cells, joined_units, push_rows,
    rename_all,
};

/// The variables of a summary and the exits of what it changes, in order. Each is looked up among those before it.
fn summary_vars(alloc: Global, t: &Transformer) -> Result<Vec<Var>, Memory>
    ensures { IfOk result (λ vs. vs.items ≡ summary_vars_is t.now) }
{
    let mut vars = Vec::new(alloc);
    let mut rest = t.cells.as_slice();
    while let [cell, more @ ..] = rest {
        add_var(&mut vars, Var::Exit(*cell))?;
        rest = more;
    }
    add_rows(&mut vars, t.system.rows.as_slice())?;
    Ok(vars)
}

/// The caller's variable for each of the callee's variables; the fresh ones are numbered from `first` on.
#[tactic(auto, using(crate::proofs::Steps::lists))]
fn namings(
    alloc: Global,
    call: &CallContext<'_>,
    first: u32,
    vars: &[Var],
) -> Result<Vec<Naming>, Memory>
    requires { first + length vars.now < 2 ^ 32 }
    ensures { IfOk result (λ ns. ns.items ≡ names_from (call_tree call.now) first [] vars.now) }
{
    let mut names = Vec::new(alloc);
    let mut passed_by_reference = Vec::new(alloc);
    let mut number = first;
    let mut rest = vars;
    while let [v, more @ ..] = rest {
        let to = call.in_caller(number, passed_by_reference.as_slice(), *v)?;
        names.push(Naming { from: *v, to })?;
        push_cell(&mut passed_by_reference, call.cell_passed_by(*v))?;
        number += 1;
        rest = more;
    }
    Ok(names)
}

/// Adds a row, if there is one.
#[tactic(auto, using(crate::proofs::Steps::giving))]
fn push_row(rows: &mut Vec<Row>, row: Option<Row>) -> Result<(), Memory>
    requires rows { AllRows IsGiven rows.old.items }
    requires row { IfSome row IsGiven }
    ensures items { OnOk result (rows.new.items ≡ rows.old.items ++ maybe_row row) }
    ensures fits { OnOk result (AllRows IsGiven rows.new.items) }
{
    match row {
        None => Ok(()),
        Some(row) => {
            rows.push(row)?;
            Ok(())
        }
    }
}

/// That dummies have at first the values of their actuals; the fresh variables are numbered from `first` on.
#[tactic(auto, using(crate::proofs::Steps::lists))]
fn first_rows(
    alloc: Global,
    call: &CallContext<'_>,
    first: u32,
    vars: &[Var],
) -> Result<Vec<Row>, Memory>
    requires { first + length vars.now < 2 ^ 32 }
    ensures defined { IfOk result (λ rs. rs.items ≡ rows_from (call_tree call.now) first vars.now) }
    ensures fits { IfOk result (λ rs. AllRows IsGiven rs.items) }
{
    let mut rows = Vec::new(alloc);
    let mut number = first;
    let mut rest = vars;
    while let [v, more @ ..] = rest {
        let row = call.row(alloc, number, *v)?;
        push_row(&mut rows, row)?;
        number += 1;
        rest = more;
    }
    Ok(rows)
}

/// The system of a summary in the terms of the caller. Each variable of the summary is looked up among its variables and among the
/// symbols of the caller.
fn call_system(alloc: Global, call: &CallContext<'_>, t: &Transformer) -> Result<System, Memory>
    requires { Fits t.now.system }
    ensures defined { IfOk result (λ s. s ≡ call_system_is (call_tree call.now) t.now) }
    ensures fits { IfOk result Fits }
{
    let vars = summary_vars(alloc, t)?;
    let first = fresh_over(&t.system, &no_rows(alloc), vars.len())?;
    let names = namings(alloc, call, first, vars.as_slice())?;
    let named = rename_all(alloc, &t.system, names.as_slice())?;
    let rows = first_rows(alloc, call, first, vars.as_slice())?;
    let with_first = push_rows(alloc, &named, rows)?;
    let left = auxiliaries_in(alloc, names.as_slice())?;
    Ok(project_owned(alloc, with_first, &left)?.system)
}

/// The tracked cells of the caller at units. Each is looked up among the caller's symbols.
#[tactic(auto, using(crate::proofs::Steps::lists))]
fn unit_cells(alloc: Global, call: &CallContext<'_>, units: &[Unit]) -> Result<Vec<u32>, Memory>
    ensures { IfOk result (λ cs. cs.items ≡ unit_cells_is (call_tree call.now) units.now) }
{
    let mut cells = Vec::new(alloc);
    let mut rest = units;
    while let [unit, more @ ..] = rest {
        let found = tracked_at(call.caller, &unit.block, unit.offset)?;
        push_cell(&mut cells, found)?;
        rest = more;
    }
    Ok(cells)
}

/// The tracked cells of the caller that are cells of the callee. Each is looked up among the caller's symbols.
#[tactic(auto, using(crate::proofs::Steps::lists))]
fn cells_of(alloc: Global, call: &CallContext<'_>, changed: &[u32]) -> Result<Vec<u32>, Memory>
    ensures { IfOk result (λ cs. cs.items ≡ cells_of_is (call_tree call.now) changed.now) }
{
    let mut cells = Vec::new(alloc);
    let mut rest = changed;
    while let [cell, more @ ..] = rest {
        let found = call.cell(*cell)?;
        push_cell(&mut cells, found)?;
        rest = more;
    }
    Ok(cells)
}

/// Adds the unit at which a place of a block begins.
#[tactic(auto, using(crate::proofs::Steps::lists))]
fn push_unit(units: &mut Vec<Unit>, place: Option<&Place>) -> Result<(), Memory>
    ensures { OnOk result (units.new.items ≡ units.old.items ++ unit_of (option_copied place.entry)) }
{
    match place {
        None => Ok(()),
        Some(place) => match place {
            Place::Block(block, offset) => {
                units.push(Unit {
                    block: block.clone()?,
                    offset: *offset,
                })?;
                Ok(())
            }
            Place::Local(..) | Place::Dummy(_) | Place::Constant(_) => Ok(()),
        },
    }
}

/// The units of cells of the callee that lie in blocks.
#[tactic(auto, using(crate::proofs::Steps::lists))]
fn units_of(alloc: Global, call: &CallContext<'_>, changed: &[u32]) -> Result<Vec<Unit>, Memory>
    ensures { IfOk result (λ us. us.items ≡ units_of_is (call_tree call.now) changed.now) }
{
    let mut units = Vec::new(alloc);
    let mut rest = changed;
    while let [cell, more @ ..] = rest {
        push_unit(&mut units, call.place(*cell))?;
        rest = more;
    }
    Ok(units)
}

/// Adds a unit, if the caller has no variable there.
#[tactic(auto, using(crate::proofs::Steps::lists))]
fn push_hidden(units: &mut Vec<Unit>, call: &CallContext<'_>, unit: &Unit) -> Result<(), Memory>
    ensures { OnOk result (units.new.items ≡ units.old.items ++ if_hidden (call_tree call.now) unit.now) }
{
    if declares(call.caller, &unit.block, unit.offset) {
        return Ok(());
    }
    units.push(copy_unit(unit)?)?;
    Ok(())
}

/// Those of some units where the caller has no variable. Each is looked up among the caller's symbols.
#[tactic(auto, using(crate::proofs::Steps::lists))]
fn hidden_units(alloc: Global, call: &CallContext<'_>, units: &[Unit]) -> Result<Vec<Unit>, Memory>
    ensures { IfOk result (λ us. us.items ≡ hidden_units_is (call_tree call.now) units.now) }
{
    let mut hidden = Vec::new(alloc);
    let mut rest = units;
    while let [unit, more @ ..] = rest {
        push_hidden(&mut hidden, call, unit)?;
        rest = more;
    }
    Ok(hidden)
}

/// The cells of the caller that change: those at units that the callee cannot name, and those that are its cells.
fn changed_cells(
    alloc: Global,
    call: &CallContext<'_>,
    t: &Transformer,
) -> Result<List<u32>, Memory>
    ensures { IfOk result (λ cs. cs ≡ joined_cells_is (unit_cells_is (call_tree call.now) t.now.foreign) (cells_of_is (call_tree call.now) t.now.cells)) }
{
    let deep = unit_cells(alloc, call, t.foreign.as_slice())?;
    let own = cells_of(alloc, call, t.cells.as_slice())?;
    joined_cells(alloc, deep.as_slice(), own.as_slice())
}

/// The units of blocks that change, where the caller has no variable.
fn foreign_units(
    alloc: Global,
    call: &CallContext<'_>,
    t: &Transformer,
) -> Result<List<Unit>, Memory>
    ensures { IfOk result (λ us. us ≡ joined_units_is (hidden_units_is (call_tree call.now) t.now.foreign) (hidden_units_is (call_tree call.now) (units_of_is (call_tree call.now) t.now.cells))) }
{
    let deep = hidden_units(alloc, call, t.foreign.as_slice())?;
    let units = units_of(alloc, call, t.cells.as_slice())?;
    let own = hidden_units(alloc, call, units.as_slice())?;
    joined_units(alloc, deep.as_slice(), own.as_slice())
}

fn summary_in_caller(
    alloc: Global,
    call: &CallContext<'_>,
    t: &Transformer,
) -> Result<Transformer, Memory>
    requires { Fits t.now.system }
    ensures defined { IfOk result (λ r. r ≡ summary_in_caller_is (call_tree call.now) t.now) }
    ensures fits { IfOk result (λ r. Fits r.system) }
{
    Ok(Transformer {
        cells: changed_cells(alloc, call, t)?,
        foreign: foreign_units(alloc, call, t)?,
        system: call_system(alloc, call, t)?,
    })
}

/// The transformer of a CALL in the caller's variables, from the callee's summary: a dummy begins as the affine expression of its actual, its
/// exit is that of the analysed scalar that the actual names, variables of common blocks are the caller's at the same units, others are
/// projected away. Changed units where the caller has no variable stay in `foreign`. Without a summary the identity: the CALL is left out.
pub fn call_transformer(
    alloc: Global,
    caller: &CellScope<'_>,
    summary: Option<&Summary<Transformer>>,
    actuals: &List<Expr>,
) -> Result<Transformer, Memory>
    requires { SummaryFits (option_map summary_tree (option_copied summary)) }
    ensures defined { IfOk result (λ t. t ≡ call_transformer_is (scope_tree caller.now.symbols.now caller.now.tracked.now) (option_map summary_tree (option_copied summary.entry)) (expr_trees actuals.now)) }
    ensures fits { IfOk result (λ t. Fits t.system) }
{
    match summary {
        None => Ok(identity_transformer(alloc)),
        Some(summary) => {
            let call = CallContext {
                caller,
                actuals,
                symbols: &summary.symbols,
            };
            summary_in_caller(alloc, &call, &summary.value)
        }
    }
}
