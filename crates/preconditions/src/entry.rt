//! What holds where a module is entered.
ghost use Rattle.std.specs.Prelude.{◌≡◌, ◌+◌, ◌++◌, map, IfOk};
ghost use Rattle.affine_systems.specs.Rows.{AllRows};
ghost use Rattle.affine_systems.specs.Given.{IsGiven, Fits};
ghost use Rattle.f77_ast.specs.Symbols.{symbol_tree};
ghost use Rattle.transformers.specs.call_translation.Scopes.{scope_tree, scope_of};
ghost use Rattle.transformers.specs.call_translation.Sites.{site_tree, sites_in, AllSitesFit};
ghost use Rattle.preconditions.specs.Statement.{hull_from};
ghost use Rattle.preconditions.specs.Entry.{entries_of, initial_row, main_entry as main_entry_is, sites_entry as sites_entry_is, entry_of};

use affine_forms::{infeasible, is_cell};
use affine_systems::{Row, System, Term, Var};
use call_graph::View;
use f77_ast::Symbol;
use fx_lists::List;
use hull_projection::hull;
use std::alloc::{AllocError as Memory, Global};
use transformers::call_translation::{
    CallSites, CellScope, Site, next_number, site_entry, tracked_of,
};
use transformers::transformer_algebra::of_rows;

/// Adds that the symbol of a number, if it is tracked, begins with its value from DATA, where it has one.
fn add_initial(
    alloc: Global,
    rows: &mut Vec<Row>,
    number: u32,
    tracked: bool,
    symbol: &Symbol,
) -> Result<(), Memory>
    requires { AllRows IsGiven rows.old.items }
    ensures added { IfOk result (λ _. rows.new.items ≡ rows.old.items ++ initial_row number tracked (symbol_tree symbol.now)) }
    ensures fits { IfOk result (λ _. AllRows IsGiven rows.new.items) }
{
    if !tracked {
        return Ok(());
    }
    match symbol.initial.as_slice() {
        [] => Ok(()),
        [run, ..] => {
            let term = Term {
                var: Var::Cell(number),
                factor: 1,
            };
            rows.push(Row {
                equal: true,
                terms: List::from_slice(alloc, &[term])?,
                bound: i128::from(run.value),
            })?;
            Ok(())
        }
    }
}

#[tactic(auto, using(crate::proofs::Steps::initial_loop))]
/// Of a main program: its tracked cells begin with their values from DATA.
fn main_entry(alloc: Global, scope: &CellScope<'_>) -> Result<System, Memory>
    ensures defined { IfOk result (λ s. s ≡ main_entry_is (scope_tree scope.now.symbols.now scope.now.tracked.now)) }
    ensures fits { IfOk result Fits }
{
    let mut rows = Vec::new(alloc);
    let mut number = 0u32;
    for symbol in scope.symbols.as_slice() {
        number = next_number(number)?;
        let tracked = is_cell(scope.tracked, number);
        add_initial(alloc, &mut rows, number, tracked, symbol)?;
    }
    of_rows(alloc, rows)
}

/// The hulls of what holds at an entry and of what more CALLs give, from left to right.
#[tactic(auto, using(crate::proofs::Steps::entries_loop))]
fn hull_with_sites(
    alloc: Global,
    scope: &CellScope<'_>,
    first: System,
    more: &[Site<System>],
) -> Result<System, Memory>
    requires first { Fits first }
    requires more { AllSitesFit (map site_tree more.now) }
    ensures defined { IfOk result (λ s. s ≡ hull_from first (entries_of (scope_tree scope.now.symbols.now scope.now.tracked.now) more.now)) }
    ensures fits { IfOk result Fits }
{
    let mut all = first;
    for site in more {
        let next = site_entry(alloc, scope, site)?;
        all = hull(alloc, &all, &next)?;
    }
    Ok(all)
}

/// Of a subroutine: the hulls of what its CALLs give, from left to right; without CALLs, what never holds.
#[tactic(auto, using(crate::proofs::Steps::sites_split))]
fn sites_entry(
    alloc: Global,
    scope: &CellScope<'_>,
    sites: &[Site<System>],
) -> Result<System, Memory>
    requires { AllSitesFit (map site_tree sites.now) }
    ensures defined { IfOk result (λ s. s ≡ sites_entry_is (scope_tree scope.now.symbols.now scope.now.tracked.now) (map site_tree sites.now)) }
    ensures fits { IfOk result Fits }
{
    match sites {
        [] => infeasible(alloc),
        [first, more @ ..] => {
            let entry = site_entry(alloc, scope, first)?;
            hull_with_sites(alloc, scope, entry, more)
        }
    }
}

/// What holds of the analysed scalars where a module is entered. Of a main program: those with a value from DATA have it (ANSI X3.9-1978,
/// §9). Of a subroutine: the hull, from left to right, of what each CALL that names it gives; the infeasible system where there is none. Err
/// also where the module has 2^32 symbols or more.
pub fn entry_from(
    alloc: Global,
    view: &View<'_>,
    calls: &CallSites<System>,
) -> Result<System, Memory>
    requires { AllSitesFit (sites_in calls.now) }
    ensures defined { IfOk result (λ s. s ≡ entry_of view.now.«module».now.main (scope_of view.now.«module».now view.now.symbols.now view.now.graph.now.untracked) (sites_in calls.now)) }
    ensures fits { IfOk result Fits }
{
    let tracked = tracked_of(alloc, view)?;
    let scope = CellScope {
        symbols: view.symbols,
        tracked: &tracked,
    };
    if view.module.main {
        main_entry(alloc, &scope)
    } else {
        sites_entry(alloc, &scope, calls.as_slice())
    }
}
