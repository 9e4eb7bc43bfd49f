//! What CALLs hand down to the module that they call.
ghost use Rattle.std.specs.Prelude.{◌≡◌, ◌++◌, map, IfOk, OnOk};
ghost use Rattle.f77_ast.specs.Symbols.{symbol_tree};
ghost use Rattle.preconditions.specs.call_translation.Scopes.{scope_tree};
ghost use Rattle.preconditions.specs.call_translation.Sites.{site_tree, sites_in};
ghost use Rattle.in_out_regions.specs.region_sets.Sets.{SetFits};
ghost use Rattle.in_out_regions.specs.call_equations.Sides.{sides_tree};
ghost use Rattle.in_out_regions.specs.region_translation.Units.{size_in};
ghost use Rattle.module_phases.specs.OutPhases.{handed_each, handed_by, handed_down, used_at as used_at_is};
ghost use Rattle.module_phases.specs.OutViews.{AllSitesFit};

use crate::out_site::OutSite;
use call_graph::Graph;
use f77_ast::Symbols;
use fx_lists::{List, Text};
use in_out_regions::call_equations::{CallSides, entry_cells};
use in_out_regions::call_translation::{CallSites, CellScope, Site};
use in_out_regions::region_sets::{Region, RegionSet};
use in_out_regions::region_translation::to_callee;
use out_regions::push_out;
use std::alloc::{AllocError as Memory, Global};

/// Adds regions of the caller, as what the callee's callers may read after it.
#[tactic(auto, using(crate::proofs::Fitting::fitting))]
fn push_each(
    alloc: Global,
    later: &mut RegionSet,
    graph: &Graph,
    sides: &CallSides<'_>,
    set: &[Region],
) -> Result<(), Memory>
    requires later { SetFits later.old }
    requires set { SetFits set.now }
    ensures added { OnOk result (later.new ≡ later.old ++ handed_each (size_in graph.now.blocks) (sides_tree sides.now) set.now) }
    ensures fits { OnOk result (SetFits later.new) }
{
    let mut rest = set;
    while let [r, more @ ..] = rest {
        let own = to_callee(alloc, graph, sides, r)?;
        push_out(alloc, later, own.as_slice())?;
        rest = more;
    }
    Ok(())
}

/// Adds what a CALL hands down to its callee.
fn push_site(
    alloc: Global,
    later: &mut RegionSet,
    graph: &Graph,
    name: &Text,
    callee: &CellScope<'_>,
    site: &Site<OutSite>,
) -> Result<(), Memory>
    requires later { SetFits later.old }
    requires site { SetFits site.now.value.out }
    ensures added { OnOk result (later.new ≡ later.old ++ handed_by (size_in graph.now.blocks) (scope_tree callee.now.symbols.now callee.now.tracked.now) name.now (site_tree site.now)) }
    ensures fits { OnOk result (SetFits later.new) }
{
    let caller = site.scope();
    let sides = CallSides {
        caller: &caller,
        changed: &site.value.changed,
        name,
        actuals: &site.actuals,
        callee,
    };
    push_each(alloc, later, graph, &sides, site.value.out.as_slice())
}

/// What CALLs hand down to the module with this name and scope.
#[tactic(auto, using(crate::proofs::HandingLaws::site_steps))]
fn all_handed(
    alloc: Global,
    graph: &Graph,
    name: &Text,
    callee: &CellScope<'_>,
    sites: &[Site<OutSite>],
) -> Result<RegionSet, Memory>
    requires { AllSitesFit (map site_tree sites.now) }
    ensures defined { IfOk result (λ rs. rs ≡ handed_down (size_in graph.now.blocks) (scope_tree callee.now.symbols.now callee.now.tracked.now) name.now (map site_tree sites.now)) }
    ensures fits { IfOk result SetFits }
{
    let mut later = List::new(alloc);
    let mut rest = sites;
    while let [site, more @ ..] = rest {
        push_site(alloc, &mut later, graph, name, callee, site)?;
        rest = more;
    }
    Ok(later)
}

/// What may be read after a module, from OUT of its CALLs, one after another.
pub fn used_at(
    alloc: Global,
    graph: &Graph,
    name: &Text,
    symbols: &Symbols,
    calls: &CallSites<OutSite>,
) -> Result<RegionSet, Memory>
    requires { AllSitesFit (sites_in calls.now) }
    ensures defined { IfOk result (λ rs. rs ≡ used_at_is graph.now name.now (map symbol_tree symbols.now) (sites_in calls.now)) }
    ensures fits { IfOk result SetFits }
{
    let flags = entry_cells(alloc, symbols, &graph.untracked)?;
    let callee = CellScope {
        symbols,
        tracked: &flags,
    };
    all_handed(alloc, graph, name, &callee, calls.as_slice())
}
