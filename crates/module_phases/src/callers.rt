//! What a module sees of the modules that call it: their CALLs of it.
ghost use Rattle.std.specs.Prelude.{◌≡◌, ◌++◌, ℕ, List, map, IfOk};
ghost use Rattle.preconditions.specs.Statement.{EachFits};
ghost use Rattle.in_out_regions.specs.region_sets.Lists.{SetsFit};
ghost use Rattle.module_phases.specs.ScalarPhases.{list_sites};
ghost use Rattle.module_phases.specs.ScalarViews.{SitesFit};
ghost use Rattle.module_phases.specs.OutPhases.{list_sites as list_out_sites};
ghost use Rattle.module_phases.specs.OutViews.{SitesFit as OutSitesFit};
ghost use Rattle.module_phases.specs.Callers.{holds_tree, outs_tree, holds_caller, outs_caller, sites_of, out_sites_of, AllHold, AllOuts};
ghost use Rattle.preconditions.specs.call_translation.NamedSites.{sites_for};

use crate::{Caller, OutCaller, OutSite, add_list as add_calls, add_out_list as add_out_calls};
use affine_systems::System;
use call_graph::{Graph, View};
use f77_ast::{At, Module, Results, Symbols};
use fx_lists::List;
use in_out_regions::call_equations::changed_cells;
use in_out_regions::call_translation::{NamedSites, caller_scope};
use in_out_regions::region_sets::RegionSet;
use preconditions::transformer_algebra::Transformer;
use std::alloc::{AllocError as Memory, Global};

/// A calling module, with what holds where its statements begin.
#[derive(Drop)]
pub struct CallerHolds<'a> {
    pub module: &'a Module,
    pub symbols: &'a Symbols,
    pub holds: &'a List<At<System>>,
}

/// A calling module, with the transformers and the OUT regions of its statements.
#[derive(Drop)]
pub struct CallerOuts<'a> {
    pub module: &'a Module,
    pub symbols: &'a Symbols,
    pub own: &'a Results<Transformer>,
    pub outs: &'a List<At<RegionSet>>,
}

/// Adds the CALLs of a module.
fn add_holds(
    alloc: Global,
    graph: &Graph,
    caller: &CallerHolds<'_>,
    sites: &mut NamedSites<System>,
) -> Result<(), Memory>
    requires holds { EachFits caller.now.holds.now }
    requires sites { SitesFit sites.old }
    ensures added { IfOk result (λ _. let c = holds_tree caller.now in (x : List ℕ) → sites_for sites.new x ≡ sites_for sites.old x ++ list_sites c.known.read.body (holds_caller graph.now.untracked c) x) }
    ensures fits { IfOk result (λ _. SitesFit sites.new) }
{
    let view = View {
        module: caller.module,
        symbols: caller.symbols,
        graph,
    };
    let scope = caller_scope(alloc, &view)?;
    let known = Caller {
        scope: &scope,
        holds: caller.holds,
    };
    add_calls(&known, &caller.module.body, sites)
}

/// The CALLs of modules by what they call, in the order of the modules and in that of their texts.
pub fn sites_of(
    alloc: Global,
    graph: &Graph,
    callers: &[CallerHolds<'_>],
) -> Result<NamedSites<System>, Memory>
    requires { AllHold callers.now }
    ensures added { IfOk result (λ s. (x : List ℕ) → sites_for s x ≡ sites_of graph.now.untracked (map holds_tree callers.now) x) }
    ensures fits { IfOk result SitesFit }
{
    let mut sites = NamedSites::new(alloc);
    let mut rest = callers;
    while let [caller, more @ ..] = rest {
        add_holds(alloc, graph, caller, &mut sites)?;
        rest = more;
    }
    Ok(sites)
}

/// Adds the CALLs of a module.
fn add_outs(
    alloc: Global,
    graph: &Graph,
    caller: &CallerOuts<'_>,
    sites: &mut NamedSites<OutSite>,
) -> Result<(), Memory>
    requires outs { SetsFit caller.now.outs.now }
    requires sites { OutSitesFit sites.old }
    ensures added { IfOk result (λ _. let c = outs_tree caller.now in (x : List ℕ) → sites_for sites.new x ≡ sites_for sites.old x ++ list_out_sites c.known.read.body (outs_caller graph.now.untracked c) x) }
    ensures fits { IfOk result (λ _. OutSitesFit sites.new) }
{
    let view = View {
        module: caller.module,
        symbols: caller.symbols,
        graph,
    };
    let scope = caller_scope(alloc, &view)?;
    let changed = changed_cells(alloc, caller.own)?;
    let known = OutCaller {
        scope: &scope,
        changed: &changed,
        outs: caller.outs,
    };
    add_out_calls(alloc, &known, &caller.module.body, sites)
}

/// The same CALLs, with OUT at each.
pub fn out_sites_of(
    alloc: Global,
    graph: &Graph,
    callers: &[CallerOuts<'_>],
) -> Result<NamedSites<OutSite>, Memory>
    requires { AllOuts callers.now }
    ensures added { IfOk result (λ s. (x : List ℕ) → sites_for s x ≡ out_sites_of graph.now.untracked (map outs_tree callers.now) x) }
    ensures fits { IfOk result OutSitesFit }
{
    let mut sites = NamedSites::new(alloc);
    let mut rest = callers;
    while let [caller, more @ ..] = rest {
        add_outs(alloc, graph, caller, &mut sites)?;
        rest = more;
    }
    Ok(sites)
}
