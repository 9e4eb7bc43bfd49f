//! OUT of modules, callers before callees.
ghost use Rattle.std.specs.Prelude.{◌≡◌, ◌++◌, ◌∷◌, [], ℕ, List, All, map, reverse, IfOk};
ghost use Rattle.preconditions.specs.call_translation.Sites.{sites_in};
ghost use Rattle.module_phases.specs.ScalarViews.{known as known_is};
ghost use Rattle.module_phases.specs.RegionViews.{RegionsFit};
ghost use Rattle.in_out_regions.specs.region_sets.Sets.{SetFits};
ghost use Rattle.module_phases.specs.InViews.{ins_tree, ModuleFits as InsFit};
ghost use Rattle.module_phases.specs.OutPhases.{used_after as used_after_is, outs_found, with_these, with_outs, list_sites, caller_of, body_of, name_of, outs_from, all_outs as all_outs_is};
ghost use Rattle.module_phases.specs.OutViews.{outs_tree, ModuleFits, AllSitesFit, SitesFit};
ghost use Rattle.preconditions.specs.call_translation.NamedSites.{sites_for};

use crate::ModuleIns;
use crate::handing::used_at;
use crate::out_site::OutSite;
use crate::out_walk::{OutCaller, add_list};
use call_graph::{Graph, View};
use f77_ast::Results;
use fx_lists::List;
use in_out_regions::call_equations::changed_cells;
use in_out_regions::call_translation::{CallSites, NamedSites, caller_scope};
use in_out_regions::region_sets::RegionSet;
use out_regions::out_regions;
use std::alloc::{AllocError as Memory, Global};

/// A module with its IN regions, and its OUT regions: those of its statements, and as their summary those that callers see.
#[derive(Drop)]
pub struct ModuleOuts<'a> {
    pub known: ModuleIns<'a>,
    pub outs: Results<RegionSet>,
}

/// What may be read after a module, from these CALLs.
fn used_with(
    alloc: Global,
    view: &View<'_>,
    calls: &CallSites<OutSite>,
) -> Result<RegionSet, Memory>
    requires { AllSitesFit (sites_in calls.now) }
    ensures defined { IfOk result (λ rs. rs ≡ used_after_is view.now.graph.now (known_is view.now.«module».now view.now.symbols.now) (sites_in calls.now)) }
    ensures fits { IfOk result SetFits }
{
    if view.module.main {
        return Ok(List::new(alloc));
    }
    used_at(alloc, view.graph, &view.module.name, view.symbols, calls)
}

/// What may be read after a module, from the CALLs of it.
fn used_after(
    alloc: Global,
    view: &View<'_>,
    sites: &NamedSites<OutSite>,
) -> Result<RegionSet, Memory>
    requires { SitesFit sites.now }
    ensures defined { IfOk result (λ rs. rs ≡ used_after_is view.now.graph.now (known_is view.now.«module».now view.now.symbols.now) (sites_for sites.now (known_is view.now.«module».now view.now.symbols.now).read.name)) }
    ensures fits { IfOk result SetFits }
{
    match sites.of(&view.module.name) {
        None => used_with(alloc, view, &CallSites::new(alloc)),
        Some(calls) => used_with(alloc, view, calls),
    }
}

/// OUT of a module, from the CALLs of it in those before it.
fn outs_of(
    alloc: Global,
    graph: &Graph,
    known: &ModuleIns<'_>,
    sites: &NamedSites<OutSite>,
) -> Result<Results<RegionSet>, Memory>
    requires known { InsFit known.now }
    requires sites { SitesFit sites.now }
    ensures defined { IfOk result (λ r. r ≡ outs_found graph.now (sites_for sites.now (name_of (ins_tree known.now))) (ins_tree known.now)) }
    ensures fits { IfOk result RegionsFit }
{
    let found = &known.known.analysis.found;
    let view = View {
        module: found.module,
        symbols: found.symbols,
        graph,
    };
    let later = used_after(alloc, &view, sites)?;
    let regions = &known.known.regions;
    out_regions(
        alloc,
        &view,
        &found.own,
        regions,
        &known.ins,
        later.as_slice(),
    )
}

/// Adds the CALLs of a module that was looked at.
fn add_sites(
    alloc: Global,
    graph: &Graph,
    known: &ModuleIns<'_>,
    outs: &Results<RegionSet>,
    sites: &mut NamedSites<OutSite>,
) -> Result<(), Memory>
    requires known { InsFit known.now }
    requires outs { RegionsFit outs.now }
    requires sites { SitesFit sites.old }
    ensures added { IfOk result (λ _. let f = with_these (ins_tree known.now) outs.now in (x : List ℕ) → sites_for sites.new x ≡ sites_for sites.old x ++ list_sites (body_of f) (caller_of graph.now.untracked f) x) }
    ensures fits { IfOk result (λ _. SitesFit sites.new) }
{
    let found = &known.known.analysis.found;
    let view = View {
        module: found.module,
        symbols: found.symbols,
        graph,
    };
    let scope = caller_scope(alloc, &view)?;
    let changed = changed_cells(alloc, &found.own)?;
    let caller = OutCaller {
        scope: &scope,
        changed: &changed,
        outs: &outs.at,
    };
    add_list(alloc, &caller, &found.module.body, sites)
}

/// Adds a module after its callers, and its CALLs to theirs.
#[tactic(auto, using(crate::proofs::OutPhaseLaws::one_more))]
fn add_module<'a>(
    alloc: Global,
    graph: &Graph,
    known: ModuleIns<'a>,
    sites: &mut NamedSites<OutSite>,
    all: &mut Vec<ModuleOuts<'a>>,
) -> Result<(), Memory>
    requires known { InsFit known }
    requires sites { SitesFit sites.old }
    requires all { All ModuleFits all.old.items }
    ensures added { IfOk result (λ _. map outs_tree all.new.items ≡ map outs_tree all.old.items ++ with_outs graph.now (sites_for sites.old (name_of (ins_tree known.entry))) (ins_tree known.entry) ∷ []) }
    ensures sites { IfOk result (λ _. let f = with_outs graph.now (sites_for sites.old (name_of (ins_tree known.entry))) (ins_tree known.entry) in (x : List ℕ) → sites_for sites.new x ≡ sites_for sites.old x ++ list_sites (body_of f) (caller_of graph.now.untracked f) x) }
    ensures sites_fit { IfOk result (λ _. SitesFit sites.new) }
    ensures fits { IfOk result (λ _. All ModuleFits all.new.items) }
{
    let outs = outs_of(alloc, graph, &known, sites)?;
    add_sites(alloc, graph, &known, &outs, sites)?;
    all.push(ModuleOuts { known, outs })?;
    Ok(())
}

/// OUT of the modules of a program, from their IN regions: callers come before the modules that they call, the other way round than in `left`. CALLs are
/// found by the name of what they call in constant time.
#[tactic(auto, using(crate::proofs::OutPhaseLaws::module_steps))]
pub fn all_outs<'a>(
    alloc: Global,
    graph: &Graph,
    mut left: Vec<ModuleIns<'a>>,
) -> Result<Vec<ModuleOuts<'a>>, Memory>
    requires { All InsFit left.items }
    ensures defined { IfOk result (λ all. map outs_tree all.items ≡ all_outs_is graph.now (map ins_tree left.entry.items)) }
    ensures fits { IfOk result (λ all. All ModuleFits all.items) }
{
    let mut sites = NamedSites::new(alloc);
    let mut all = Vec::new(alloc);
    while let Some(known) = left.pop() {
        add_module(alloc, graph, known, &mut sites, &mut all)?;
    }
    Ok(all)
}
