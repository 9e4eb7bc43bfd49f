//! Results that rest on those of the modules that call a module.
ghost use Rattle.std.specs.Prelude.{◌≡◌, map, IfOk};
ghost use Rattle.affine_systems.specs.Given.{Fits};
ghost use Rattle.preconditions.specs.call_translation.Sites.{sites_in, AllSitesFit};
ghost use Rattle.module_phases.specs.OutViews.{AllSitesFit as AllOutSitesFit, SitesFit as OutSitesFit};
ghost use Rattle.module_phases.specs.OutPhases.{used_after as used_after_is};
ghost use Rattle.preconditions.specs.Statement.{EachFits};
ghost use Rattle.module_phases.specs.RegionViews.{RegionsFit};
ghost use Rattle.in_out_regions.specs.region_sets.Lists.{SetsFit};
ghost use Rattle.in_out_regions.specs.region_sets.Sets.{SetFits};
ghost use Rattle.module_phases.specs.ScalarPhases.{scope_of};
ghost use Rattle.module_phases.specs.ScalarViews.{known_in, SitesFit};
ghost use Rattle.preconditions.specs.Entry.{entry_of as entry_of_is};
ghost use Rattle.preconditions.specs.transformers.Given.{ResultsFit};
ghost use Rattle.module_phases.specs.Callers.{holds_tree, outs_tree, AllHold, AllOuts};
ghost use Rattle.module_phases.specs.Rules.{preconditions_from, outs_from};
ghost use Rattle.preconditions.specs.call_translation.NamedSites.{sites_for};

use crate::callers::{CallerHolds, CallerOuts, out_sites_of, sites_of};
use crate::{OutSite, used_at};
use affine_systems::System;
use call_graph::View;
use f77_ast::Results;
use fx_lists::List;
use in_out_regions::call_translation::{CallSites, NamedSites};
use in_out_regions::region_sets::RegionSet;
use out_regions::out_regions;
use preconditions::transformer_algebra::Transformer;
use preconditions::{entry_from, preconditions};
use std::alloc::{AllocError as Memory, Global};

/// What holds where a module is entered, from these CALLs.
#[tactic(auto, using(crate::proofs::Steps::scopes))]
fn entry_with(alloc: Global, view: &View<'_>, calls: &CallSites<System>) -> Result<System, Memory>
    requires { AllSitesFit (sites_in calls.now) }
    ensures defined { IfOk result (λ s. s ≡ entry_of_is (known_in view.now).read.main (scope_of view.now.graph.now.untracked (known_in view.now)) (sites_in calls.now)) }
    ensures fits { IfOk result Fits }
{
    entry_from(alloc, view, calls)
}

/// What holds where a module is entered, from the CALLs of it among these.
fn entry_of(alloc: Global, view: &View<'_>, sites: &NamedSites<System>) -> Result<System, Memory>
    requires { SitesFit sites.now }
    ensures defined { IfOk result (λ s. s ≡ entry_of_is (known_in view.now).read.main (scope_of view.now.graph.now.untracked (known_in view.now)) (sites_for sites.now (known_in view.now).read.name)) }
    ensures fits { IfOk result Fits }
{
    match sites.of(&view.module.name) {
        None => entry_with(alloc, view, &CallSites::new(alloc)),
        Some(calls) => entry_with(alloc, view, calls),
    }
}

/// What holds where the statements of a module begin, from its transformers and from what holds in the modules that call it.
#[tactic(auto, using(crate::proofs::Steps::scopes))]
pub fn preconditions_from(
    alloc: Global,
    view: &View<'_>,
    own: &Results<Transformer>,
    callers: &[CallerHolds<'_>],
) -> Result<Results<System>, Memory>
    requires own { ResultsFit own.now.at }
    requires callers { AllHold callers.now }
    ensures defined { IfOk result (λ r. r ≡ preconditions_from view.now.graph.now.untracked (known_in view.now) own.now (map holds_tree callers.now)) }
    ensures fits { IfOk result (λ r. EachFits r.at) }
{
    let sites = sites_of(alloc, view.graph, callers)?;
    let entry = entry_of(alloc, view, &sites)?;
    preconditions(alloc, view, own, &entry)
}

/// What may be read after a module, from these CALLs.
fn used_with(
    alloc: Global,
    view: &View<'_>,
    calls: &CallSites<OutSite>,
) -> Result<RegionSet, Memory>
    requires { AllOutSitesFit (sites_in calls.now) }
    ensures defined { IfOk result (λ rs. rs ≡ used_after_is view.now.graph.now (known_in view.now) (sites_in calls.now)) }
    ensures fits { IfOk result SetFits }
{
    if view.module.main {
        return Ok(List::new(alloc));
    }
    used_at(alloc, view.graph, &view.module.name, view.symbols, calls)
}

/// What may be read after a module, from the CALLs of it among these.
fn used_after(
    alloc: Global,
    view: &View<'_>,
    sites: &NamedSites<OutSite>,
) -> Result<RegionSet, Memory>
    requires { OutSitesFit sites.now }
    ensures defined { IfOk result (λ rs. rs ≡ used_after_is view.now.graph.now (known_in view.now) (sites_for sites.now (known_in view.now).read.name)) }
    ensures fits { IfOk result SetFits }
{
    match sites.of(&view.module.name) {
        None => used_with(alloc, view, &CallSites::new(alloc)),
        Some(calls) => used_with(alloc, view, calls),
    }
}

/// The OUT regions of a module, from its transformers, its READ, WRITE and IN regions, and the OUT regions of the modules that call it.
#[tactic(auto, using(crate::proofs::Steps::scopes))]
pub fn outs_from(
    alloc: Global,
    view: &View<'_>,
    own: &Results<Transformer>,
    found: &Results<RegionSet>,
    ins: &Results<RegionSet>,
    callers: &[CallerOuts<'_>],
) -> Result<Results<RegionSet>, Memory>
    requires own { ResultsFit own.now.at }
    requires found { SetsFit found.now.at }
    requires ins { SetsFit ins.now.at }
    requires callers { AllOuts callers.now }
    ensures defined { IfOk result (λ r. r ≡ outs_from view.now.graph.now (known_in view.now) own.now found.now ins.now (map outs_tree callers.now)) }
    ensures fits { IfOk result RegionsFit }
{
    let sites = out_sites_of(alloc, view.graph, callers)?;
    let later = used_after(alloc, view, &sites)?;
    out_regions(alloc, view, own, found, ins, later.as_slice())
}
