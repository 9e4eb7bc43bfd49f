//! Results that rest on those of the modules that a module calls.
ghost use Rattle.std.specs.Prelude.{◌≡◌, map, IfOk};
ghost use Rattle.f77_meaning.specs.Modules.{Known};
ghost use Rattle.module_phases.specs.RegionViews.{RegionsFit};
ghost use Rattle.in_out_regions.specs.region_sets.Lists.{SetsFit};
ghost use Rattle.module_phases.specs.ScalarViews.{known_in, OwnFits};
ghost use Rattle.preconditions.specs.transformers.Given.{ResultsFit};
ghost use Rattle.module_phases.specs.Callees.{callee_tree, callees_of, AllFit, AllSetsFit};
ghost use Rattle.module_phases.specs.Rules.{effects_from, transformers_from, regions_from, ins_from};

use crate::callees::{Callee, effects_of, regions_of, transformers_of};
use call_graph::View;
use f77_ast::{EffectSet, Results};
use fx_lists::List;
use in_out_regions::array_regions::regions;
use in_out_regions::effects::cumulated_effects;
use in_out_regions::in_regions;
use in_out_regions::region_sets::RegionSet;
use preconditions::transformer_algebra::Transformer;
use preconditions::transformers::transformers;
use std::alloc::{AllocError as Memory, Global};

/// The effects of the statements of a module, from those of the modules that it calls.
#[tactic(auto, using(crate::proofs::Steps::same_callees))]
pub fn effects_from(
    alloc: Global,
    view: &View<'_>,
    callees: &[Callee<'_, EffectSet>],
) -> Result<Results<EffectSet>, Memory>
    ensures { IfOk result (λ r. r ≡ effects_from (known_in view.now) (map callee_tree callees.now)) }
{
    let summaries = effects_of(alloc, callees)?;
    cumulated_effects(alloc, view, &summaries)
}

fn no_effects(alloc: Global) -> Results<EffectSet> {
    Results {
        at: List::new(alloc),
        summary: EffectSet::none(alloc),
    }
}

/// The transformers of the statements of a module, from those of the modules that it calls.
#[tactic(auto, using(crate::proofs::Steps::same_callees))]
pub fn transformers_from(
    alloc: Global,
    view: &View<'_>,
    callees: &[Callee<'_, Transformer>],
) -> Result<Results<Transformer>, Memory>
    requires { AllFit callees.now }
    ensures defined { IfOk result (λ r. r ≡ transformers_from view.now.graph.now.untracked (known_in view.now) (map callee_tree callees.now)) }
    ensures fits { IfOk result OwnFits }
{
    let summaries = transformers_of(alloc, callees)?;
    transformers(alloc, view, &no_effects(alloc), &summaries)
}

/// The READ and WRITE regions of a module, from its transformers and from the regions of the modules that it calls.
#[tactic(auto, using(crate::proofs::Steps::same_callees))]
pub fn regions_from(
    alloc: Global,
    view: &View<'_>,
    own: &Results<Transformer>,
    callees: &[Callee<'_, RegionSet>],
) -> Result<Results<RegionSet>, Memory>
    requires own { ResultsFit own.now.at }
    requires callees { AllSetsFit callees.now }
    ensures defined { IfOk result (λ r. r ≡ regions_from view.now.graph.now.untracked (known_in view.now) own.now (map callee_tree callees.now)) }
    ensures fits { IfOk result RegionsFit }
{
    let summaries = regions_of(alloc, callees)?;
    regions(alloc, view, own, &summaries)
}

/// The IN regions of a module, from its transformers, its READ and WRITE regions, and the IN regions of the modules that it calls.
#[tactic(auto, using(crate::proofs::Steps::same_callees))]
pub fn ins_from(
    alloc: Global,
    view: &View<'_>,
    own: &Results<Transformer>,
    found: &Results<RegionSet>,
    callees: &[Callee<'_, RegionSet>],
) -> Result<Results<RegionSet>, Memory>
    requires own { ResultsFit own.now.at }
    requires found { SetsFit found.now.at }
    requires callees { AllSetsFit callees.now }
    ensures defined { IfOk result (λ r. r ≡ ins_from view.now.graph.now.untracked (known_in view.now) own.now found.now (map callee_tree callees.now)) }
    ensures fits { IfOk result RegionsFit }
{
    let summaries = regions_of(alloc, callees)?;
    in_regions(alloc, view, own, found, &summaries)
}
