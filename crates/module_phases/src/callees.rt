//! What a module sees of the modules that it calls.
ghost use Rattle.std.specs.Prelude.{◌≡◌, ℕ, List, map, IfOk};
ghost use Rattle.affine_systems.specs.Given.{Fits};
ghost use Rattle.f77_ast.specs.Summaries.{summary_in};
ghost use Rattle.in_out_regions.specs.region_sets.Sets.{SetFits};
ghost use Rattle.preconditions.specs.transformers.Given.{CalleesFit};
ghost use Rattle.in_out_regions.specs.array_regions.Calls.{CalleesFit as SetsFit};
ghost use Rattle.module_phases.specs.Callees.{callee_tree, with_callee, callees_of, AllFit, AllSetsFit};

use f77_ast::{EffectSet, Summaries, Symbols, copy_effect};
use fx_lists::{List, Text};
use in_out_regions::region_sets::{RegionSet, push_regions};
use preconditions::transformer_algebra::Transformer;
use preconditions::transformers::copy_transformer;
use std::alloc::{AllocError as Memory, Global};

/// A called module: its name, its symbols, and what a result says of it to its callers.
#[derive(Drop)]
pub struct Callee<'a, T> {
    pub name: &'a Text,
    pub symbols: &'a Symbols,
    pub summary: &'a T,
}

/// Adds a called module with its effects.
fn add_effects(
    alloc: Global,
    callee: &Callee<'_, EffectSet>,
    summaries: &mut Summaries<EffectSet>,
) -> Result<(), Memory>
    ensures { IfOk result (λ _. (x : List ℕ) → summary_in summaries.new x ≡ with_callee (callee_tree callee.now) (summary_in summaries.old) x) }
{
    let summary = copy_effect(alloc, callee.summary)?;
    summaries.add(callee.name, callee.symbols, summary)
}

/// The effects of called modules by their names.
pub fn effects_of(
    alloc: Global,
    callees: &[Callee<'_, EffectSet>],
) -> Result<Summaries<EffectSet>, Memory>
    ensures { IfOk result (λ s. (x : List ℕ) → summary_in s x ≡ callees_of (map callee_tree callees.now) x) }
{
    let mut summaries = Summaries::new(alloc);
    let mut rest = callees;
    while let [callee, more @ ..] = rest {
        add_effects(alloc, callee, &mut summaries)?;
        rest = more;
    }
    Ok(summaries)
}

/// Adds a called module with its transformers.
fn add_transformers(
    alloc: Global,
    callee: &Callee<'_, Transformer>,
    summaries: &mut Summaries<Transformer>,
) -> Result<(), Memory>
    requires callee { Fits callee.now.summary.now.system }
    requires summaries { CalleesFit (summary_in summaries.old) }
    ensures added { IfOk result (λ _. (x : List ℕ) → summary_in summaries.new x ≡ with_callee (callee_tree callee.now) (summary_in summaries.old) x) }
    ensures fits { IfOk result (λ _. CalleesFit (summary_in summaries.new)) }
{
    let summary = copy_transformer(alloc, callee.summary)?;
    summaries.add(callee.name, callee.symbols, summary)
}

/// The transformers of called modules by their names.
pub fn transformers_of(
    alloc: Global,
    callees: &[Callee<'_, Transformer>],
) -> Result<Summaries<Transformer>, Memory>
    requires { AllFit callees.now }
    ensures defined { IfOk result (λ s. (x : List ℕ) → summary_in s x ≡ callees_of (map callee_tree callees.now) x) }
    ensures fits { IfOk result (λ s. CalleesFit (summary_in s)) }
{
    let mut summaries = Summaries::new(alloc);
    let mut rest = callees;
    while let [callee, more @ ..] = rest {
        add_transformers(alloc, callee, &mut summaries)?;
        rest = more;
    }
    Ok(summaries)
}

/// A set of regions as it is.
fn copy_set(alloc: Global, set: &RegionSet) -> Result<RegionSet, Memory>
    requires { SetFits set.now }
    ensures { IfOk result (λ rs. rs ≡ set.now) }
{
    let mut copy = List::new(alloc);
    push_regions(alloc, &mut copy, set.as_slice())?;
    Ok(copy)
}

/// Adds a called module with its regions.
fn add_regions(
    alloc: Global,
    callee: &Callee<'_, RegionSet>,
    summaries: &mut Summaries<RegionSet>,
) -> Result<(), Memory>
    requires callee { SetFits callee.now.summary.now }
    requires summaries { SetsFit (summary_in summaries.old) }
    ensures added { IfOk result (λ _. (x : List ℕ) → summary_in summaries.new x ≡ with_callee (callee_tree callee.now) (summary_in summaries.old) x) }
    ensures fits { IfOk result (λ _. SetsFit (summary_in summaries.new)) }
{
    let summary = copy_set(alloc, callee.summary)?;
    summaries.add(callee.name, callee.symbols, summary)
}

/// The regions of called modules by their names.
pub fn regions_of(
    alloc: Global,
    callees: &[Callee<'_, RegionSet>],
) -> Result<Summaries<RegionSet>, Memory>
    requires { AllSetsFit callees.now }
    ensures defined { IfOk result (λ s. (x : List ℕ) → summary_in s x ≡ callees_of (map callee_tree callees.now) x) }
    ensures fits { IfOk result (λ s. SetsFit (summary_in s)) }
{
    let mut summaries = Summaries::new(alloc);
    let mut rest = callees;
    while let [callee, more @ ..] = rest {
        add_regions(alloc, callee, &mut summaries)?;
        rest = more;
    }
    Ok(summaries)
}
