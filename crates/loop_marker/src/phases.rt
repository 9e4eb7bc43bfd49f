//! The results of modules: after the phases before, effects and marks, callees before callers.
ghost use Rattle.std.specs.Prelude.{◌≡◌, ◌++◌, ◌∷◌, [], ℕ, List, All, map, reverse, IfOk};
ghost use Rattle.f77_ast.specs.Summaries.{summary_in};
ghost use Rattle.module_phases.specs.OutViews.{outs_tree, ModuleFits};
ghost use Rattle.loop_marker.specs.Phases.{known_in, with_callee, effects_found, marks_found, module_results, with_marks, all_marks as all_marks_is};
ghost use Rattle.loop_marker.specs.Views.{results_tree, ResultsFit};

use crate::marks;
use affine_systems::System;
use call_graph::{Graph, View};
use dependence_test::Analysis;
use effects::cumulated_effects;
use f77_ast::{At, EffectSet, Mark, Module, Results, Summaries, Symbols, copy_effect};
use fx_lists::List;
use module_phases::{Analysis as Scalars, Found, ModuleIns, ModuleOuts, ModuleRegions};
use region_sets::RegionSet;
use std::alloc::{AllocError as Memory, Global};
use transformers::transformer_algebra::Transformer;

/// A module with its symbols and its results: those of its statements, and as their summaries what callers see or, of preconditions, what holds at its
/// entry. `regions` are READ and WRITE.
#[derive(Drop)]
pub struct ModuleResults<'a> {
    pub module: &'a Module,
    pub symbols: &'a Symbols,
    pub effects: Results<EffectSet>,
    pub transformers: Results<Transformer>,
    pub preconditions: Results<System>,
    pub regions: Results<RegionSet>,
    pub ins: Results<RegionSet>,
    pub outs: Results<RegionSet>,
    pub marks: List<At<Mark>>,
}

/// The results of the phases before, with these effects and marks.
fn results_of<'a>(
    found: ModuleOuts<'a>,
    effects: Results<EffectSet>,
    marks: List<At<Mark>>,
) -> ModuleResults<'a>
    ensures { results_tree result ≡ module_results (outs_tree found.entry) effects marks }
{
    let ModuleOuts { known, outs } = found;
    let ModuleIns { known, ins } = known;
    let ModuleRegions { analysis, regions } = known;
    let Scalars { found, holds } = analysis;
    let Found {
        module,
        symbols,
        own,
    } = found;
    ModuleResults {
        module,
        symbols,
        effects,
        transformers: own,
        preconditions: holds,
        regions,
        ins,
        outs,
        marks,
    }
}

/// The marks of the loops of a module.
fn marks_with<'x>(
    alloc: Global,
    graph: &'x Graph,
    outs: &'x ModuleOuts<'x>,
    effects: &'x Results<EffectSet>,
) -> Result<List<At<Mark>>, Memory>
    requires { ModuleFits outs.now }
    ensures { IfOk result (λ ms. ms ≡ marks_found graph.now.untracked (outs_tree outs.now) effects.now) }
{
    let regions = &outs.known.known;
    let found = &regions.analysis.found;
    let view = View {
        module: found.module,
        symbols: found.symbols,
        graph,
    };
    let known = Analysis {
        view: &view,
        effects,
        transformers: &found.own,
        preconditions: &regions.analysis.holds,
        regions: &regions.regions,
        ins: &outs.known.ins,
        outs: &outs.outs,
    };
    marks(alloc, &known)
}

/// The effects of a module, with the summaries of those that it calls.
fn effects_of(
    alloc: Global,
    graph: &Graph,
    outs: &ModuleOuts<'_>,
    callees: &Summaries<EffectSet>,
) -> Result<Results<EffectSet>, Memory>
    ensures { IfOk result (λ e. e ≡ effects_found (summary_in callees.now) (known_in (outs_tree outs.now))) }
{
    let found = &outs.known.known.analysis.found;
    let view = View {
        module: found.module,
        symbols: found.symbols,
        graph,
    };
    cumulated_effects(alloc, &view, callees)
}

/// Adds what callers see of the effects of a module.
fn add_summary(
    alloc: Global,
    outs: &ModuleOuts<'_>,
    effects: &Results<EffectSet>,
    callees: &mut Summaries<EffectSet>,
) -> Result<(), Memory>
    ensures { IfOk result (λ _. (x : List ℕ) → summary_in callees.new x ≡ with_callee (module_results (outs_tree outs.now) effects.now []) (summary_in callees.old) x) }
{
    let summary = copy_effect(alloc, &effects.summary)?;
    let found = &outs.known.known.analysis.found;
    callees.add(&found.module.name, found.symbols, summary)
}

/// Adds a module behind others.
#[tactic(auto, using(crate::proofs::PhaseLaws::one_more))]
fn add_module<'a>(
    alloc: Global,
    graph: &Graph,
    outs: ModuleOuts<'a>,
    callees: &mut Summaries<EffectSet>,
    all: &mut Vec<ModuleResults<'a>>,
) -> Result<(), Memory>
    requires outs { ModuleFits outs }
    requires all { All ResultsFit all.old.items }
    ensures added { IfOk result (λ _. map results_tree all.new.items ≡ map results_tree all.old.items ++ with_marks graph.now.untracked (summary_in callees.old) (outs_tree outs.entry) ∷ []) }
    ensures callees { IfOk result (λ _. (x : List ℕ) → summary_in callees.new x ≡ with_callee (with_marks graph.now.untracked (summary_in callees.old) (outs_tree outs.entry)) (summary_in callees.old) x) }
    ensures fits { IfOk result (λ _. All ResultsFit all.new.items) }
{
    let effects = effects_of(alloc, graph, &outs, callees)?;
    let marks = marks_with(alloc, graph, &outs, &effects)?;
    add_summary(alloc, &outs, &effects, callees)?;
    all.push(results_of(outs, effects, marks))?;
    Ok(())
}

/// The results of the modules of a program, from their OUT regions, in which callers come before the modules that they call; the result has the opposite
/// order. A module is looked up by its name in constant time.
#[tactic(auto, using(crate::proofs::PhaseLaws::module_steps))]
pub fn all_marks<'a>(
    alloc: Global,
    graph: &Graph,
    mut left: Vec<ModuleOuts<'a>>,
) -> Result<Vec<ModuleResults<'a>>, Memory>
    requires { All ModuleFits left.items }
    ensures defined { IfOk result (λ all. map results_tree all.items ≡ all_marks_is graph.now (map outs_tree left.entry.items)) }
    ensures fits { IfOk result (λ all. All ResultsFit all.items) }
{
    let mut callees = Summaries::new(alloc);
    let mut all = Vec::new(alloc);
    while let Some(outs) = left.pop() {
        add_module(alloc, graph, outs, &mut callees, &mut all)?;
    }
    Ok(all)
}
