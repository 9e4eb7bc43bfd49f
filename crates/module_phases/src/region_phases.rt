//! READ and WRITE of modules, callees before callers.
ghost use Rattle.std.specs.Prelude.{◌≡◌, ◌++◌, ◌∷◌, [], ℕ, List, All, map, reverse, IfOk};
ghost use Rattle.f77_ast.specs.PlainStmt.{stmt_trees};
ghost use Rattle.f77_ast.specs.Summaries.{summary_in};
ghost use Rattle.preconditions.specs.transformers.Given.{ResultsFit};
ghost use Rattle.in_out_regions.specs.region_sets.Sets.{SetFits};
ghost use Rattle.in_out_regions.specs.array_regions.Calls.{CalleesFit};
ghost use Rattle.module_phases.specs.ScalarViews.{analysis_tree, AnalysisFits};
ghost use Rattle.module_phases.specs.RegionPhases.{regions_found, with_regions, with_callee, all_regions as all_regions_is};
ghost use Rattle.module_phases.specs.RegionViews.{regions_tree, RegionsFit, ModuleFits};

use crate::Analysis;
use call_graph::{Graph, View};
use f77_ast::{Results, Summaries};
use fx_lists::List;
use in_out_regions::array_regions::regions;
use in_out_regions::region_sets::{RegionSet, push_regions};
use std::alloc::{AllocError as Memory, Global};

/// The analyses of a module, with its READ and WRITE regions: those of its statements, and as their summary those that callers see.
#[derive(Drop)]
pub struct ModuleRegions<'a> {
    pub analysis: Analysis<'a>,
    pub regions: Results<RegionSet>,
}

/// READ and WRITE of a module, with the summaries of those that it calls.
fn regions_of(
    alloc: Global,
    graph: &Graph,
    analysis: &Analysis<'_>,
    callees: &Summaries<RegionSet>,
) -> Result<Results<RegionSet>, Memory>
    requires analysis { AnalysisFits analysis.now }
    requires callees { CalleesFit (summary_in callees.now) }
    ensures defined { IfOk result (λ r. r ≡ regions_found graph.now.untracked (summary_in callees.now) (analysis_tree analysis.now)) }
    ensures fits { IfOk result RegionsFit }
{
    let view = View {
        module: analysis.found.module,
        symbols: analysis.found.symbols,
        graph,
    };
    regions(alloc, &view, &analysis.found.own, callees)
}

/// A set as it is.
fn copy_set(alloc: Global, set: &RegionSet) -> Result<RegionSet, Memory>
    requires { SetFits set.now }
    ensures { IfOk result (λ rs. rs ≡ set.now) }
{
    let mut copy = List::new(alloc);
    push_regions(alloc, &mut copy, set.as_slice())?;
    Ok(copy)
}

/// Adds the summary of a module.
fn add_summary(
    alloc: Global,
    analysis: &Analysis<'_>,
    found: &Results<RegionSet>,
    callees: &mut Summaries<RegionSet>,
) -> Result<(), Memory>
    requires callees { CalleesFit (summary_in callees.old) }
    requires found { SetFits found.now.summary }
    ensures added { IfOk result (λ _. (x : List ℕ) → summary_in callees.new x ≡ with_callee (record { analysis = analysis_tree analysis.now; regions = found.now }) (summary_in callees.old) x) }
    ensures fits { IfOk result (λ _. CalleesFit (summary_in callees.new)) }
{
    let summary = copy_set(alloc, &found.summary)?;
    callees.add(&analysis.found.module.name, analysis.found.symbols, summary)
}

/// Adds a module behind others.
#[tactic(auto, using(crate::proofs::RegionPhaseLaws::one_more))]
fn add_module<'a>(
    alloc: Global,
    graph: &Graph,
    analysis: Analysis<'a>,
    callees: &mut Summaries<RegionSet>,
    all: &mut Vec<ModuleRegions<'a>>,
) -> Result<(), Memory>
    requires analysis { AnalysisFits analysis }
    requires callees { CalleesFit (summary_in callees.old) }
    requires all { All ModuleFits all.old.items }
    ensures added { IfOk result (λ _. map regions_tree all.new.items ≡ map regions_tree all.old.items ++ with_regions graph.now.untracked (summary_in callees.old) (analysis_tree analysis.entry) ∷ []) }
    ensures callees { IfOk result (λ _. (x : List ℕ) → summary_in callees.new x ≡ with_callee (with_regions graph.now.untracked (summary_in callees.old) (analysis_tree analysis.entry)) (summary_in callees.old) x) }
    ensures callees_fit { IfOk result (λ _. CalleesFit (summary_in callees.new)) }
    ensures fits { IfOk result (λ _. All ModuleFits all.new.items) }
{
    let found = regions_of(alloc, graph, &analysis, callees)?;
    add_summary(alloc, &analysis, &found, callees)?;
    all.push(ModuleRegions {
        analysis,
        regions: found,
    })?;
    Ok(())
}

/// READ and WRITE of the modules of a program, from their analyses, in which callers come before the modules that they call; the result has
/// these in the opposite order. A module is looked up by its name in constant time.
#[tactic(auto, using(crate::proofs::RegionPhaseLaws::module_steps))]
pub fn all_regions<'a>(
    alloc: Global,
    graph: &Graph,
    mut left: Vec<Analysis<'a>>,
) -> Result<Vec<ModuleRegions<'a>>, Memory>
    requires { All AnalysisFits left.items }
    ensures defined { IfOk result (λ all. map regions_tree all.items ≡ all_regions_is graph.now (map analysis_tree left.entry.items)) }
    ensures fits { IfOk result (λ all. All ModuleFits all.items) }
{
    let mut callees = Summaries::new(alloc);
    let mut all = Vec::new(alloc);
    while let Some(analysis) = left.pop() {
        add_module(alloc, graph, analysis, &mut callees, &mut all)?;
    }
    Ok(all)
}
