//! IN of modules, callees before callers.
ghost use Rattle.std.specs.Prelude.{◌≡◌, ◌++◌, ◌∷◌, [], ℕ, List, All, map, reverse, IfOk};
ghost use Rattle.f77_ast.specs.PlainStmt.{stmt_trees};
ghost use Rattle.f77_ast.specs.Summaries.{summary_in};
ghost use Rattle.in_out_regions.specs.region_sets.Sets.{SetFits};
ghost use Rattle.in_out_regions.specs.array_regions.Calls.{CalleesFit};
ghost use Rattle.module_phases.specs.RegionViews.{regions_tree, RegionsFit, ModuleFits as RegionsKnownFit};
ghost use Rattle.module_phases.specs.InPhases.{ins_found, with_ins, with_callee, all_ins as all_ins_is};
ghost use Rattle.module_phases.specs.InViews.{ins_tree, ModuleFits};

use crate::ModuleRegions;
use call_graph::{Graph, View};
use f77_ast::{Results, Summaries};
use fx_lists::List;
use in_out_regions::in_regions;
use in_out_regions::region_sets::{RegionSet, push_regions};
use std::alloc::{AllocError as Memory, Global};

/// The analyses of a module with its READ and WRITE regions, and its IN regions: those of its statements, and as their summary those that callers see.
#[derive(Drop)]
pub struct ModuleIns<'a> {
    pub known: ModuleRegions<'a>,
    pub ins: Results<RegionSet>,
}

/// IN of a module, with the summaries of those that it calls.
fn ins_of(
    alloc: Global,
    graph: &Graph,
    known: &ModuleRegions<'_>,
    callees: &Summaries<RegionSet>,
) -> Result<Results<RegionSet>, Memory>
    requires known { RegionsKnownFit known.now }
    requires callees { CalleesFit (summary_in callees.now) }
    ensures defined { IfOk result (λ r. r ≡ ins_found graph.now.untracked (summary_in callees.now) (regions_tree known.now)) }
    ensures fits { IfOk result RegionsFit }
{
    let found = &known.analysis.found;
    let view = View {
        module: found.module,
        symbols: found.symbols,
        graph,
    };
    in_regions(alloc, &view, &found.own, &known.regions, callees)
}

/// Adds the summary of a module.
fn add_summary(
    alloc: Global,
    known: &ModuleRegions<'_>,
    ins: &Results<RegionSet>,
    callees: &mut Summaries<RegionSet>,
) -> Result<(), Memory>
    requires callees { CalleesFit (summary_in callees.old) }
    requires ins { SetFits ins.now.summary }
    ensures added { IfOk result (λ _. (x : List ℕ) → summary_in callees.new x ≡ with_callee (record { known = regions_tree known.now; ins = ins.now }) (summary_in callees.old) x) }
    ensures fits { IfOk result (λ _. CalleesFit (summary_in callees.new)) }
{
    let mut summary = List::new(alloc);
    push_regions(alloc, &mut summary, ins.summary.as_slice())?;
    let found = &known.analysis.found;
    callees.add(&found.module.name, found.symbols, summary)
}

/// Adds a module behind others.
#[tactic(auto, using(crate::proofs::InPhaseLaws::one_more))]
fn add_module<'a>(
    alloc: Global,
    graph: &Graph,
    known: ModuleRegions<'a>,
    callees: &mut Summaries<RegionSet>,
    all: &mut Vec<ModuleIns<'a>>,
) -> Result<(), Memory>
    requires known { RegionsKnownFit known }
    requires callees { CalleesFit (summary_in callees.old) }
    requires all { All ModuleFits all.old.items }
    ensures added { IfOk result (λ _. map ins_tree all.new.items ≡ map ins_tree all.old.items ++ with_ins graph.now.untracked (summary_in callees.old) (regions_tree known.entry) ∷ []) }
    ensures callees { IfOk result (λ _. (x : List ℕ) → summary_in callees.new x ≡ with_callee (with_ins graph.now.untracked (summary_in callees.old) (regions_tree known.entry)) (summary_in callees.old) x) }
    ensures callees_fit { IfOk result (λ _. CalleesFit (summary_in callees.new)) }
    ensures fits { IfOk result (λ _. All ModuleFits all.new.items) }
{
    let ins = ins_of(alloc, graph, &known, callees)?;
    add_summary(alloc, &known, &ins, callees)?;
    all.push(ModuleIns { known, ins })?;
    Ok(())
}

/// IN of the modules of a program, from their READ and WRITE regions, in the same order: modules that are called come before those that call them. A module is
/// looked up by its name in constant time.
#[tactic(auto, using(crate::proofs::InPhaseLaws::module_steps))]
pub fn all_ins<'a>(
    alloc: Global,
    graph: &Graph,
    regions: Vec<ModuleRegions<'a>>,
) -> Result<Vec<ModuleIns<'a>>, Memory>
    requires { All RegionsKnownFit regions.items }
    ensures defined { IfOk result (λ all. map ins_tree all.items ≡ all_ins_is graph.now (map regions_tree regions.entry.items)) }
    ensures fits { IfOk result (λ all. All ModuleFits all.items) }
{
    let mut left = regions;
    left.reverse();
    let mut callees = Summaries::new(alloc);
    let mut all = Vec::new(alloc);
    while let Some(known) = left.pop() {
        add_module(alloc, graph, known, &mut callees, &mut all)?;
    }
    Ok(all)
}
