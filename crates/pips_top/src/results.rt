//! The results of the modules of a program, and the lines that say them.
ghost use Rattle.std.specs.Prelude.{◌≡◌, length, map, All, IfOk, IfSome, option_copied, option_map};
ghost use Rattle.pipsmake_base.specs.loop_marker.Views.{results_tree, ResultsFit};
ghost use Rattle.pipsmake_base.specs.result_lines.Lines.{lines_of};
ghost use Rattle.pipsmake_base.specs.pipsmake_meaning.ResultEntries.{results_for};
ghost use Rattle.pipsmake_base.specs.pipsmake_meaning.Definitions.{printed_of};
ghost use Rattle.pips_top.specs.Program.{program_tree};
ghost use Rattle.pips_top.specs.Shown.{lines_for, lines_wanted as lines_wanted_is, results_of_program};

use crate::program::Program;
use crate::reduced::lines_reduced;
use crate::wanted::{Wanted, is_alone};
use call_graph::{Graph, View};
use f77_printer::Added;
use fx_lists::{List, Text};
use pipsmake_base::loop_marker::dependence_test::Analysis;
use pipsmake_base::loop_marker::module_phases::{all_ins, all_outs, all_regions, analyses};
use pipsmake_base::loop_marker::{ModuleResults, all_marks};
use pipsmake_base::result_lines::{PrintedResults, Show, result_lines};
use std::alloc::{AllocError as Memory, Global};

/// The results of the modules of a program, callees before callers.
pub fn results_of_program<'a>(
    alloc: Global,
    program: &'a Program,
) -> Result<Vec<ModuleResults<'a>>, Memory>
    requires one_each { length program.now.modules ≡ length program.now.tables }
    ensures defined { IfOk result (λ all. map results_tree all.items ≡ results_of_program (program_tree program.now)) }
    ensures fits { IfOk result (λ all. All ResultsFit all.items) }
{
    let found = analyses(alloc, &program.modules, &program.tables, &program.graph)?;
    let regions = all_regions(alloc, &program.graph, found)?;
    let ins = all_ins(alloc, &program.graph, regions)?;
    let outs = all_outs(alloc, &program.graph, ins)?;
    all_marks(alloc, &program.graph, outs)
}

/// The results of the module of a name, looked for among all, of which there are at most 64.
#[tactic(auto, using(crate::proofs::Joining::result_steps))]
fn results_for<'s, 'a>(all: &'s [ModuleResults<'a>], name: &Text) -> Option<&'s ModuleResults<'a>>
    requires { All ResultsFit all.now }
    ensures defined { option_map results_tree (option_copied result) ≡ results_for (map results_tree all.now) name.now }
    ensures fits { IfSome result (λ results. ResultsFit results.now) }
{
    for results in all {
        if results.module.name == *name {
            return Some(results);
        }
    }
    None
}

/// The comment lines that `show` adds to a module. The graph is not used.
pub fn lines_on(
    alloc: Global,
    graph: &Graph,
    show: Show,
    results: &ModuleResults<'_>,
) -> Result<List<Added>, Memory>
    ensures { IfOk result (λ lines. lines ≡ lines_of show (results_tree results.now).known (printed_of (results_tree results.now))) }
{
    let view = View {
        module: results.module,
        symbols: results.symbols,
        graph,
    };
    let printed = PrintedResults {
        transformers: &results.transformers,
        preconditions: &results.preconditions,
        regions: &results.regions,
        ins: &results.ins,
        outs: &results.outs,
        marks: &results.marks,
    };
    result_lines(alloc, &view, &printed, show)
}

/// The comment lines that are wanted beside a module.
fn lines_wanted(
    alloc: Global,
    graph: &Graph,
    wanted: Wanted,
    results: &ModuleResults<'_>,
) -> Result<List<Added>, Memory>
    requires { ResultsFit results.now }
    ensures { IfOk result (λ lines. lines ≡ lines_wanted_is wanted graph.now (results_tree results.now)) }
{
    if is_alone(wanted) {
        return lines_on(alloc, graph, wanted.show, results);
    }
    let view = View {
        module: results.module,
        symbols: results.symbols,
        graph,
    };
    let analysis = Analysis {
        view: &view,
        effects: &results.effects,
        transformers: &results.transformers,
        preconditions: &results.preconditions,
        regions: &results.regions,
        ins: &results.ins,
        outs: &results.outs,
    };
    lines_reduced(alloc, &analysis, &results.marks, wanted)
}

/// The comment lines that are wanted beside the module with a name; none where nothing in `all` is of it.
pub fn lines_for(
    alloc: Global,
    graph: &Graph,
    wanted: Wanted,
    all: &[ModuleResults<'_>],
    name: &Text,
) -> Result<List<Added>, Memory>
    requires { All ResultsFit all.now }
    ensures { IfOk result (λ lines. lines ≡ lines_for wanted graph.now (map results_tree all.now) name.now) }
{
    match results_for(all, name) {
        None => Ok(List::new(alloc)),
        Some(results) => lines_wanted(alloc, graph, wanted, results),
    }
}
