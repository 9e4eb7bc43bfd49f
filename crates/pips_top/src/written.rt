//! The written text of a program.
ghost use Rattle.std.specs.Prelude.{◌≡◌, All, IfOk, length, map};
ghost use Rattle.f77_ast.specs.PlainDecl.{parsed_tree};
ghost use Rattle.pipsmake_base.specs.loop_marker.Views.{results_tree, ResultsFit};
ghost use Rattle.laws_programs.specs.roundtrip_programs.Texts.Texts.{modules_text, text_of};
ghost use Rattle.laws_programs.specs.roundtrip_programs.Written.Laws.{by_tree};
ghost use Rattle.pips_top.specs.Shown.{lines_found};
ghost use Rattle.pips_top.specs.Program.{program_tree};
ghost use Rattle.pips_top.specs.Written.{written};

use crate::program::Program;
use crate::results::{lines_for, results_of_program};
use crate::wanted::Wanted;
use call_graph::Graph;
use f77_ast::Parsed;
use f77_printer::plain;
use fx_lists::Text;
use pipsmake_base::loop_marker::ModuleResults;
use std::alloc::{AllocError as Memory, Global};

/// A module, with the lines that are added to it.
fn text_of(
    alloc: Global,
    graph: &Graph,
    wanted: Wanted,
    all: &[ModuleResults<'_>],
    parsed: &Parsed,
) -> Result<Text, Memory>
    requires { All ResultsFit all.now }
    ensures { IfOk result (λ text. text ≡ text_of (by_tree (lines_found wanted graph.now (map results_tree all.now))) (parsed_tree parsed.now)) }
{
    let added = lines_for(alloc, graph, wanted, all, &parsed.module.name)?;
    plain(alloc, &parsed.places, &parsed.module, &added)
}

/// Modules one after another.
#[tactic(auto, using(crate::proofs::Joining::module_steps))]
fn modules_text(
    alloc: Global,
    graph: &Graph,
    wanted: Wanted,
    all: &[ModuleResults<'_>],
    modules: &[Parsed],
) -> Result<Text, Memory>
    requires { All ResultsFit all.now }
    ensures { IfOk result (λ text. text ≡ modules_text (by_tree (lines_found wanted graph.now (map results_tree all.now))) (map parsed_tree modules.now)) }
{
    let mut out = Text::new(alloc);
    for parsed in modules {
        let text = text_of(alloc, graph, wanted, all, parsed)?;
        out.append(text.as_slice())?;
    }
    Ok(out)
}

/// The text of a program, module by module in their order, with the lines that are wanted. Linear in the text, beside the analyses.
pub fn write_program(alloc: Global, wanted: Wanted, program: &Program) -> Result<Text, Memory>
    requires one_each { length program.now.modules ≡ length program.now.tables }
    ensures { IfOk result (λ text. text ≡ written wanted (program_tree program.now)) }
{
    let all = results_of_program(alloc, program)?;
    modules_text(
        alloc,
        &program.graph,
        wanted,
        all.as_slice(),
        program.modules.as_slice(),
    )
}
