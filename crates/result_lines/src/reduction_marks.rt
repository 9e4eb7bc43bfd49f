//! The lines on the loops of a module, some of which have reduction variables.
ghost use Rattle.std.specs.Prelude.{◌≡◌, ◌++◌, map, IfOk, OnOk, option_copied};
ghost use Rattle.f77_ast.specs.Index.{names_of as names_of_is};
ghost use Rattle.f77_ast.specs.PlainDecl.{module_tree};
ghost use Rattle.privatizer.specs.Functions.{module_functions as module_functions_is};
ghost use Rattle.result_lines.specs.ScalarLines.{before};
ghost use Rattle.result_lines.specs.ReductionLines.{directive_at, by_reduction, loop_lines_at, loop_lines as loop_lines_is};

use crate::directive::{directive_lines, reduction_text};
use crate::loop_marks::{put_lines, put_mark};
use crate::reduction::Reduction;
use crate::shown::numbers_without;
use call_graph::View;
use f77_ast::{At, Mark, StmtId, names_of};
use f77_printer::Added;
use fx_lists::{List, Text};
use privatizer::module_functions;
use std::alloc::{AllocError as Memory, Global};
use transformers::value_at;

/// The directive of a loop with reduction variables; the private symbols that are functions are not named.
fn put_directive(
    alloc: Global,
    names: &[Text],
    functions: &List<Text>,
    at: StmtId,
    reduction: &Reduction,
    out: &mut List<Added>,
) -> Result<(), Memory>
    ensures { OnOk result (out.new ≡ out.old ++ directive_at functions.now names.now at reduction.now) }
{
    let shown = numbers_without(alloc, functions, names, reduction.private.as_slice())?;
    let text = reduction_text(alloc, names, shown.as_slice(), reduction.parts.as_slice())?;
    let lines = directive_lines(alloc, text.as_slice())?;
    put_lines(at, lines.as_slice(), out)
}

/// The lines of a loop with this mark: its directive with REDUCTION clauses, where it has such.
fn put_loop(
    alloc: Global,
    names: &[Text],
    functions: &List<Text>,
    why: bool,
    reduced: &List<At<Reduction>>,
    mark: &At<Mark>,
    out: &mut List<Added>,
) -> Result<(), Memory>
    ensures { OnOk result (out.new ≡ out.old ++ loop_lines_at functions.now names.now why reduced.now mark.now) }
{
    match value_at(reduced, mark.id) {
        None => put_mark(alloc, names, functions, why, mark, out),
        Some(reduction) => put_directive(alloc, names, functions, mark.id, reduction, out),
    }
}

#[tactic(auto, using(crate::proofs::Steps::lines))]
fn put_loops(
    alloc: Global,
    names: &[Text],
    functions: &List<Text>,
    why: bool,
    reduced: &List<At<Reduction>>,
    marks: &[At<Mark>],
    out: &mut List<Added>,
) -> Result<(), Memory>
    ensures { OnOk result (out.new ≡ out.old ++ loop_lines_is functions.now names.now why reduced.now marks.now) }
{
    for mark in marks {
        put_loop(alloc, names, functions, why, reduced, mark, out)?;
    }
    Ok(())
}

/// As `mark_lines`, but that the loops with these numbers have directives with REDUCTION clauses, whatever their marks are.
pub fn loop_lines(
    alloc: Global,
    view: &View<'_>,
    marks: &List<At<Mark>>,
    reduced: &List<At<Reduction>>,
    why: bool,
) -> Result<List<Added>, Memory>
    ensures { IfOk result (λ lines. lines ≡ loop_lines_is (module_functions_is (module_tree view.now.«module».now)) (names_of_is view.now.symbols.now) why reduced.now marks.now) }
{
    let names = names_of(alloc, view.symbols)?;
    let functions = module_functions(alloc, view.module)?;
    let mut out = List::new(alloc);
    put_loops(
        alloc,
        names.as_slice(),
        &functions,
        why,
        reduced,
        marks.as_slice(),
        &mut out,
    )?;
    Ok(out)
}
