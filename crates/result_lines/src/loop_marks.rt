//! The lines on the loops of a module.
ghost use Rattle.std.specs.Prelude.{◌≡◌, ◌++◌, map, IfOk, OnOk};
ghost use Rattle.f77_ast.specs.Index.{names_of as names_of_is};
ghost use Rattle.f77_ast.specs.PlainDecl.{module_tree};
ghost use Rattle.result_lines.specs.ScalarLines.{before};
ghost use Rattle.result_lines.specs.MarkText.{directive_text as directive_text_is, directive_lines as directive_lines_is};
ghost use Rattle.result_lines.specs.MarkLines.{lines_at, mark_lines_of};
ghost use Rattle.result_lines.specs.ShownMarks.{numbers_without as numbers_without_is, mark_without, marks_without, shown_marks};

use crate::directive::{directive_lines, directive_text};
use crate::obstacle::obstacle_line;
use crate::shown::numbers_without;
use call_graph::View;
use f77_ast::{At, Mark, StmtId, names_of};
use f77_printer::Added;
use fx_lists::{List, Text};
use privatizer::module_functions;
use std::alloc::{AllocError as Memory, Global};

/// Appends lines before a statement.
#[tactic(auto, using(crate::proofs::Steps::lines))]
pub fn put_lines(at: StmtId, lines: &[Text], out: &mut List<Added>) -> Result<(), Memory>
    ensures { OnOk result (out.new ≡ out.old ++ map (before at) lines.now) }
{
    for line in lines {
        let line = line.clone()?;
        out.push(Added { before: at, line })?;
    }
    Ok(())
}

/// The directive of a parallel loop; the symbols with these numbers are private, and those that are functions are not named.
fn put_directive(
    alloc: Global,
    names: &[Text],
    functions: &List<Text>,
    at: StmtId,
    numbers: &[u32],
    out: &mut List<Added>,
) -> Result<(), Memory>
    ensures { OnOk result (out.new ≡ out.old ++ map (before at) (directive_lines_is (directive_text_is names.now (numbers_without_is functions.now names.now numbers.now)))) }
{
    let shown = numbers_without(alloc, functions, names, numbers)?;
    let text = directive_text(alloc, names, shown.as_slice())?;
    let lines = directive_lines(alloc, text.as_slice())?;
    put_lines(at, lines.as_slice(), out)
}

/// The lines of a mark; `why`: obstacles are asked for.
pub fn put_mark(
    alloc: Global,
    names: &[Text],
    functions: &List<Text>,
    why: bool,
    mark: &At<Mark>,
    out: &mut List<Added>,
) -> Result<(), Memory>
    ensures { OnOk result (out.new ≡ out.old ++ lines_at names.now why mark.now.id (mark_without functions.now names.now mark.now.value)) }
{
    match &mark.value {
        Mark::Parallel(numbers) => {
            put_directive(alloc, names, functions, mark.id, numbers.as_slice(), out)
        }
        Mark::Serial(reason) => {
            if why {
                let line = obstacle_line(alloc, names, reason)?;
                out.push(Added {
                    before: mark.id,
                    line,
                })?;
            }
            Ok(())
        }
    }
}

#[tactic(auto, using(crate::proofs::Steps::lines))]
fn put_marks(
    alloc: Global,
    names: &[Text],
    functions: &List<Text>,
    why: bool,
    marks: &[At<Mark>],
    out: &mut List<Added>,
) -> Result<(), Memory>
    ensures { OnOk result (out.new ≡ out.old ++ mark_lines_of names.now why (marks_without functions.now names.now marks.now)) }
{
    for mark in marks {
        put_mark(alloc, names, functions, why, mark, out)?;
    }
    Ok(())
}

/// The lines before the DO statements of a module, in the order of the marks: the directive of each parallel one, and where `why` says so the obstacle of each other one. A directive
/// names no function of which the module takes a value.
pub fn mark_lines(
    alloc: Global,
    view: &View<'_>,
    marks: &List<At<Mark>>,
    why: bool,
) -> Result<List<Added>, Memory>
    ensures { IfOk result (λ lines. lines ≡ mark_lines_of (names_of_is view.now.symbols.now) why (shown_marks (module_tree view.now.«module».now) (names_of_is view.now.symbols.now) marks.now)) }
{
    let names = names_of(alloc, view.symbols)?;
    let functions = module_functions(alloc, view.module)?;
    let mut out = List::new(alloc);
    put_marks(
        alloc,
        names.as_slice(),
        &functions,
        why,
        marks.as_slice(),
        &mut out,
    )?;
    Ok(out)
}
