//! The lines of a module.
ghost use Rattle.std.specs.Prelude.{◌≡◌, ◌++◌, map, IfOk};
ghost use Rattle.f77_ast.specs.PlainStmt.{stmt_trees};
ghost use Rattle.f77_ast.specs.Index.{names_of};
ghost use Rattle.result_lines.specs.ScalarLines.{entry_lines, scalar_lines_of};

use crate::statement::{Said, put_changes, put_list};
use affine_systems::System;
use call_graph::View;
use f77_ast::{Results, names_of};
use f77_printer::Added;
use fx_lists::{List, Text};
use std::alloc::{AllocError as Memory, Global};
use system_text::precondition_line;
use transformers::transformer_algebra::Transformer;

/// The lines on the entry of a subroutine.
fn put_entry(
    alloc: Global,
    names: &[Text],
    main: bool,
    entry: &System,
    whole: &Transformer,
    out: &mut List<Added>,
) -> Result<(), Memory>
    ensures { IfOk result (λ _. out.new ≡ out.old ++ entry_lines main names.now entry.now whole.now) }
{
    if main {
        return Ok(());
    }
    let line = precondition_line(alloc, names, entry)?;
    out.push(Added { before: 0, line })?;
    put_changes(alloc, names, 0, whole, out)
}

/// The comment lines that are added to a module, in the order of the text: of a subroutine or function what holds where it is entered and what
/// its CALLs may change; of each statement what holds where it begins and, of a DO, a DO WHILE, a CALL or an assignment of the value of a
/// function, what it may change. No line of changes where no analysed scalar may change; none for a statement without a result, for that of a
/// logical IF, or for a hidden one.
pub fn scalar_lines(
    alloc: Global,
    view: &View<'_>,
    own: &Results<Transformer>,
    pre: &Results<System>,
) -> Result<List<Added>, Memory>
    ensures { IfOk result (λ lines. lines ≡ scalar_lines_of view.now.«module».now.main (stmt_trees view.now.«module».now.body) (names_of view.now.symbols.now) own.now pre.now) }
{
    let names = names_of(alloc, view.symbols)?;
    let said = Said {
        names: names.as_slice(),
        own: &own.at,
        pre: &pre.at,
    };
    let mut out = List::new(alloc);
    put_entry(
        alloc,
        names.as_slice(),
        view.module.main,
        &pre.summary,
        &own.summary,
        &mut out,
    )?;
    put_list(alloc, &said, &view.module.body, &mut out)?;
    Ok(out)
}
