//! Whole modules.
ghost use Rattle.std.specs.Prelude.{◌≡◌, ◌++◌, OnOk, IfOk, codes, map};
ghost use Rattle.f77_ast.specs.PlainStmt.{stmt_trees};
ghost use Rattle.f77_ast.specs.PlainDecl.{decl_tree, module_tree};
ghost use Rattle.f77_printer.specs.Here.{here_part};
ghost use Rattle.f77_printer.specs.Lines.{lines_of};
ghost use Rattle.f77_printer.specs.Pages.{page_tree};
ghost use Rattle.f77_printer.specs.DeclText.{joined_by};
ghost use Rattle.f77_printer.specs.ModuleText.{has_title, dummies_text, titled_dummies, function_word, head_word, head_dummies, title_text, with_title, with_decl, with_decls, with_end, with_module, first_in, first_below, first_part, module_text};

use crate::added::{Added, Lines, lines_by_part};
use crate::blocks::{put_start, put_statements, put_words};
use crate::decl::{Written, write_decl, write_joined, write_row};
use crate::here::Here;
use crate::page::{Page, put_line, write_whole};
use f77_ast::{Decl, FunctionForm, Module, Part, Places, Stmt};
use fx_lists::{List, Text};
use std::alloc::{AllocError as Memory, Global};

impl Written for Text {
    ghost text = { λ t. t };

    fn write(&self, _alloc: Global, out: &mut Text) -> Result<(), Memory> {
        out.append(self.as_slice())
    }
}

#[tactic(auto, using(crate::proofs::ModuleLemmas::dummy_steps))]
fn write_dummies(alloc: Global, out: &mut Text, dummies: &List<Text>) -> Result<(), Memory>
    ensures { OnOk result (out.new ≡ out.old ++ dummies_text dummies.now) }
{
    if dummies.is_empty() {
        return Ok(());
    }
    out.append(b"(")?;
    write_joined(alloc, out, dummies)?;
    out.append(b")")
}

fn function_word(form: FunctionForm) -> &'static [u8]
    ensures { result.now ≡ function_word form }
{
    match form {
        FunctionForm::Plain => b"FUNCTION ",
        FunctionForm::Integer => b"INTEGER FUNCTION ",
        FunctionForm::Logical => b"LOGICAL FUNCTION ",
    }
}

fn head_word(function: Option<FunctionForm>) -> &'static [u8]
    ensures { result.now ≡ head_word function }
{
    match function {
        None => b"SUBROUTINE ",
        Some(form) => function_word(form),
    }
}

/// The dummies of a function without the last one, which is its own name.
fn write_titled_dummies(alloc: Global, out: &mut Text, dummies: &List<Text>) -> Result<(), Memory>
    ensures { OnOk result (out.new ≡ out.old ++ joined_by (λ n. n) (titled_dummies dummies.now)) }
{
    let list = dummies.as_slice();
    write_row(alloc, out, &list[..list.len().saturating_sub(1)])
}

#[tactic(auto, using(crate::proofs::TextLemmas::char_steps))]
fn write_function_dummies(alloc: Global, out: &mut Text, dummies: &List<Text>) -> Result<(), Memory>
    ensures { OnOk result
        (out.new ≡ out.old ++ codes "(" ++ joined_by (λ n. n) (titled_dummies dummies.now) ++ codes ")") }
{
    out.append(b"(")?;
    write_titled_dummies(alloc, out, dummies)?;
    out.append(b")")
}

fn write_head_dummies(
    alloc: Global,
    out: &mut Text,
    function: Option<FunctionForm>,
    dummies: &List<Text>,
) -> Result<(), Memory>
    ensures { OnOk result (out.new ≡ out.old ++ head_dummies function dummies.now) }
{
    match function {
        None => write_dummies(alloc, out, dummies),
        Some(_) => write_function_dummies(alloc, out, dummies),
    }
}

/// PROGRAM, SUBROUTINE or FUNCTION, from column 7 on.
#[tactic(auto, using(crate::proofs::TextLemmas::char_steps))]
fn write_title(alloc: Global, out: &mut Text, module: &Module) -> Result<(), Memory>
    ensures { OnOk result (out.new ≡ out.old ++ title_text (module_tree «module».now)) }
{
    if module.main {
        out.append(b"PROGRAM ")?;
        out.append(module.name.as_slice())
    } else {
        out.append(head_word(module.function))?;
        out.append(module.name.as_slice())?;
        write_head_dummies(alloc, out, module.function, &module.dummies)
    }
}

fn is_titled(module: &Module) -> bool
    ensures { result ≡ has_title (module_tree «module».now) }
{
    module.titled || !module.main
}

fn put_title(
    alloc: Global,
    page: &mut Page<'_>,
    lines: &Lines,
    module: &Module,
) -> Result<(), Memory>
    ensures { OnOk result
        (page_tree page.new ≡ with_title (lines_of lines.now) (module_tree «module».now) (page_tree page.old)) }
{
    if !is_titled(module) {
        return Ok(());
    }
    put_start(page, lines, Here::Title)?;
    let mut text = Text::new(alloc);
    write_title(alloc, &mut text, module)?;
    put_line(alloc, page, None, &text)
}

#[tactic(auto, using(f77_ast::proofs::PlainlyDecl::decl_lists))]
fn put_decls(
    alloc: Global,
    page: &mut Page<'_>,
    lines: &Lines,
    decls: &List<Decl>,
) -> Result<(), Memory>
    ensures { OnOk result
        (page_tree page.new ≡ with_decls (lines_of lines.now) 0 (map decl_tree decls.now) (page_tree page.old)) }
{
    for (place, decl) in decls.as_slice().iter().enumerate() {
        put_decl(alloc, page, lines, place, decl)?;
    }
    Ok(())
}

fn put_decl(
    alloc: Global,
    page: &mut Page<'_>,
    lines: &Lines,
    place: usize,
    decl: &Decl,
) -> Result<(), Memory>
    ensures { OnOk result
        (page_tree page.new ≡ with_decl (lines_of lines.now) place (decl_tree decl.now) (page_tree page.old)) }
{
    put_start(page, lines, Here::Decl(place))?;
    let mut text = Text::new(alloc);
    write_decl(alloc, &mut text, decl)?;
    put_line(alloc, page, None, &text)
}

fn put_end(alloc: Global, page: &mut Page<'_>, lines: &Lines) -> Result<(), Memory>
    ensures { OnOk result (page_tree page.new ≡ with_end (lines_of lines.now) (page_tree page.old)) }
{
    put_start(page, lines, Here::End)?;
    put_words(alloc, page, b"END")
}

fn put_module(
    alloc: Global,
    page: &mut Page<'_>,
    lines: &Lines,
    module: &Module,
) -> Result<(), Memory>
    ensures { OnOk result
        (page_tree page.new ≡ with_module (lines_of lines.now) (module_tree «module».now) (page_tree page.old)) }
{
    put_title(alloc, page, lines, module)?;
    put_decls(alloc, page, lines, &module.decls)?;
    put_statements(alloc, page, lines, &module.body)?;
    put_end(alloc, page, lines)
}

fn first_of(body: &List<Stmt>) -> Part
    ensures { result ≡ first_in (stmt_trees body.now) }
{
    match body.as_slice() {
        [] => Part::End,
        [s, ..] => Part::Stmt(s.id),
    }
}

fn first_below_title(decls: &List<Decl>, body: &List<Stmt>) -> Part
    ensures { result ≡ first_below (map decl_tree decls.now) (stmt_trees body.now) }
{
    match decls.as_slice() {
        [] => first_of(body),
        [_, ..] => Part::Decl(0),
    }
}

/// The part that is written first.
fn first_written(module: &Module) -> Part
    ensures { result ≡ first_part (module_tree «module».now) }
{
    if is_titled(module) {
        Part::Title
    } else {
        first_below_title(&module.decls, &module.body)
    }
}

/// The written text of a module, each part after its comments and the lines that are added before it, in the order of their
/// list. A line whose number is of no executable statement, or of one inside a logical IF, is left out. Comments are taken from
/// the spots in their order: where these are just the parts of the module, in the order of the text, every comment is written.
/// The closing comments come last.
pub fn plain(
    alloc: Global,
    places: &Places,
    module: &Module,
    added: &List<Added>,
) -> Result<Text, Memory>
    ensures { IfOk result (λ t. t ≡ module_text places.now (module_tree «module».now) added.now) }
{
    let lines = lines_by_part(alloc, first_written(module), added)?;
    let mut page = Page {
        text: Text::new(alloc),
        spots: places.spots.as_slice(),
    };
    put_module(alloc, &mut page, &lines, module)?;
    let mut text = page.text;
    write_whole(&mut text, &places.closing)?;
    Ok(text)
}
