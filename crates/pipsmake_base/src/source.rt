//! The modules of a base, each read from its text.
ghost use Rattle.std.specs.Prelude.{◌≡◌, ◌≤◌, [], true, length, map, Some, IfOk};
ghost use Rattle.base_json.specs.Distinct.{are_new};
ghost use Rattle.base_text.specs.Modules.{module_names_in, tree_in};
ghost use Rattle.f77_ast.specs.PlainDecl.{parsed_tree};
ghost use Rattle.pipsmake_db.specs.pipsmake_meaning.Texts.{modules_of};
ghost use Rattle.pipsmake_db.specs.State.{IsIn};
ghost use Rattle.pipsmake_base.specs.Saved.{text_at};
ghost use Rattle.pipsmake_base.specs.Texts.{IsSourceOf, AreSourcesOf, plain_state};

use base_text::BaseModule;
use f77_ast::Parsed;
use f77_parser::{ParseRefusal, parse};
use fixed_form::{ReadRefusal, statements};
use fx_lists::{List, Text};
use pipsmake_db::Db;
use pipsmake_db::session_texts::{ModuleText, Source};
use std::alloc::{AllocError as Memory, Global};
use storage_layout::{LayoutRefusal, symbols};

/// The one module of a text. Err also where the text is refused, or has none or several.
#[tactic(auto, using(crate::proofs::LongTexts::long_texts, base_text::proofs::ModuleLaws::trees))]
fn tree_of(alloc: Global, text: &Text) -> Result<Parsed, Memory>
    requires { length text.now ≤ 16777216 }
    ensures { IfOk result (λ p. tree_in (modules_of text.now) ≡ Some (parsed_tree p)) }
{
    let lines = match statements(alloc, text) {
        Ok(lines) => lines,
        Err(ReadRefusal::At(_, _)) | Err(ReadRefusal::Memory) => return Err(Memory),
    };
    let mut modules = match parse(alloc, &lines) {
        Ok(modules) => modules,
        Err(ParseRefusal::At(_, _, _)) | Err(ParseRefusal::Memory) => return Err(Memory),
    };
    let Some(parsed) = modules.pop() else {
        return Err(Memory);
    };
    if modules.is_empty() {
        Ok(parsed)
    } else {
        Err(Memory)
    }
}

/// A module of a base. Err also where its text is not the one module of its name, as it is in no base that was read.
fn source_of(alloc: Global, held: &BaseModule) -> Result<Source, Memory>
    ensures { IfOk result (IsSourceOf held.now) }
{
    if held.text.len() > 16777216 {
        return Err(Memory);
    }
    let parsed = tree_of(alloc, &held.text)?;
    let symbols = match symbols(alloc, &parsed) {
        Ok(symbols) => symbols,
        Err(LayoutRefusal::At(_, _)) | Err(LayoutRefusal::Memory) => return Err(Memory),
    };
    if parsed.module.name != held.name {
        return Err(Memory);
    }
    let name = held.name.clone()?;
    let text = held.text.clone()?;
    Ok(Source {
        text: ModuleText {
            name,
            text,
            first: 1,
        },
        parsed,
        symbols,
    })
}

/// The modules of a base, in their order.
fn sources_of(alloc: Global, modules: &[BaseModule]) -> Result<List<Source>, Memory>
    ensures { IfOk result (AreSourcesOf modules.now) }
{
    let mut sources = List::new(alloc);
    let mut rest = modules;
    while let [held, more @ ..] = rest {
        let source = source_of(alloc, held)?;
        sources.push(source)?;
        rest = more;
    }
    Ok(sources)
}

/// A database over the texts of a base, in which no result is kept.
pub(crate) fn over_texts(alloc: Global, modules: &[BaseModule]) -> Result<Db, Memory>
    requires { are_new [] (module_names_in modules.now) ≡ true }
    ensures { IfOk result (λ d. IsIn d (plain_state (map text_at modules.now))) }
{
    let found = sources_of(alloc, modules)?;
    let mut db = Db::new(alloc);
    db.put(alloc, found)?;
    Ok(db)
}
