//! Results that rest on the text of their module alone, and the graph.
ghost use Rattle.std.specs.Prelude.{◌≡◌, map, Some, IfOk};
ghost use Rattle.std.specs.Option.{option_map};
ghost use Rattle.f77_ast.specs.PlainDecl.{module_tree, parsed_tree};
ghost use Rattle.session_texts.specs.pipsmake_meaning.Definitions.{module_named, graph_found};
ghost use Rattle.session_texts.specs.pipsmake_meaning.Texts.{links_in, module_read};
ghost use Rattle.session_texts.specs.pipsmake_meaning.Values.{parsed, lines, symbols};
ghost use Rattle.result_store.specs.Values.{value_tree};
ghost use Rattle.result_making.specs.Making.{AreGraphed, MayBeKept};
ghost use Rattle.result_making.specs.Parts.{own_tree, first_tree, IsReadAs};

use crate::modules::{Modules, Own};
use f77_ast::{Module, Parsed, copy_symbols};
use f77_parser::{ModuleTrees, ParseRefusal, parse};
use f77_structure::stack_of;
use fixed_form::{ReadRefusal, statements};
use fx_lists::Text;
use result_store::Value;
use same_values::{copy_graph, copy_places};
use session_texts::Sources;
use std::alloc::{AllocError as Memory, Global};

/// The statements of the first of some modules.
fn first_of(modules: ModuleTrees) -> Option<Module>
    ensures { option_map module_tree result ≡ first_tree (map parsed_tree modules) }
{
    let mut rest = stack_of(modules);
    match rest.pop() {
        None => None,
        Some(parsed) => {
            let Parsed { module, places: _ } = parsed;
            Some(module)
        }
    }
}

/// The statements of a module, read once more from its text. Err also where the text has more than 16,777,216 bytes.
#[tactic(auto, using(session_texts::proofs::Sizes::long_texts))]
fn read_again(alloc: Global, text: &Text) -> Result<Option<Module>, Memory>
    ensures { IfOk result (λ found. IsReadAs (module_read text.now) found) }
{
    if text.len() > 16_777_216 {
        return Err(Memory);
    }
    let lines = match statements(alloc, text) {
        Ok(lines) => lines,
        Err(ReadRefusal::At(_, _)) => return Ok(None),
        Err(ReadRefusal::Memory) => return Err(Memory),
    };
    match parse(alloc, &lines) {
        Ok(modules) => Ok(first_of(modules)),
        Err(ParseRefusal::At(_, _, _)) => Ok(None),
        Err(ParseRefusal::Memory) => Err(Memory),
    }
}

/// The statements of the module of a name. Err as of `read_again`.
pub(crate) fn parsed_value(
    alloc: Global,
    sources: &Sources,
    own: &Own<'_>,
    name: &Text,
) -> Result<Option<Value>, Memory>
    requires { module_named sources.now name.now ≡ Some (own_tree own.now) }
    ensures value { IfOk result (λ v. option_map value_tree v ≡ Some (parsed (own_tree own.now).module_is.module_read)) }
    ensures fits { IfOk result MayBeKept }
{
    let Some(text) = sources.text_named(name) else {
        return Ok(None);
    };
    match read_again(alloc, text)? {
        None => Ok(None),
        Some(module) => Ok(Some(Value::Parsed(module))),
    }
}

/// The lines of a module.
pub(crate) fn lines_value(alloc: Global, own: &Own<'_>) -> Result<Option<Value>, Memory>
    ensures value { IfOk result (λ v. option_map value_tree v ≡ Some (lines (own_tree own.now).module_is.places)) }
    ensures fits { IfOk result MayBeKept }
{
    let places = copy_places(alloc, &own.parsed.places)?;
    Ok(Some(Value::Lines(places)))
}

/// The symbols of a module.
pub(crate) fn symbols_value(alloc: Global, own: &Own<'_>) -> Result<Option<Value>, Memory>
    ensures value { IfOk result (λ v. option_map value_tree v ≡ Some (symbols (own_tree own.now).table)) }
    ensures fits { IfOk result MayBeKept }
{
    let table = copy_symbols(alloc, own.symbols)?;
    Ok(Some(Value::Symbols(table)))
}

/// The graph, where the modules link.
pub(crate) fn graph_value(alloc: Global, modules: &Modules<'_>) -> Result<Option<Value>, Memory>
    requires { AreGraphed modules.now }
    ensures value { IfOk result (λ v. option_map value_tree v ≡ graph_found (links_in modules.now.sources.now)) }
    ensures fits { IfOk result MayBeKept }
{
    if !modules.linked {
        return Ok(None);
    }
    let graph = copy_graph(alloc, modules.graph)?;
    Ok(Some(Value::CallGraph(graph)))
}
