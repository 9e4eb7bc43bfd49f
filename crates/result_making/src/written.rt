//! The written text of a module, from what is kept of it.
ghost use Rattle.std.specs.Prelude.{◌≡◌, IfOk, IfSome};
ghost use Rattle.std.specs.Option.{option_map};
ghost use Rattle.result_lines.specs.Lines.{printed_tree};
ghost use Rattle.session_texts.specs.pipsmake_meaning.Rules.{kept_results, rule_of, text_with};
ghost use Rattle.result_store.specs.Rows.{memo_cells_of};
ghost use Rattle.result_store.specs.Values.{value_tree};
ghost use Rattle.result_making.specs.Making.{text_made, MayBeKept};
ghost use Rattle.result_making.specs.Parts.{own_tree};

use crate::modules::{Modules, Own, own_of};
use call_graph::View;
use f77_printer::plain;
use fx_lists::Text;
use result_lines::{PrintedResults, Show, result_lines};
use result_store::{Store, Value};
use session_texts::pipsmake_rules::Kind;
use std::alloc::{AllocError as Memory, Global};

/// The results of a module that lines say; None where one is not kept.
fn kept_results<'x>(store: &'x Store, name: &Text) -> Option<PrintedResults<'x>>
    ensures { option_map printed_tree result ≡ kept_results (memo_cells_of store.now) name.now }
{
    let transformers = store.transformers(name)?;
    let preconditions = store.preconditions(name)?;
    let regions = store.regions(name)?;
    let ins = store.in_regions(name)?;
    let outs = store.out_regions(name)?;
    let marks = store.marks(name)?;
    Some(PrintedResults {
        transformers,
        preconditions,
        regions,
        ins,
        outs,
        marks,
    })
}

/// The written text of a module; None where a result that it shows is not kept.
fn text_with(
    alloc: Global,
    modules: &Modules<'_>,
    store: &Store,
    own: &Own<'_>,
    name: &Text,
    show: Show,
) -> Result<Option<Text>, Memory>
    ensures { IfOk result (λ t. t ≡ text_with (memo_cells_of store.now) (own_tree own.now) name.now show) }
{
    let Some(results) = kept_results(store, name) else {
        return Ok(None);
    };
    let view = View {
        module: &own.parsed.module,
        symbols: own.symbols,
        graph: modules.graph,
    };
    let added = result_lines(alloc, &view, &results, show)?;
    let text = plain(alloc, &own.parsed.places, &own.parsed.module, &added)?;
    Ok(Some(text))
}

/// The written text of the module of a name with what `show` adds to it; None where there is no such module, or one of the results that lines say is not
/// kept. The graph is not used.
pub fn shown(
    alloc: Global,
    modules: &Modules<'_>,
    store: &Store,
    name: &Text,
    show: Show,
) -> Result<Option<Text>, Memory>
    ensures { IfOk result (λ t. t ≡ text_made (memo_cells_of store.now) modules.now.sources.now name.now show) }
{
    match own_of(modules.sources, name) {
        None => Ok(None),
        Some(own) => text_with(alloc, modules, store, &own, name, show),
    }
}

/// The written text of a module with all that is known of its statements.
pub(crate) fn printed_value(
    alloc: Global,
    modules: &Modules<'_>,
    store: &Store,
    own: &Own<'_>,
    name: &Text,
) -> Result<Option<Value>, Memory>
    ensures value { IfOk result (λ v. option_map value_tree v ≡ rule_of (memo_cells_of store.now) modules.now.sources.now Kind.Printed name.now (own_tree own.now)) }
    ensures fits { IfOk result MayBeKept }
{
    match text_with(alloc, modules, store, own, name, Show::All)? {
        None => Ok(None),
        Some(text) => Ok(Some(Value::Printed(text))),
    }
}
