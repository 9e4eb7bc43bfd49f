//! Results that rest on those of the modules that call a module.
ghost use Rattle.std.specs.Prelude.{◌≡◌, IfOk};
ghost use Rattle.std.specs.Option.{option_map};
ghost use Rattle.session_texts.specs.pipsmake_meaning.Rules.{rule_of};
ghost use Rattle.session_texts.specs.pipsmake_meaning.Texts.{graph_of};
ghost use Rattle.result_store.specs.Rows.{memo_cells_of};
ghost use Rattle.result_store.specs.Values.{value_tree};
ghost use Rattle.result_making.specs.Making.{MayBeKept};
ghost use Rattle.result_making.specs.Parts.{own_tree};

use crate::above::{holding_above, later_above};
use crate::modules::{Modules, Own};
use call_graph::View;
use fx_lists::Text;
use loop_marker::module_phases::{outs_from, preconditions_from};
use result_store::{Store, Value};
use session_texts::pipsmake_rules::{Kind, callers};
use std::alloc::{AllocError as Memory, Global};

/// The preconditions of a module; None where its transformers are not kept.
pub(crate) fn preconditions_value(
    alloc: Global,
    modules: &Modules<'_>,
    store: &Store,
    own: &Own<'_>,
    name: &Text,
) -> Result<Option<Value>, Memory>
    requires { modules.now.graph.now ≡ graph_of modules.now.sources.now }
    ensures value { IfOk result (λ v. option_map value_tree v ≡ rule_of (memo_cells_of store.now) modules.now.sources.now Kind.Preconditions name.now (own_tree own.now)) }
    ensures fits { IfOk result MayBeKept }
{
    let Some(transformers) = store.transformers(name) else {
        return Ok(None);
    };
    let names = callers(alloc, modules.graph, name)?;
    let above = holding_above(alloc, modules.sources, store, names.as_slice())?;
    let view = View {
        module: &own.parsed.module,
        symbols: own.symbols,
        graph: modules.graph,
    };
    let made = preconditions_from(alloc, &view, transformers, above.as_slice())?;
    Ok(Some(Value::Preconditions(made)))
}

/// The OUT regions of a module; None where its transformers, its READ and WRITE or its IN regions are not kept.
pub(crate) fn outs_value(
    alloc: Global,
    modules: &Modules<'_>,
    store: &Store,
    own: &Own<'_>,
    name: &Text,
) -> Result<Option<Value>, Memory>
    requires { modules.now.graph.now ≡ graph_of modules.now.sources.now }
    ensures value { IfOk result (λ v. option_map value_tree v ≡ rule_of (memo_cells_of store.now) modules.now.sources.now Kind.OutRegions name.now (own_tree own.now)) }
    ensures fits { IfOk result MayBeKept }
{
    let Some(transformers) = store.transformers(name) else {
        return Ok(None);
    };
    let Some(regions) = store.regions(name) else {
        return Ok(None);
    };
    let Some(ins) = store.in_regions(name) else {
        return Ok(None);
    };
    let names = callers(alloc, modules.graph, name)?;
    let above = later_above(alloc, modules.sources, store, names.as_slice())?;
    let view = View {
        module: &own.parsed.module,
        symbols: own.symbols,
        graph: modules.graph,
    };
    let made = outs_from(alloc, &view, transformers, regions, ins, above.as_slice())?;
    Ok(Some(Value::OutRegions(made)))
}
