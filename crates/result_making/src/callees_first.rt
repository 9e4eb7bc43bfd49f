//! Results that rest on those of the modules that a module calls.
ghost use Rattle.std.specs.Prelude.{◌≡◌, IfOk};
ghost use Rattle.std.specs.Option.{option_map};
ghost use Rattle.session_texts.specs.pipsmake_meaning.Rules.{rule_of};
ghost use Rattle.session_texts.specs.pipsmake_meaning.Texts.{graph_of};
ghost use Rattle.result_store.specs.Rows.{memo_cells_of};
ghost use Rattle.result_store.specs.Values.{value_tree};
ghost use Rattle.result_making.specs.Making.{MayBeKept};
ghost use Rattle.result_making.specs.Parts.{own_tree};

use crate::below::{effects_below, ins_below, regions_below, transformers_below};
use crate::modules::{Modules, Own};
use call_graph::View;
use fx_lists::Text;
use loop_marker::module_phases::{effects_from, ins_from, regions_from, transformers_from};
use result_store::{Store, Value};
use session_texts::pipsmake_rules::{Kind, callees};
use std::alloc::{AllocError as Memory, Global};

/// The effects of a module.
pub(crate) fn effects_value(
    alloc: Global,
    modules: &Modules<'_>,
    store: &Store,
    own: &Own<'_>,
    name: &Text,
) -> Result<Option<Value>, Memory>
    requires { modules.now.graph.now ≡ graph_of modules.now.sources.now }
    ensures value { IfOk result (λ v. option_map value_tree v ≡ rule_of (memo_cells_of store.now) modules.now.sources.now Kind.Effects name.now (own_tree own.now)) }
    ensures fits { IfOk result MayBeKept }
{
    let names = callees(alloc, modules.graph, name)?;
    let below = effects_below(alloc, modules.sources, store, names.as_slice())?;
    let view = View {
        module: &own.parsed.module,
        symbols: own.symbols,
        graph: modules.graph,
    };
    let made = effects_from(alloc, &view, below.as_slice())?;
    Ok(Some(Value::Effects(made)))
}

/// The transformers of a module.
pub(crate) fn transformers_value(
    alloc: Global,
    modules: &Modules<'_>,
    store: &Store,
    own: &Own<'_>,
    name: &Text,
) -> Result<Option<Value>, Memory>
    requires { modules.now.graph.now ≡ graph_of modules.now.sources.now }
    ensures value { IfOk result (λ v. option_map value_tree v ≡ rule_of (memo_cells_of store.now) modules.now.sources.now Kind.Transformers name.now (own_tree own.now)) }
    ensures fits { IfOk result MayBeKept }
{
    let names = callees(alloc, modules.graph, name)?;
    let below = transformers_below(alloc, modules.sources, store, names.as_slice())?;
    let view = View {
        module: &own.parsed.module,
        symbols: own.symbols,
        graph: modules.graph,
    };
    let made = transformers_from(alloc, &view, below.as_slice())?;
    Ok(Some(Value::Transformers(made)))
}

/// The READ and WRITE regions of a module; None where its transformers are not kept.
pub(crate) fn regions_value(
    alloc: Global,
    modules: &Modules<'_>,
    store: &Store,
    own: &Own<'_>,
    name: &Text,
) -> Result<Option<Value>, Memory>
    requires { modules.now.graph.now ≡ graph_of modules.now.sources.now }
    ensures value { IfOk result (λ v. option_map value_tree v ≡ rule_of (memo_cells_of store.now) modules.now.sources.now Kind.Regions name.now (own_tree own.now)) }
    ensures fits { IfOk result MayBeKept }
{
    let Some(transformers) = store.transformers(name) else {
        return Ok(None);
    };
    let names = callees(alloc, modules.graph, name)?;
    let below = regions_below(alloc, modules.sources, store, names.as_slice())?;
    let view = View {
        module: &own.parsed.module,
        symbols: own.symbols,
        graph: modules.graph,
    };
    let made = regions_from(alloc, &view, transformers, below.as_slice())?;
    Ok(Some(Value::Regions(made)))
}

/// The IN regions of a module; None where its transformers or its READ and WRITE regions are not kept.
pub(crate) fn ins_value(
    alloc: Global,
    modules: &Modules<'_>,
    store: &Store,
    own: &Own<'_>,
    name: &Text,
) -> Result<Option<Value>, Memory>
    requires { modules.now.graph.now ≡ graph_of modules.now.sources.now }
    ensures value { IfOk result (λ v. option_map value_tree v ≡ rule_of (memo_cells_of store.now) modules.now.sources.now Kind.InRegions name.now (own_tree own.now)) }
    ensures fits { IfOk result MayBeKept }
{
    let Some(transformers) = store.transformers(name) else {
        return Ok(None);
    };
    let Some(regions) = store.regions(name) else {
        return Ok(None);
    };
    let names = callees(alloc, modules.graph, name)?;
    let below = ins_below(alloc, modules.sources, store, names.as_slice())?;
    let view = View {
        module: &own.parsed.module,
        symbols: own.symbols,
        graph: modules.graph,
    };
    let made = ins_from(alloc, &view, transformers, regions, below.as_slice())?;
    Ok(Some(Value::InRegions(made)))
}
