//! The value of a result by the rule of its kind.
ghost use Rattle.std.specs.Prelude.{◌≡◌, Some, IfOk};
ghost use Rattle.std.specs.Option.{option_map};
ghost use Rattle.session_texts.specs.pipsmake_meaning.Definitions.{module_named};
ghost use Rattle.session_texts.specs.pipsmake_meaning.Rules.{rule_of, rule_with, rule_value};
ghost use Rattle.result_store.specs.Rows.{memo_cells_of};
ghost use Rattle.result_store.specs.Values.{value_tree};
ghost use Rattle.result_making.specs.Making.{AreGraphed, MayBeKept};
ghost use Rattle.result_making.specs.Parts.{own_tree};

use crate::callees_first::{effects_value, ins_value, regions_value, transformers_value};
use crate::callers_first::{outs_value, preconditions_value};
use crate::marked::marks_value;
use crate::modules::{Modules, Own, own_of};
use crate::own::{graph_value, lines_value, parsed_value, symbols_value};
use crate::written::printed_value;
use fx_lists::Text;
use result_store::{Store, Value};
use session_texts::pipsmake_rules::{Key, Kind};
use std::alloc::{AllocError as Memory, Global};

/// The value of a result of a module, by the rule of its kind; the graph is of no module.
fn value_of(
    alloc: Global,
    modules: &Modules<'_>,
    store: &Store,
    own: &Own<'_>,
    kind: Kind,
    name: &Text,
) -> Result<Option<Value>, Memory>
    requires graphed { AreGraphed modules.now }
    requires own { module_named modules.now.sources.now name.now ≡ Some (own_tree own.now) }
    ensures value { IfOk result (λ v. option_map value_tree v ≡ rule_of (memo_cells_of store.now) modules.now.sources.now kind name.now (own_tree own.now)) }
    ensures fits { IfOk result MayBeKept }
{
    match kind {
        Kind::Parsed => parsed_value(alloc, modules.sources, own, name),
        Kind::Lines => lines_value(alloc, own),
        Kind::Symbols => symbols_value(alloc, own),
        Kind::CallGraph => Ok(None),
        Kind::Effects => effects_value(alloc, modules, store, own, name),
        Kind::Transformers => transformers_value(alloc, modules, store, own, name),
        Kind::Preconditions => preconditions_value(alloc, modules, store, own, name),
        Kind::Regions => regions_value(alloc, modules, store, own, name),
        Kind::InRegions => ins_value(alloc, modules, store, own, name),
        Kind::OutRegions => outs_value(alloc, modules, store, own, name),
        Kind::Marks => marks_value(alloc, modules, store, own, name),
        Kind::Printed => printed_value(alloc, modules, store, own, name),
    }
}

/// The value of a result that is of a module.
fn value_named(
    alloc: Global,
    modules: &Modules<'_>,
    store: &Store,
    kind: Kind,
    name: &Text,
) -> Result<Option<Value>, Memory>
    requires { AreGraphed modules.now }
    ensures value { IfOk result (λ v. option_map value_tree v ≡ rule_with (memo_cells_of store.now) modules.now.sources.now kind name.now (module_named modules.now.sources.now name.now)) }
    ensures fits { IfOk result MayBeKept }
{
    match own_of(modules.sources, name) {
        None => Ok(None),
        Some(own) => value_of(alloc, modules, store, &own, kind, name),
    }
}

/// The value that the rule of a result makes of what is kept; None where there is no such module, where a result that the rule names is not kept, and for the graph of
/// modules that do not link. Modules are looked up in constant time, callees and callers in the CALLs of the program. Err also where the statements of a text of more
/// than 16,777,216 bytes are to be read.
pub fn made_value(
    alloc: Global,
    modules: &Modules<'_>,
    store: &Store,
    key: &Key,
) -> Result<Option<Value>, Memory>
    requires { AreGraphed modules.now }
    ensures value { IfOk result (λ v. option_map value_tree v ≡ rule_value (memo_cells_of store.now) modules.now.sources.now key.now) }
    ensures fits { IfOk result MayBeKept }
{
    match key.kind {
        Kind::CallGraph => graph_value(alloc, modules),
        Kind::Parsed
        | Kind::Lines
        | Kind::Symbols
        | Kind::Effects
        | Kind::Transformers
        | Kind::Preconditions
        | Kind::Regions
        | Kind::InRegions
        | Kind::OutRegions
        | Kind::Marks
        | Kind::Printed => value_named(alloc, modules, store, key.kind, &key.name),
    }
}
