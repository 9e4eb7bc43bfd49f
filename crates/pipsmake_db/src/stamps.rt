//! What a result is made from now.
ghost use Rattle.std.specs.Prelude.{◌≡◌, ◌++◌, map, IfOk, OnOk};
ghost use Rattle.session_texts.specs.pipsmake_meaning.Making.{stamp_of, text_stamps, stamps_now};
ghost use Rattle.session_texts.specs.pipsmake_meaning.Values.{result as result_of};
ghost use Rattle.result_store.specs.Rows.{memo_cells_of};
ghost use Rattle.result_store.specs.Values.{item_of, stamped_tree};
ghost use Rattle.result_making.specs.Making.{AreGraphed};

use fx_lists::{List, Text};
use result_making::Modules;
use result_store::{Item, Stamped, Store};
use session_texts::pipsmake_rules::{Key, Kind, needs};
use std::alloc::{AllocError as Memory, Global};

/// What is kept of an item and name, by its stamp.
fn stamp_of(store: &Store, item: Item, name: &Text) -> Result<Stamped, Memory>
    ensures { IfOk result (λ s. stamped_tree s ≡ stamp_of (memo_cells_of store.now) (item_of item) name.now) }
{
    let stamp = store.stamp(item, name);
    let name = name.clone()?;
    Ok(Stamped { item, name, stamp })
}

/// The text of a module, where results of a kind need it.
fn text_stamps(
    alloc: Global,
    store: &Store,
    kind: Kind,
    name: &Text,
) -> Result<List<Stamped>, Memory>
    ensures { IfOk result (λ ss. map stamped_tree ss ≡ text_stamps (memo_cells_of store.now) kind name.now) }
{
    let mut stamps = List::new(alloc);
    match kind {
        Kind::Parsed | Kind::Lines => stamps.push(stamp_of(store, Item::Text, name)?)?,
        Kind::Symbols
        | Kind::CallGraph
        | Kind::Effects
        | Kind::Transformers
        | Kind::Preconditions
        | Kind::Regions
        | Kind::InRegions
        | Kind::OutRegions
        | Kind::Marks
        | Kind::Printed => {}
    }
    Ok(stamps)
}

/// Adds what is kept of each of these results.
fn push_stamps(stamps: &mut List<Stamped>, store: &Store, needs: &[Key]) -> Result<(), Memory>
    ensures { OnOk result (map stamped_tree stamps.new ≡ map stamped_tree stamps.old ++ map (λ n. stamp_of (memo_cells_of store.now) (result_of n.kind) n.name) needs.now) }
{
    let mut rest = needs;
    while let [need, more @ ..] = rest {
        stamps.push(stamp_of(store, Item::Result(need.kind), &need.name)?)?;
        rest = more;
    }
    Ok(())
}

/// The stamps of what a result is made from, in the order of its needs.
pub(crate) fn stamps_now(
    alloc: Global,
    modules: &Modules<'_>,
    store: &Store,
    key: &Key,
) -> Result<List<Stamped>, Memory>
    requires { AreGraphed modules.now }
    ensures { IfOk result (λ ss. map stamped_tree ss ≡ stamps_now (memo_cells_of store.now) modules.now.sources.now key.now) }
{
    let needs = needs(
        alloc,
        modules.sources.names(),
        modules.graph,
        key.kind,
        &key.name,
    )?;
    let mut stamps = text_stamps(alloc, store, key.kind, &key.name)?;
    push_stamps(&mut stamps, store, needs.as_slice())?;
    Ok(stamps)
}
