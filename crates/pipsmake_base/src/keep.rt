//! Stored results that are kept.
ghost use Rattle.std.specs.Prelude.{◌≡◌, [], ◌∷◌, map, IfOk, OnOk};
ghost use Rattle.pipsmake_db.specs.result_making.Making.{AreGraphed};
ghost use Rattle.pipsmake_db.specs.result_store.Rows.{memo_cells_of};
ghost use Rattle.pipsmake_db.specs.result_store.Values.{stamped_tree};
ghost use Rattle.pipsmake_base.specs.Plain.{IsPlain, texts_behind};
ghost use Rattle.pipsmake_base.specs.Taken.{SeesStamps, KeepsResults};

use crate::need::see_needs;
use crate::plain::Plain;
use fx_lists::List;
use pipsmake_db::pipsmake_rules::{Key, Listed, needs};
use pipsmake_db::result_making::Modules;
use pipsmake_db::result_store::{Item, Stamped, Store};
use std::alloc::{AllocError as Memory, Global};

/// The stamps of what a result needs. Of texts that do not link there are none: what is kept of them is out of date as soon as they do.
fn stamps_of(
    alloc: Global,
    plain: &mut Plain<'_>,
    modules: &Modules<'_>,
    store: &mut Store,
    seen: &mut Listed,
    key: &Key,
) -> Result<List<Stamped>, Memory>
    requires graphed { AreGraphed modules.now }
    requires in_some { IsPlain plain.old }
    requires texts { texts_behind plain.old ≡ modules.now.sources.now }
    ensures ok { IfOk result (λ ss. SeesStamps modules.now.sources.now (memo_cells_of store.old) seen.old key.now (memo_cells_of store.new) seen.new (map stamped_tree ss)) }
    ensures texts { OnOk result (texts_behind plain.new ≡ modules.now.sources.now) }
    ensures in_some { OnOk result (IsPlain plain.new) }
{
    if !modules.linked {
        return Ok(List::new(alloc));
    }
    let names = modules.sources.names();
    let needs = needs(alloc, names, modules.graph, key.kind, &key.name)?;
    see_needs(alloc, plain, modules, store, seen, needs.as_slice())
}

/// A result that was seen is kept.
fn keep_result(
    alloc: Global,
    plain: &mut Plain<'_>,
    modules: &Modules<'_>,
    store: &mut Store,
    seen: &mut Listed,
    key: &Key,
) -> Result<(), Memory>
    requires graphed { AreGraphed modules.now }
    requires in_some { IsPlain plain.old }
    requires texts { texts_behind plain.old ≡ modules.now.sources.now }
    ensures ok { OnOk result (KeepsResults modules.now.sources.now (memo_cells_of store.old) seen.old (key.now ∷ []) (memo_cells_of store.new) seen.new) }
    ensures texts { OnOk result (texts_behind plain.new ≡ modules.now.sources.now) }
    ensures in_some { OnOk result (IsPlain plain.new) }
{
    let stamps = stamps_of(alloc, plain, modules, store, seen, key)?;
    store.keep_seen(Item::Result(key.kind), &key.name, 0, stamps);
    Ok(())
}

/// Results that were seen are kept one after another.
pub(crate) fn keep_results(
    alloc: Global,
    plain: &mut Plain<'_>,
    modules: &Modules<'_>,
    store: &mut Store,
    seen: &mut Listed,
    keys: &[Key],
) -> Result<(), Memory>
    requires graphed { AreGraphed modules.now }
    requires in_some { IsPlain plain.old }
    requires texts { texts_behind plain.old ≡ modules.now.sources.now }
    ensures { OnOk result (KeepsResults modules.now.sources.now (memo_cells_of store.old) seen.old keys.now (memo_cells_of store.new) seen.new) }
{
    let mut rest = keys;
    while let [key, more @ ..] = rest {
        keep_result(alloc, plain, modules, store, seen, key)?;
        rest = more;
    }
    Ok(())
}
