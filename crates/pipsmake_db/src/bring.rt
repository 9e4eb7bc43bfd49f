//! Results that are brought up to date.
ghost use Rattle.std.specs.Prelude.{IfOk, OnOk, OnErr};
ghost use Rattle.session_texts.specs.pipsmake_meaning.Making.{AllStay, BringsAll};
ghost use Rattle.result_store.specs.Rows.{memo_cells_of};
ghost use Rattle.result_making.specs.Making.{AreGraphed};
ghost use Rattle.pipsmake_db.specs.Bring.{BringsOne, BringsSome};

use crate::fresh::copy_key;
use crate::stamps::stamps_now;
use fx_lists::List;
use result_making::{Modules, made_value};
use result_store::{Item, Store};
use session_texts::pipsmake_rules::Key;
use std::alloc::{AllocError as Memory, Global};

/// A result is made and kept, and added to those that were made, unless it is kept as it would be made. On Err what is kept is as it was.
fn bring(
    alloc: Global,
    modules: &Modules<'_>,
    store: &mut Store,
    key: &Key,
    made: &mut List<Key>,
) -> Result<(), Memory>
    requires { AreGraphed modules.now }
    ensures ok { OnOk result (BringsOne (memo_cells_of store.old) modules.now.sources.now key.now made.old made.new (memo_cells_of store.new)) }
    ensures err { OnErr result (AllStay (memo_cells_of store.old) (memo_cells_of store.new)) }
{
    let stamps = stamps_now(alloc, modules, store, key)?;
    if store.is_made_from(Item::Result(key.kind), &key.name, stamps.as_slice()) {
        return Ok(());
    }
    let Some(value) = made_value(alloc, modules, store, key)? else {
        return Ok(());
    };
    made.push(copy_key(key)?)?;
    store.keep(alloc, Item::Result(key.kind), &key.name, value, stamps)
}

/// Results are brought up to date one after another; those that were made. On Err some of the first were.
pub(crate) fn bring_all(
    alloc: Global,
    modules: &Modules<'_>,
    store: &mut Store,
    walk: &[Key],
) -> Result<List<Key>, Memory>
    requires { AreGraphed modules.now }
    ensures ok { IfOk result (λ made. BringsAll (memo_cells_of store.old) modules.now.sources.now walk.now made (memo_cells_of store.new)) }
    ensures err { OnErr result (BringsSome (memo_cells_of store.old) modules.now.sources.now walk.now (memo_cells_of store.new)) }
{
    let mut made = List::new(alloc);
    let mut rest = walk;
    while let [key, more @ ..] = rest {
        bring(alloc, modules, store, key, &mut made)?;
        rest = more;
    }
    Ok(made)
}
