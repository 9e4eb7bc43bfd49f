//! Results that stored ones need.
ghost use Rattle.std.specs.Prelude.{◌≡◌, Some, IfOk, OnOk, map};
ghost use Rattle.pipsmake_db.specs.pipsmake_meaning.Definitions.{definition};
ghost use Rattle.pipsmake_db.specs.pipsmake_meaning.MemoCells.{kept_of};
ghost use Rattle.pipsmake_db.specs.result_making.Making.{AreGraphed};
ghost use Rattle.pipsmake_db.specs.result_store.Fits.{ValueFits};
ghost use Rattle.pipsmake_db.specs.result_store.Rows.{memo_cells_of};
ghost use Rattle.pipsmake_db.specs.result_store.Values.{value_tree, stamped_tree};
ghost use Rattle.pipsmake_db.specs.State.{texts_of};
ghost use Rattle.pipsmake_base.specs.Plain.{IsPlain, texts_behind};
ghost use Rattle.pipsmake_base.specs.Taken.{IsInSome, SeesNeed, SeesNeeds, IsPlainKind};

use crate::made::made;
use crate::plain::{Plain, taken_out};
use crate::see::see_value;
use crate::stored::value_of;
use fx_lists::List;
use pipsmake_db::pipsmake_rules::{Key, Kind, Listed};
use pipsmake_db::result_making::{Modules, made_value};
use pipsmake_db::result_store::{Item, Stamped, Store, Value};
use pipsmake_db::{Db, stored_of};
use std::alloc::{AllocError as Memory, Global};

/// What is defined of the statements, lines or symbols of a module, or of the graph.
fn plain_value(
    alloc: Global,
    modules: &Modules<'_>,
    store: &Store,
    key: &Key,
) -> Result<Value, Memory>
    requires graphed { AreGraphed modules.now }
    requires plain { IsPlainKind key.now.kind }
    ensures value { IfOk result (λ v. definition modules.now.sources.now key.now.kind key.now.name ≡ Some (value_tree v)) }
    ensures fits { IfOk result (λ v. ValueFits (value_tree v)) }
{
    let made = made_value(alloc, modules, store, key)?;
    match made {
        Some(value) => Ok(value),
        None => Err(Memory),
    }
}

/// A copy of what is kept of a result of a stored kind.
#[tactic(auto, using(crate::proofs::StoredLaws::stored_back))]
fn copied_kept(alloc: Global, store: &Store, key: &Key) -> Result<Value, Memory>
    ensures value { IfOk result (λ v. kept_of (memo_cells_of store.now) key.now.kind key.now.name ≡ Some (value_tree v)) }
    ensures fits { IfOk result (λ v. ValueFits (value_tree v)) }
{
    let Some(value) = store.value(Item::Result(key.kind), &key.name) else {
        return Err(Memory);
    };
    let Some(stored) = stored_of(alloc, value)? else {
        return Err(Memory);
    };
    Ok(value_of(stored))
}

/// What is defined of a stored kind and a module, by another database over the same texts.
fn value_over(alloc: Global, plain: &mut Db, key: &Key) -> Result<Value, Memory>
    requires { IsInSome plain.old }
    ensures value { IfOk result (λ v. definition (texts_of plain.old) key.now.kind key.now.name ≡ Some (value_tree v)) }
    ensures fits { IfOk result (λ v. ValueFits (value_tree v)) }
    ensures texts { OnOk result (texts_of plain.new ≡ texts_of plain.old) }
    ensures in_some { OnOk result (IsInSome plain.new) }
{
    let is_made = made(alloc, plain, key.kind, &key.name)?;
    if is_made {
        copied_kept(alloc, &plain.store, key)
    } else {
        Err(Memory)
    }
}

/// What is defined of a stored kind and a module.
fn analysed_value(alloc: Global, plain: &mut Plain<'_>, key: &Key) -> Result<Value, Memory>
    requires { IsPlain plain.old }
    ensures value { IfOk result (λ v. definition (texts_behind plain.old) key.now.kind key.now.name ≡ Some (value_tree v)) }
    ensures fits { IfOk result (λ v. ValueFits (value_tree v)) }
    ensures texts { OnOk result (texts_behind plain.new ≡ texts_behind plain.old) }
    ensures in_some { OnOk result (IsPlain plain.new) }
{
    let mut db = taken_out(alloc, plain)?;
    let value = value_over(alloc, &mut db, key)?;
    plain.db = Some(db);
    Ok(value)
}

/// What is defined of a result that is needed and not stored. None is of written texts.
fn needed_value(
    alloc: Global,
    plain: &mut Plain<'_>,
    modules: &Modules<'_>,
    store: &Store,
    key: &Key,
) -> Result<Value, Memory>
    requires graphed { AreGraphed modules.now }
    requires in_some { IsPlain plain.old }
    requires texts { texts_behind plain.old ≡ modules.now.sources.now }
    ensures value { IfOk result (λ v. definition modules.now.sources.now key.now.kind key.now.name ≡ Some (value_tree v)) }
    ensures fits { IfOk result (λ v. ValueFits (value_tree v)) }
    ensures texts { OnOk result (texts_behind plain.new ≡ modules.now.sources.now) }
    ensures in_some { OnOk result (IsPlain plain.new) }
{
    match key.kind {
        Kind::Parsed | Kind::Lines | Kind::Symbols | Kind::CallGraph => {
            plain_value(alloc, modules, store, key)
        }
        Kind::Effects
        | Kind::Transformers
        | Kind::Preconditions
        | Kind::Regions
        | Kind::InRegions
        | Kind::OutRegions
        | Kind::Marks
        | Kind::Printed => analysed_value(alloc, plain, key),
    }
}

/// A result that is needed is among those that were seen.
fn see_need(
    alloc: Global,
    plain: &mut Plain<'_>,
    modules: &Modules<'_>,
    store: &mut Store,
    seen: &mut Listed,
    need: &Key,
) -> Result<(), Memory>
    requires graphed { AreGraphed modules.now }
    requires in_some { IsPlain plain.old }
    requires texts { texts_behind plain.old ≡ modules.now.sources.now }
    ensures ok { OnOk result (SeesNeed modules.now.sources.now (memo_cells_of store.old) seen.old need.now (memo_cells_of store.new) seen.new) }
    ensures texts { OnOk result (texts_behind plain.new ≡ modules.now.sources.now) }
    ensures in_some { OnOk result (IsPlain plain.new) }
{
    let there = seen.has(alloc, need)?;
    if there {
        return Ok(());
    }
    let value = needed_value(alloc, plain, modules, store, need)?;
    see_value(alloc, store, seen, need, value)?;
    Ok(())
}

/// Results that are needed are among those that were seen; their stamps.
pub(crate) fn see_needs(
    alloc: Global,
    plain: &mut Plain<'_>,
    modules: &Modules<'_>,
    store: &mut Store,
    seen: &mut Listed,
    needs: &[Key],
) -> Result<List<Stamped>, Memory>
    requires graphed { AreGraphed modules.now }
    requires in_some { IsPlain plain.old }
    requires texts { texts_behind plain.old ≡ modules.now.sources.now }
    ensures ok { IfOk result (λ ss. SeesNeeds modules.now.sources.now (memo_cells_of store.old) seen.old needs.now (memo_cells_of store.new) seen.new (map stamped_tree ss)) }
    ensures texts { OnOk result (texts_behind plain.new ≡ modules.now.sources.now) }
    ensures in_some { OnOk result (IsPlain plain.new) }
{
    let mut stamps = List::new(alloc);
    let mut rest = needs;
    while let [need, more @ ..] = rest {
        see_need(alloc, plain, modules, store, seen, need)?;
        let name = need.name.clone()?;
        stamps.push(Stamped {
            item: Item::Result(need.kind),
            name,
            stamp: 0,
        })?;
        rest = more;
    }
    Ok(stamps)
}
