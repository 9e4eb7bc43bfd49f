//! The first stored result that is not what is defined.
ghost use Rattle.std.specs.Prelude.{◌≡◌, ◌↔◌, IfOk, OnOk, IsNone};
ghost use Rattle.base_text.specs.Grammar.{IsBase};
ghost use Rattle.pipsmake_db.specs.base_values.Sizes.{kind_of as kind_of_is};
ghost use Rattle.pipsmake_db.specs.State.{texts_of, memo_cells_in};
ghost use Rattle.pipsmake_base.specs.Saved.{texts_in, key_at, IsSaved, FirstStale};
ghost use Rattle.pipsmake_base.specs.Taken.{IsInSome};
ghost use Rattle.pipsmake_base.specs.Stale.{IsOther, IsStale};

use crate::made::made;
use crate::source::over_texts;
use crate::stored::copied_value;
use base_text::{Base, StoredResult};
use pipsmake_db::Db;
use pipsmake_db::base_values::kind_of;
use pipsmake_db::pipsmake_rules::{Key, Kind};
use pipsmake_db::result_store::{Item, same_value};
use std::alloc::{AllocError as Memory, Global};

/// The result that a stored value is of.
fn key_of(stored: &StoredResult) -> Result<Key, Memory>
    ensures { IfOk result (λ k. k ≡ key_at stored.now) }
{
    let name = stored.name.clone()?;
    let kind = kind_of(&stored.value);
    Ok(Key { kind, name })
}

/// Whether another value is kept of its result, or none.
fn is_other(alloc: Global, db: &Db, kind: Kind, stored: &StoredResult) -> Result<bool, Memory>
    requires { kind ≡ kind_of_is stored.now.value }
    ensures { IfOk result (IsOther (memo_cells_in db.now) stored.now) }
{
    let value = copied_value(alloc, &stored.value)?;
    match db.store.value(Item::Result(kind), &stored.name) {
        None => Ok(true),
        Some(found) => Ok(!same_value(found, &value)),
    }
}

/// Whether a stored result is not what is defined for the texts of a database.
fn is_stale(alloc: Global, plain: &mut Db, stored: &StoredResult) -> Result<bool, Memory>
    requires { IsInSome plain.old }
    ensures is { IfOk result (IsStale (texts_of plain.old) stored.now) }
    ensures texts { OnOk result (texts_of plain.new ≡ texts_of plain.old) }
    ensures in_some { OnOk result (IsInSome plain.new) }
{
    let kind = kind_of(&stored.value);
    let is_made = made(alloc, plain, kind, &stored.name)?;
    if is_made {
        is_other(alloc, plain, kind, stored)
    } else {
        Ok(true)
    }
}

/// The first stored result that is not what is defined for the texts of the base, in the order of the base; None where all are.
pub fn first_stale(alloc: Global, base: &Base) -> Result<Option<Key>, Memory>
    requires { IsBase base.now }
    ensures first { IfOk result (FirstStale (texts_in base.now) base.now.results) }
    ensures none { IfOk result (λ o. IsNone o ↔ IsSaved base.now) }
{
    let mut plain = over_texts(alloc, base.modules.as_slice())?;
    let mut rest = base.results.as_slice();
    while let [stored, more @ ..] = rest {
        let stale = is_stale(alloc, &mut plain, stored)?;
        if stale {
            let key = key_of(stored)?;
            return Ok(Some(key));
        }
        rest = more;
    }
    Ok(None)
}
