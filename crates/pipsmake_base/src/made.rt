//! Results that are made by a database for what they are defined to be.
ghost use Rattle.std.specs.Prelude.{◌≡◌, IfOk, OnOk};
ghost use Rattle.pipsmake_db.specs.pipsmake_rules.Kinds.{name_of};
ghost use Rattle.pipsmake_db.specs.State.{texts_of};
ghost use Rattle.pipsmake_base.specs.Made.{IsTold, IsMade};
ghost use Rattle.pipsmake_base.specs.Taken.{IsInSome};

use fx_lists::Text;
use pipsmake_db::pipsmake_rules::Kind;
use pipsmake_db::roundtrip_programs::{graphs_ignore_places, tables_ignore_places};
use pipsmake_db::{Db, DbRefusal};
use std::alloc::{AllocError as Memory, Global};

/// The name of a kind.
fn word_of(alloc: Global, kind: Kind) -> Result<Text, Memory>
    ensures { IfOk result (λ word. word ≡ name_of kind) }
{
    Text::from_bytes(alloc, kind.name().as_bytes())
}

/// That there is no result; Err for want of memory.
fn no_result(refusal: DbRefusal) -> Result<bool, Memory>
    ensures { IfOk result (IsTold refusal) }
{
    match refusal {
        DbRefusal::NoSuchKind => Ok(false),
        DbRefusal::NoSuchName => Ok(false),
        DbRefusal::NotShown => Ok(false),
        DbRefusal::Source(_, _, _) => Ok(false),
        DbRefusal::Link(_, _, _, _) => Ok(false),
        DbRefusal::Memory => Err(Memory),
    }
}

/// A result is kept as it is defined; false where it cannot be made.
pub(crate) fn made(alloc: Global, db: &mut Db, kind: Kind, name: &Text) -> Result<bool, Memory>
    requires { IsInSome db.old }
    ensures is { IfOk result (IsMade db.old db.new kind name.now) }
    ensures texts { OnOk result (texts_of db.new ≡ texts_of db.old) }
    ensures in_some { OnOk result (IsInSome db.new) }
{
    tables_ignore_places();
    graphs_ignore_places();
    let word = word_of(alloc, kind)?;
    match db.make(alloc, &word, name) {
        Ok(_) => Ok(true),
        Err(refusal) => no_result(refusal),
    }
}
