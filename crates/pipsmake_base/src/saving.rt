//! The base that is saved of a database.
ghost use Rattle.std.specs.Prelude.{◌≡◌, IfOk};
ghost use Rattle.base_text.specs.Grammar.{IsBase};
ghost use Rattle.pipsmake_db.specs.pipsmake_meaning.Texts.{names_in};
ghost use Rattle.pipsmake_db.specs.State.{State, IsIn, texts_of};
ghost use Rattle.pipsmake_base.specs.Current.{FreshIsCurrent};
ghost use Rattle.pipsmake_base.specs.Saved.{keys_in, IsSaved};
ghost use Rattle.pipsmake_base.specs.Saving.{stored_keys, saved_base};

use crate::modules::modules_of;
use crate::results::results_of;
use base_text::Base;
use laws_stored::short_texts_are_counted;
use pipsmake_db::Db;
use pipsmake_db::roundtrip_programs::{graphs_ignore_places, tables_ignore_places};
use std::alloc::{AllocError as Memory, Global};

/// What a database holds: its texts in the order in which their names were first seen, and the fresh results of stored kinds, by module and then by kind. Err also
/// where a text has more than 16,777,216 bytes, as none has that was read, and where a fresh result is not kept or does not fit its module: what is saved has the fresh results
/// and is in the grammar from whatever state.
pub fn save(alloc: Global, db: &Db) -> Result<Base, Memory>
    ensures base { IfOk result (λ b. b ≡ saved_base db.now) }
    ensures saved { IfOk result (λ b. (s : State) → IsIn db.now s → FreshIsCurrent s → IsSaved b) }
    ensures keys { IfOk result (λ b. keys_in b ≡ stored_keys db.now.fresh (names_in (texts_of db.now))) }
    ensures grammar { IfOk result IsBase }
{
    tables_ignore_places();
    graphs_ignore_places();
    short_texts_are_counted();
    let sources = db.linked.sources();
    let names = sources.names();
    let modules = modules_of(alloc, sources.texts())?;
    let results = results_of(alloc, db, names)?;
    Ok(Base { modules, results })
}
