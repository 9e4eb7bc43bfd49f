//! A database over the texts of a base in which nothing of the base is kept: most bases have all results that are needed, and then none is made.
ghost use Rattle.std.specs.Prelude.{◌≡◌, map, IfOk, OnOk};
ghost use Rattle.pipsmake_db.specs.State.{texts_of};
ghost use Rattle.pipsmake_base.specs.Plain.{IsPlain, texts_behind};
ghost use Rattle.pipsmake_base.specs.Taken.{IsInSome};

use crate::source::over_texts;
use base_text::BaseModule;
use pipsmake_db::Db;
use std::alloc::{AllocError as Memory, Global};

/// The modules of a base, and a database over their texts once one was made.
#[derive(Drop)]
pub(crate) struct Plain<'a> {
    pub modules: &'a [BaseModule],
    pub db: Option<Db>,
}

/// The database, taken out or made. Takes time in proportion to the texts where it is made.
pub(crate) fn taken_out(alloc: Global, plain: &mut Plain<'_>) -> Result<Db, Memory>
    requires { IsPlain plain.old }
    ensures modules { plain.new.modules ≡ plain.old.modules }
    ensures texts { IfOk result (λ d. texts_of d ≡ texts_behind plain.old) }
    ensures in_some { IfOk result IsInSome }
{
    match plain.db.take() {
        Some(db) => Ok(db),
        None => over_texts(alloc, plain.modules),
    }
}
