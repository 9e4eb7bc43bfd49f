//! The database of a session.
ghost use Rattle.std.specs.Prelude.{◌≡◌, None, OnOk, IfErr};
ghost use Rattle.session_texts.specs.pipsmake_meaning.Texts.{names_in};
ghost use Rattle.pipsmake_db.specs.Calls.{Stays};
ghost use Rattle.pipsmake_db.specs.Refusals.{IsRefused, link_refusal};
ghost use Rattle.pipsmake_db.specs.State.{first_state, texts_of, IsIn};

use crate::linked::Linked;
use crate::refusal::DbRefusal;
use fx_lists::{List, Text};
use laws_database::nothing_stands;
use result_store::Store;
use session_texts::pipsmake_rules::{Key, Listed};
use std::alloc::Global;

/// The texts of a session, what is kept of results, and which results are fresh: those that were asked for, with what they need, since a text changed last.
/// What holds of these parts together is said of each state that a database is in.
#[derive(Drop)]
pub struct Db {
    pub linked: Linked,
    pub store: Store,
    pub fresh: Listed,
}

/// A result that is shown.
#[derive(Drop)]
pub struct Shown {
    /// The results that were made for it, in order.
    pub made: List<Key>,
    pub text: Text,
}

impl Db {
    /// No texts, and nothing is kept. Takes no memory.
    pub fn new(alloc: Global) -> Db
        ensures { IsIn result first_state }
    {
        nothing_stands();
        Db {
            linked: Linked::new(alloc),
            store: Store::new(alloc),
            fresh: Listed::new(alloc),
        }
    }

    /// The names of the modules, in the order in which they were first seen.
    pub fn names(&self) -> &[Text]
        ensures { result.now ≡ names_in (texts_of self.now) }
    {
        self.linked.sources().names()
    }

    /// That the texts link. Err is the refusal that says what is wrong; without a main program, also without any module, that is code 50.
    pub fn link(&mut self, alloc: Global) -> Result<(), DbRefusal>
        ensures ok { OnOk result (link_refusal (texts_of self.old) ≡ None) }
        ensures refused { IfErr result (IsRefused (link_refusal (texts_of self.old))) }
        ensures same { Stays self.old self.new }
    {
        self.linked.check(alloc)
    }
}
