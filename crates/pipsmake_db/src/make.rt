//! Results that are made.
ghost use Rattle.std.specs.Prelude.{◌≡◌, None, IfOk, IfErr, OnErr};
ghost use Rattle.pipsmake_db.specs.Bring.{BringsSome, Brought as IsBrought, IsWalk};
ghost use Rattle.pipsmake_db.specs.Calls.{Makes, MakesNamed, IsLeft, MakesLinked, key};
ghost use Rattle.pipsmake_db.specs.Links.{AreLinks};
ghost use Rattle.pipsmake_db.specs.Refusals.{IsRefused, owner_refusal, links_refusal, make_refusal};
ghost use Rattle.pipsmake_db.specs.State.{texts_of, memo_cells_in};
ghost use Rattle.laws_database.specs.Laws.{walk_in};

use crate::asked::kind_asked;
use crate::bring::bring_all;
use crate::db::Db;
use crate::fresh::with_walk;
use crate::linked::Links;
use crate::refusal::DbRefusal;
use fx_lists::{List, Text};
use laws_database::{making_may_stop, resting_stays};
use result_making::Modules;
use session_texts::pipsmake_rules::{Key, Kind, Listed, walk};
use std::alloc::{AllocError as Memory, Global};

/// A result with all that it needs, and what is fresh when it is up to date.
#[derive(Drop)]
pub(crate) struct Walk {
    pub keys: List<Key>,
    pub fresh: Listed,
}

/// Results that were made, and what is fresh then.
#[derive(Drop)]
pub(crate) struct Brought {
    pub made: List<Key>,
    pub fresh: Listed,
}

impl Db {
    /// The walk of a result.
    fn walk(&self, alloc: Global, links: &Links, kind: Kind, name: &Text) -> Result<Walk, Memory>
        requires { AreLinks links.now (texts_of self.now) }
        ensures { IfOk result (λ w. IsWalk (texts_of self.now) self.now.fresh (key kind name.now) w) }
    {
        if links.graph.order.len() >= 4_294_967_296 {
            return Err(Memory);
        }
        let names = self.linked.sources().names();
        let keys = walk(alloc, names, &links.graph, kind, name)?;
        let fresh = with_walk(alloc, &self.fresh, keys.as_slice())?;
        Ok(Walk { keys, fresh })
    }

    /// A result is brought up to date, with all that it needs; what is fresh then is not kept yet. On Err some of what it needs was.
    pub(crate) fn brought(
        &mut self,
        alloc: Global,
        links: &Links,
        kind: Kind,
        name: &Text,
    ) -> Result<Brought, Memory>
        requires { AreLinks links.now (texts_of self.old) }
        ensures texts { texts_of self.new ≡ texts_of self.old }
        ensures fresh { self.new.fresh ≡ self.old.fresh }
        ensures ok { IfOk result (λ b. IsBrought self.old (key kind name.now) self.new b) }
        ensures err { OnErr result (BringsSome (memo_cells_in self.old) (texts_of self.old) (walk_in (texts_of self.old) (key kind name.now)) (memo_cells_in self.new)) }
    {
        let Walk { keys, fresh } = self.walk(alloc, links, kind, name)?;
        let modules = Modules {
            sources: self.linked.sources(),
            graph: &links.graph,
            linked: links.linked,
        };
        let made = bring_all(alloc, &modules, &mut self.store, keys.as_slice())?;
        Ok(Brought { made, fresh })
    }

    /// A result of an owner is brought up to date, with all that it needs; the results that were made, in order. Refused where the texts do not link, unless the
    /// kind needs no links. What a refusal leaves is as after `make`.
    pub fn make_of(
        &mut self,
        alloc: Global,
        kind: Kind,
        name: &Text,
    ) -> Result<List<Key>, DbRefusal>
        requires { owner_refusal (texts_of self.old) kind name.now ≡ None }
        ensures ok { IfOk result (MakesLinked self.old self.new (key kind name.now)) }
        ensures refused { IfErr result (IsRefused (links_refusal (texts_of self.old) kind)) }
        ensures left { IfErr result (IsLeft self.old self.new) }
    {
        making_may_stop();
        resting_stays();
        let links = self.linked.links(alloc, kind)?;
        let done = self.brought(alloc, &links, kind, name);
        self.linked.give_back(links);
        match done {
            Ok(brought) => {
                let Brought { made, fresh } = brought;
                self.fresh = fresh;
                Ok(made)
            }
            Err(_) => Err(DbRefusal::Memory),
        }
    }

    /// The result of a kind and a module, by their names, is brought up to date, and before it all that it needs; the results that were made, in order.
    /// Refused is a name of no kind, then a name of no module (the graph has the name `*`), then texts that do not link, unless the kind needs no links.
    /// After want of memory some of what is needed may have been made; after another refusal all is as it was.
    pub fn make(&mut self, alloc: Global, kind: &Text, name: &Text) -> Result<List<Key>, DbRefusal>
        ensures ok { IfOk result (MakesNamed self.old self.new kind.now name.now) }
        ensures refused { IfErr result (IsRefused (make_refusal (texts_of self.old) kind.now name.now)) }
        ensures left { IfErr result (IsLeft self.old self.new) }
    {
        match kind_asked(&self.linked, kind, name) {
            Ok(kind) => self.make_of(alloc, kind, name),
            Err(refusal) => Err(refusal),
        }
    }
}
