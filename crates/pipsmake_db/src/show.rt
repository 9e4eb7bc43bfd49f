//! Results that are shown.
ghost use Rattle.std.specs.Prelude.{◌≡◌, None, IfOk, IfErr, OnErr, map};
ghost use Rattle.f77_ast.specs.Symbols.{symbol_tree};
ghost use Rattle.session_texts.specs.pipsmake_meaning.Definitions.{module_named};
ghost use Rattle.laws_database.specs.Laws.{walk_in};
ghost use Rattle.session_texts.specs.pipsmake_meaning.MemoCells.{kept_of};
ghost use Rattle.result_store.specs.Rows.{memo_cells_of};
ghost use Rattle.pipsmake_db.specs.Bring.{BringsSome};
ghost use Rattle.pipsmake_db.specs.Calls.{ShowsNamed, ShowsLinked, IsLeft, key};
ghost use Rattle.pipsmake_db.specs.Kept.{text_kept, IsShown};
ghost use Rattle.pipsmake_db.specs.Links.{AreLinks};
ghost use Rattle.pipsmake_db.specs.Refusals.{IsRefused, or_else, owner_refusal, show_refusal, links_refusal, value_refusal};
ghost use Rattle.pipsmake_db.specs.Shown.{json_line, json_with};
ghost use Rattle.pipsmake_db.specs.State.{texts_of, memo_cells_in};

use crate::asked::{is_shown, kind_asked};
use crate::db::{Db, Shown};
use crate::linked::Links;
use crate::make::Brought;
use crate::refusal::DbRefusal;
use crate::stored::stored_of;
use base_values::{StoredValue, value_text};
use f77_ast::Symbols;
use fx_lists::Text;
use laws_database::{making_may_stop, resting_stays, texts_are_shown};
use result_lines::Show;
use result_making::{Modules, shown};
use result_store::{Item, Store};
use session_texts::Sources;
use session_texts::pipsmake_rules::Kind;
use std::alloc::{AllocError as Memory, Global};

/// The JSON of a value of a stored kind, as a line.
#[tactic(auto, using(crate::proofs::ShowLaws::names_are))]
fn json_line(alloc: Global, symbols: &Symbols, value: &StoredValue) -> Result<Text, Memory>
    ensures { IfOk result (λ t. t ≡ json_line (map symbol_tree symbols.now) value.now) }
{
    let mut text = value_text(alloc, symbols, value)?;
    text.push(b'\n')?;
    Ok(text)
}

/// The JSON of what is kept of a kind and a module.
fn json_kept(
    alloc: Global,
    sources: &Sources,
    store: &Store,
    kind: Kind,
    name: &Text,
) -> Result<Option<Text>, Memory>
    ensures { IfOk result (λ t. t ≡ json_with (module_named sources.now name.now) (kept_of (memo_cells_of store.now) kind name.now)) }
{
    let Some(symbols) = sources.symbols_named(name) else {
        return Ok(None);
    };
    let Some(value) = store.value(Item::Result(kind), name) else {
        return Ok(None);
    };
    let Some(stored) = stored_of(alloc, value)? else {
        return Ok(None);
    };
    let line = json_line(alloc, symbols, &stored)?;
    Ok(Some(line))
}

/// The text that shows what is kept.
pub(crate) fn text_kept(
    alloc: Global,
    modules: &Modules<'_>,
    store: &Store,
    kind: Kind,
    name: &Text,
    show: Show,
) -> Result<Option<Text>, Memory>
    ensures { IfOk result (λ t. t ≡ text_kept (memo_cells_of store.now) modules.now.sources.now show kind name.now) }
{
    match kind {
        Kind::Parsed | Kind::Lines | Kind::Symbols | Kind::CallGraph => Ok(None),
        Kind::Printed => shown(alloc, modules, store, name, show),
        Kind::Effects
        | Kind::Transformers
        | Kind::Preconditions
        | Kind::Regions
        | Kind::InRegions
        | Kind::OutRegions
        | Kind::Marks => json_kept(alloc, modules.sources, store, kind, name),
    }
}

/// What was brought up to date, and the text that shows it.
#[derive(Drop)]
struct Ready {
    brought: Brought,
    text: Text,
}

impl Db {
    /// A result is brought up to date and shown; what is fresh then is not kept yet. On Err some of what it needs was brought up to date.
    fn ready(
        &mut self,
        alloc: Global,
        links: &Links,
        kind: Kind,
        name: &Text,
        show: Show,
    ) -> Result<Ready, Memory>
        requires { AreLinks links.now (texts_of self.old) }
        ensures texts { texts_of self.new ≡ texts_of self.old }
        ensures fresh { self.new.fresh ≡ self.old.fresh }
        ensures ok { IfOk result (IsShown self.old kind name.now show self.new) }
        ensures err { OnErr result (BringsSome (memo_cells_in self.old) (texts_of self.old) (walk_in (texts_of self.old) (key kind name.now)) (memo_cells_in self.new)) }
    {
        let brought = self.brought(alloc, links, kind, name)?;
        let modules = Modules {
            sources: self.linked.sources(),
            graph: &links.graph,
            linked: links.linked,
        };
        match text_kept(alloc, &modules, &self.store, kind, name, show)? {
            Some(text) => Ok(Ready { brought, text }),
            None => Err(Memory),
        }
    }

    /// A result of an owner is brought up to date, with all that it needs, and shown.
    fn value_of(
        &mut self,
        alloc: Global,
        kind: Kind,
        name: &Text,
        show: Show,
    ) -> Result<Shown, DbRefusal>
        requires owned { owner_refusal (texts_of self.old) kind name.now ≡ None }
        requires shown { show_refusal kind ≡ None }
        ensures ok { IfOk result (ShowsLinked self.old self.new kind name.now show) }
        ensures refused { IfErr result (IsRefused (links_refusal (texts_of self.old) kind)) }
        ensures left { IfErr result (IsLeft self.old self.new) }
    {
        making_may_stop();
        resting_stays();
        texts_are_shown();
        let links = self.linked.links(alloc, kind)?;
        let done = self.ready(alloc, &links, kind, name, show);
        self.linked.give_back(links);
        match done {
            Ok(ready) => {
                let Ready { brought, text } = ready;
                let Brought { made, fresh } = brought;
                self.fresh = fresh;
                Ok(Shown { made, text })
            }
            Err(_) => Err(DbRefusal::Memory),
        }
    }

    /// A result of an owner is shown, where its kind is.
    fn shown_of(
        &mut self,
        alloc: Global,
        kind: Kind,
        name: &Text,
        show: Show,
    ) -> Result<Shown, DbRefusal>
        requires { owner_refusal (texts_of self.old) kind name.now ≡ None }
        ensures ok { IfOk result (λ s. (show_refusal kind ≡ None) × ShowsLinked self.old self.new kind name.now show s) }
        ensures refused { IfErr result (IsRefused (or_else (show_refusal kind) (links_refusal (texts_of self.old) kind))) }
        ensures left { IfErr result (IsLeft self.old self.new) }
    {
        if !is_shown(kind) {
            return Err(DbRefusal::NotShown);
        }
        self.value_of(alloc, kind, name, show)
    }

    /// The result of a kind and a module, by their names, is brought up to date as by `make`, and shown: PRINTED as the written text of the module, with what
    /// `show` adds to it, stored kinds as a line of JSON. Refused as by `make`, and of a kind that is not shown, which is said before texts are linked.
    /// Want of memory is said also where what was stored does not fit the texts.
    pub fn value(
        &mut self,
        alloc: Global,
        kind: &Text,
        name: &Text,
        show: Show,
    ) -> Result<Shown, DbRefusal>
        ensures ok { IfOk result (ShowsNamed self.old self.new kind.now name.now show) }
        ensures refused { IfErr result (IsRefused (value_refusal (texts_of self.old) kind.now name.now)) }
        ensures left { IfErr result (IsLeft self.old self.new) }
    {
        match kind_asked(&self.linked, kind, name) {
            Ok(kind) => self.shown_of(alloc, kind, name, show),
            Err(refusal) => Err(refusal),
        }
    }
}
