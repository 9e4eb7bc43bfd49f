//! Texts that change.
ghost use Rattle.std.specs.Prelude.{◌≡◌, ◌≤◌, length, map, IfOk, IfErr, OnOk, OnErr};
ghost use Rattle.session_texts.specs.pipsmake_meaning.Making.{AllStay};
ghost use Rattle.session_texts.specs.pipsmake_meaning.Texts.{names_in};
ghost use Rattle.result_store.specs.Rows.{memo_cells_of};
ghost use Rattle.session_texts.specs.Modules.{AreSources, NamesDiffer, source_text};
ghost use Rattle.pipsmake_db.specs.Calls.{Replaces, ReplacesAll, Drops, Loses, IsLeft};
ghost use Rattle.pipsmake_db.specs.Puts.{Puts, PutsOnly};
ghost use Rattle.pipsmake_db.specs.Refusals.{IsRefused, name_refusal, text_refusal};
ghost use Rattle.pipsmake_db.specs.State.{texts_of, gone_of};
ghost use Rattle.pipsmake_db.specs.Texts.{AreRead, StandsStill, RestsOnSame, SeesText, ArePlaced, KeepsTexts, TextsStay, ForgetsGone, StaysWithout, StandsWithout};

use crate::db::Db;
use crate::refusal::DbRefusal;
use f77_parser::ParseRefusal;
use fx_lists::{List, Text};
use laws_database::{results_may_go, texts_may_change, texts_may_go, values_may_be_seen};
use result_store::{Item, Store, Value};
use session_texts::pipsmake_rules::Listed;
use session_texts::{Source, Sources, changes_keep_modules, sources_of, texts_after_changes};
use std::alloc::{AllocError as Memory, Global};

/// The text of a module among those that were seen, by its stamp.
#[derive(Drop)]
pub(crate) struct Seen {
    pub name: Text,
    pub stamp: u32,
}

/// The modules of a source text.
fn read(alloc: Global, text: &Text) -> Result<List<Source>, DbRefusal>
    requires { length text.now ≤ 16777216 }
    ensures ok { IfOk result (AreRead text.now) }
    ensures refused { IfErr result (IsRefused (text_refusal text.now)) }
{
    match sources_of(alloc, text) {
        Ok(found) => Ok(found),
        Err(ParseRefusal::At(line, code, keyword)) => Err(DbRefusal::Source(line, code, keyword)),
        Err(ParseRefusal::Memory) => Err(DbRefusal::Memory),
    }
}

/// The names of modules.
fn names_of(alloc: Global, found: &[Source]) -> Result<List<Text>, Memory>
    ensures { IfOk result (λ names. names ≡ names_in (map source_text found.now)) }
{
    let mut names = List::new(alloc);
    let mut rest = found;
    while let [source, more @ ..] = rest {
        names.push(source.text.name.clone()?)?;
        rest = more;
    }
    Ok(names)
}

/// The text of a module is among those that were seen; what is kept stays.
fn see(alloc: Global, store: &mut Store, source: &Source) -> Result<Seen, Memory>
    ensures ok { IfOk result (λ seen. SeesText (memo_cells_of store.old) (source_text source.now) seen (memo_cells_of store.new)) }
    ensures err { OnErr result (AllStay (memo_cells_of store.old) (memo_cells_of store.new)) }
{
    let name = source.text.name.clone()?;
    let text = Value::Source(source.text.text.clone()?);
    let stamp = store.see(alloc, Item::Text, &source.text.name, text)?;
    Ok(Seen { name, stamp })
}

/// The texts of modules are among those that were seen; what is kept stays. On Err some of them may be.
fn see_all(alloc: Global, store: &mut Store, found: &[Source]) -> Result<List<Seen>, Memory>
    ensures stands { StandsStill (memo_cells_of store.old) (memo_cells_of store.new) }
    ensures rests { RestsOnSame (memo_cells_of store.old) (memo_cells_of store.new) }
    ensures placed { IfOk result (λ all. ArePlaced (memo_cells_of store.new) (map source_text found.now) all) }
{
    values_may_be_seen();
    let mut all = List::new(alloc);
    let mut rest = found;
    while let [source, more @ ..] = rest {
        let seen = see(alloc, store, source)?;
        all.push(seen)?;
        rest = more;
    }
    Ok(all)
}

/// Texts that were seen are kept, each as the one of its name. Takes no memory.
fn keep_all(alloc: Global, store: &mut Store, all: &[Seen])
    ensures { KeepsTexts (memo_cells_of store.old) all.now (memo_cells_of store.new) }
{
    let mut rest = all;
    while let [seen, more @ ..] = rest {
        store.keep_seen(Item::Text, &seen.name, seen.stamp, List::new(alloc));
        rest = more;
    }
}

/// The same names.
fn copy_names(alloc: Global, names: &[Text]) -> Result<List<Text>, Memory>
    ensures { IfOk result (λ copy. copy ≡ names.now) }
{
    let mut copy = List::new(alloc);
    let mut rest = names;
    while let [name, more @ ..] = rest {
        copy.push(name.clone()?)?;
        rest = more;
    }
    Ok(copy)
}

/// No result is kept of a name that no module has any more. Takes no memory.
fn forget_gone(store: &mut Store, sources: &Sources, name: &Text)
    ensures { ForgetsGone (memo_cells_of store.old) sources.now name.now (memo_cells_of store.new) }
{
    match sources.place(name) {
        None => store.forget(name),
        Some(_) => {}
    }
}

/// No result is kept of those of these names that no module has any more. Takes no memory.
fn forget_all(store: &mut Store, sources: &Sources, names: &[Text])
    ensures texts { TextsStay (memo_cells_of store.old) (memo_cells_of store.new) }
    ensures stands { StandsWithout (memo_cells_of store.old) (gone_of sources.now names.now) (memo_cells_of store.new) }
    ensures stays { StaysWithout (memo_cells_of store.old) (gone_of sources.now names.now) (memo_cells_of store.new) }
{
    results_may_go();
    let mut rest = names;
    while let [name, more @ ..] = rest {
        forget_gone(store, sources, name);
        rest = more;
    }
}

impl Db {
    /// Each of these modules takes the place of the one of its name, or is added at the end; their names. Nothing is fresh then.
    pub fn put(&mut self, alloc: Global, found: List<Source>) -> Result<List<Text>, Memory>
        requires modules { AreSources found }
        requires differ { NamesDiffer (map source_text found) }
        ensures ok { IfOk result (Puts self.old self.new (map source_text found)) }
        ensures err { OnErr result (Loses self.old self.new) }
    {
        texts_may_change();
        texts_after_changes();
        changes_keep_modules();
        let names = names_of(alloc, found.as_slice())?;
        let seen = see_all(alloc, &mut self.store, found.as_slice())?;
        self.linked.put(alloc, found)?;
        keep_all(alloc, &mut self.store, seen.as_slice());
        self.fresh = Listed::new(alloc);
        Ok(names)
    }

    /// The modules are just these; their names.
    fn put_only(&mut self, alloc: Global, found: List<Source>) -> Result<List<Text>, Memory>
        requires modules { AreSources found }
        requires differ { NamesDiffer (map source_text found) }
        ensures ok { IfOk result (PutsOnly self.old self.new (map source_text found)) }
        ensures err { OnErr result (Loses self.old self.new) }
    {
        texts_may_change();
        texts_may_go();
        texts_after_changes();
        changes_keep_modules();
        let names = names_of(alloc, found.as_slice())?;
        let before = copy_names(alloc, self.linked.sources().names())?;
        let seen = see_all(alloc, &mut self.store, found.as_slice())?;
        self.linked.put_only(alloc, found)?;
        forget_all(&mut self.store, self.linked.sources(), before.as_slice());
        keep_all(alloc, &mut self.store, seen.as_slice());
        self.fresh = Listed::new(alloc);
        Ok(names)
    }

    /// Each module of a source text takes the place of the one of its name, or is added at the end; their names. Nothing is fresh then. Refused where the text
    /// is not accepted. A text has at most 16,777,216 bytes.
    pub fn replace(&mut self, alloc: Global, text: &Text) -> Result<List<Text>, DbRefusal>
        requires { length text.now ≤ 16777216 }
        ensures ok { IfOk result (Replaces self.old self.new text.now) }
        ensures refused { IfErr result (IsRefused (text_refusal text.now)) }
        ensures left { IfErr result (IsLeft self.old self.new) }
    {
        match read(alloc, text) {
            Ok(found) => match self.put(alloc, found) {
                Ok(names) => Ok(names),
                Err(_) => Err(DbRefusal::Memory),
            },
            Err(refusal) => Err(refusal),
        }
    }

    /// The modules are just those of a source text, in its order; their names. The results that are kept of other modules go, and nothing is fresh then.
    /// Refused as by `replace`.
    pub fn replace_all(&mut self, alloc: Global, text: &Text) -> Result<List<Text>, DbRefusal>
        requires { length text.now ≤ 16777216 }
        ensures ok { IfOk result (ReplacesAll self.old self.new text.now) }
        ensures refused { IfErr result (IsRefused (text_refusal text.now)) }
        ensures left { IfErr result (IsLeft self.old self.new) }
    {
        match read(alloc, text) {
            Ok(found) => match self.put_only(alloc, found) {
                Ok(names) => Ok(names),
                Err(_) => Err(DbRefusal::Memory),
            },
            Err(refusal) => Err(refusal),
        }
    }

    /// The module of a name goes, and the results that are kept of it. Nothing is fresh then. Refused where there is no module of the name.
    pub fn drop_module(&mut self, alloc: Global, name: &Text) -> Result<(), DbRefusal>
        ensures ok { OnOk result (Drops self.old self.new name.now) }
        ensures refused { IfErr result (IsRefused (name_refusal (texts_of self.old) name.now)) }
        ensures left { IfErr result (IsLeft self.old self.new) }
    {
        results_may_go();
        texts_may_go();
        texts_after_changes();
        changes_keep_modules();
        if !self.linked.remove(alloc, name)? {
            return Err(DbRefusal::NoSuchName);
        }
        self.store.forget(name);
        self.fresh = Listed::new(alloc);
        Ok(())
    }
}
