//! The present modules of a session.
ghost use Rattle.std.specs.Prelude.{◌≡◌, ◌++◌, [], length, map, filter, not, bytes_eq, slice_get, IfOk, OnOk, OnErr};
ghost use Rattle.std.specs.Option.{option_copied, option_map};
ghost use Rattle.f77_ast.specs.PlainDecl.{parsed_tree};
ghost use Rattle.f77_ast.specs.Symbols.{symbol_tree, number_from};
ghost use Rattle.call_graph.specs.Faults.{Gives};
ghost use Rattle.pipsmake_rules.specs.Neighbours.{has_name, name_put};
ghost use Rattle.pipsmake_meaning.specs.Texts.{AreModules, names_in, trees_in, tables_in, text_of, links_in};
ghost use Rattle.pipsmake_meaning.specs.Definitions.{module_named};
ghost use Rattle.session_texts.specs.Modules.{text_record, source_text, AreSources, NamesDiffer};
ghost use Rattle.session_texts.specs.Changes.{replaced, without};
ghost use Rattle.session_texts.specs.Places.{place_for, places_from, names_after};

use crate::laws::replacing_none;
use crate::lists::Lists;
use crate::source::{ModuleText, Source};
use call_graph::{Graph, LinkRefusal, link};
use f77_ast::{Parsed, Symbols};
use f77_parser::ModuleTrees;
use fx_lists::{List, Text};
use std::alloc::{AllocError as Memory, Global};
use std::marker::Model;
use tracked_cells::Names;

/// Modules in the order in which their names were first seen, with their texts, trees and tables of symbols. Contracts see the texts, with names and first
/// lines; each is the module of its name, alone, and no name is there twice. A name is looked up in constant time.
#[derive(Drop)]
pub struct Sources {
    names: Names,
    lists: Lists,
}

impl Model for Sources {
    ghost use Rattle.std.specs.Prelude.{List, map};
    ghost use Rattle.pipsmake_meaning.specs.Texts.{ModuleText};
    ghost use Rattle.session_texts.specs.Modules.{text_record};
    ghost use Rattle.session_texts.specs.Kept.{AreKept};

    ghost Value = { List ModuleText };

    ghost view = { λ s. map text_record s.lists.texts };

    ghost invariant = { λ s. AreKept (map text_record s.lists.texts) s.names s.lists.trees s.lists.tables };
}

/// The same names.
fn copy_names(alloc: Global, names: &[Text]) -> Result<Names, Memory>
    ensures { IfOk result (λ copy. copy ≡ names.now) }
{
    let mut copy = Names::new(alloc);
    for name in names {
        copy.push(alloc, name)?;
    }
    Ok(copy)
}

/// All names but this.
fn names_without(alloc: Global, names: &[Text], name: &Text) -> Result<Names, Memory>
    ensures { IfOk result (λ left. left ≡ filter (λ y. not (bytes_eq y name.now)) names.now) }
{
    let mut left = Names::new(alloc);
    let mut rest = names;
    while let [other, more @ ..] = rest {
        if other != name {
            left.push(alloc, other)?;
        }
        rest = more;
    }
    Ok(left)
}

/// The place of a name, from 0, which is added at the end where it is new.
#[tactic(auto, using(crate::proofs::Removed::placed))]
fn place_for(alloc: Global, names: &mut Names, name: &Text) -> Result<usize, Memory>
    ensures place { IfOk result (λ at. at ≡ place_for names.old name.now) }
    ensures names { OnOk result (names.new ≡ name_put name.now names.old) }
{
    match names.place(name) {
        Some(place) => Ok(place as usize),
        None => {
            let place = names.names().len();
            names.push(alloc, name)?;
            Ok(place)
        }
    }
}

/// The places of the names of modules, which are added at the end where they are new.
fn places_from(alloc: Global, names: &mut Names, sources: &[Source]) -> Result<List<usize>, Memory>
    ensures places { IfOk result (λ places. places ≡ places_from names.old (names_in (map source_text sources.now))) }
    ensures names { OnOk result (names.new ≡ names_after names.old (names_in (map source_text sources.now))) }
{
    let mut places = List::new(alloc);
    let mut rest = sources;
    while let [source, more @ ..] = rest {
        places.push(place_for(alloc, names, &source.text.name)?)?;
        rest = more;
    }
    Ok(places)
}

impl Sources {
    /// No modules. Takes no memory.
    #[tactic(auto, using(crate::proofs::Keeping::nothing_kept))]
    pub fn new(alloc: Global) -> Sources
        ensures { result ≡ [] }
    {
        Sources {
            names: Names::new(alloc),
            lists: Lists::new(alloc),
        }
    }

    /// The names, in the order of the modules.
    pub fn names(&self) -> &[Text]
        ensures names { result.now ≡ names_in self.now }
        ensures differ { NamesDiffer self.now }
    {
        self.names.names()
    }

    /// The texts, in the order of the modules.
    pub fn texts(&self) -> &[ModuleText]
        ensures texts { map text_record result.now ≡ self.now }
        ensures modules { AreModules self.now }
    {
        self.lists.texts.as_slice()
    }

    /// The trees of the modules, lines counted from the first of each text.
    pub fn trees(&self) -> &ModuleTrees
        ensures { map parsed_tree result.now ≡ trees_in self.now }
    {
        &self.lists.trees
    }

    /// The tables of symbols of the modules.
    pub fn tables(&self) -> &List<Symbols>
        ensures { map (map symbol_tree) result.now ≡ tables_in self.now }
    {
        &self.lists.tables
    }

    /// The place of a module, from 0; None where there is none of this name. Takes constant time.
    pub fn place(&self, name: &Text) -> Option<usize>
        ensures { result ≡ number_from 0 (names_in self.now) name.now }
    {
        match self.names.place(name) {
            None => None,
            Some(place) => Some(place as usize),
        }
    }

    /// The text at a place, from 0.
    pub fn text(&self, at: usize) -> Option<&ModuleText>
        ensures { option_map text_record (option_copied result) ≡ slice_get self.now at }
    {
        self.lists.texts.get(at)
    }

    /// The tree at a place, from 0.
    pub fn parsed(&self, at: usize) -> Option<&Parsed>
        ensures { option_map parsed_tree (option_copied result) ≡ slice_get (trees_in self.now) at }
    {
        self.lists.trees.get(at)
    }

    /// The table of symbols at a place, from 0.
    pub fn symbols(&self, at: usize) -> Option<&Symbols>
        ensures { option_map (map symbol_tree) (option_copied result) ≡ slice_get (tables_in self.now) at }
    {
        self.lists.tables.get(at)
    }

    /// The module text of a name.
    fn held(&self, name: &Text) -> Option<&ModuleText>
        ensures { option_map (λ t. t.text) (option_copied result) ≡ text_of self.now name.now }
    {
        match self.names.place(name) {
            None => None,
            Some(place) => self.lists.texts.get(place as usize),
        }
    }

    /// The text of a name; None where there is no module of this name. Takes constant time, as do the two that follow.
    pub fn text_named(&self, name: &Text) -> Option<&Text>
        ensures { option_copied result ≡ text_of self.now name.now }
    {
        match self.held(name) {
            None => None,
            Some(text) => Some(&text.text),
        }
    }

    /// The tree of the module of a name.
    pub fn parsed_named(&self, name: &Text) -> Option<&Parsed>
        ensures { option_map parsed_tree (option_copied result) ≡ option_map (λ m. m.module_is) (module_named self.now name.now) }
    {
        match self.names.place(name) {
            None => None,
            Some(place) => self.lists.trees.get(place as usize),
        }
    }

    /// The table of symbols of the module of a name.
    pub fn symbols_named(&self, name: &Text) -> Option<&Symbols>
        ensures { option_map (map symbol_tree) (option_copied result) ≡ option_map (λ m. m.table) (module_named self.now name.now) }
    {
        match self.names.place(name) {
            None => None,
            Some(place) => self.lists.tables.get(place as usize),
        }
    }

    /// Each module takes the place of the one of its name, or is added at the end. Err leaves all as it was. Takes time in proportion to the names of all
    /// modules, beside the new ones.
    pub fn replace(&mut self, alloc: Global, found: List<Source>) -> Result<(), Memory>
        requires { AreSources found }
        ensures ok { OnOk result (self.new ≡ replaced self.old (map source_text found)) }
        ensures err { OnErr result (self.new ≡ self.old) }
    {
        let mut names = copy_names(alloc, self.names.names())?;
        let places = places_from(alloc, &mut names, found.as_slice())?;
        let more = Lists::of(alloc, found)?;
        self.lists.put_all(alloc, places.as_slice(), more)?;
        self.names = names;
        Ok(())
    }

    /// The modules are just these, in their order. Err leaves all as it was.
    pub fn replace_all(&mut self, alloc: Global, found: List<Source>) -> Result<(), Memory>
        requires modules { AreSources found }
        requires differ { NamesDiffer (map source_text found) }
        ensures ok { OnOk result (self.new ≡ map source_text found) }
        ensures err { OnErr result (self.new ≡ self.old) }
    {
        replacing_none();
        let mut new = Sources::new(alloc);
        new.replace(alloc, found)?;
        *self = new;
        Ok(())
    }

    /// Removes the module of a name; false where there is none. Err leaves all as it was. Takes time in proportion to the names of all modules.
    pub fn drop_module(&mut self, alloc: Global, name: &Text) -> Result<bool, Memory>
        ensures there { IfOk result (λ there. there ≡ has_name (names_in self.old) name.now) }
        ensures ok { OnOk result (self.new ≡ without name.now self.old) }
        ensures err { OnErr result (self.new ≡ self.old) }
    {
        let Some(place) = self.names.place(name) else {
            return Ok(false);
        };
        let names = names_without(alloc, self.names.names(), name)?;
        self.lists.remove(alloc, place as usize);
        self.names = names;
        Ok(true)
    }

    /// The links of the modules, or the first of what is wrong with them: a place among the modules, a line of the text of that one, and the code.
    pub fn link(&self, alloc: Global) -> Result<Graph, LinkRefusal>
        ensures { Gives result (links_in self.now) }
    {
        link(alloc, &self.lists.trees, &self.lists.tables)
    }
}
