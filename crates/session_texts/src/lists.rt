//! Texts, trees and tables of modules, in one order.
ghost use Rattle.std.specs.Prelude.{◌≡◌, ◌+◌, ◌<◌, ◌≤◌, ◌++◌, ◌∷◌, [], length, vec_len, vec_capacity, is_ok, if◌then◌else◌, IfOk, OnOk};
ghost use Rattle.session_texts.specs.Places.{put_at, all_put};
ghost use Rattle.session_texts.specs.Lists.{own_texts, own_trees, own_tables, lists_in, HasRoom, all_placed, all_but};

use crate::source::{ModuleText, Source};
use f77_ast::{Parsed, Symbols};
use f77_parser::ModuleTrees;
use f77_structure::stack_of;
use fx_lists::List;
use std::alloc::{AllocError as Memory, Global};
use std::mem::replace;

/// The texts, the trees and the tables of symbols of the same modules.
#[derive(Drop)]
pub struct Lists {
    pub texts: List<ModuleText>,
    pub trees: ModuleTrees,
    pub tables: List<Symbols>,
}

/// The same, where room can be reserved.
#[derive(Drop)]
pub struct Rooms {
    texts: Vec<ModuleText>,
    trees: Vec<Parsed>,
    tables: Vec<Symbols>,
}

impl Lists {
    /// No modules. Takes no memory.
    pub fn new(alloc: Global) -> Lists
        ensures { result ≡ record { texts = []; trees = []; tables = [] } }
    {
        Lists {
            texts: List::new(alloc),
            trees: List::new(alloc),
            tables: List::new(alloc),
        }
    }

    /// Adds a module at the end.
    fn push(&mut self, source: Source) -> Result<(), Memory>
        ensures texts { OnOk result (self.new.texts ≡ self.old.texts ++ source.text ∷ []) }
        ensures trees { OnOk result (self.new.trees ≡ self.old.trees ++ source.parsed ∷ []) }
        ensures tables { OnOk result (self.new.tables ≡ self.old.tables ++ source.symbols ∷ []) }
    {
        let Source {
            text,
            parsed,
            symbols,
        } = source;
        self.texts.push(text)?;
        self.trees.push(parsed)?;
        self.tables.push(symbols)?;
        Ok(())
    }

    /// The texts, the trees and the tables of modules.
    pub fn of(alloc: Global, sources: List<Source>) -> Result<Lists, Memory>
        ensures texts { IfOk result (λ lists. lists.texts ≡ own_texts sources) }
        ensures trees { IfOk result (λ lists. lists.trees ≡ own_trees sources) }
        ensures tables { IfOk result (λ lists. lists.tables ≡ own_tables sources) }
    {
        let mut lists = Lists::new(alloc);
        let mut rest = stack_of(sources);
        while let Some(source) = rest.pop() {
            lists.push(source)?;
        }
        Ok(lists)
    }

    fn into_rooms(self) -> Rooms
        ensures { lists_in result ≡ self }
    {
        let Lists {
            texts,
            trees,
            tables,
        } = self;
        Rooms {
            texts: texts.into_vec(),
            trees: trees.into_vec(),
            tables: tables.into_vec(),
        }
    }

    /// Puts modules at places, one after another; a place past the last means the end. Err leaves all as it was.
    pub fn put_all(&mut self, alloc: Global, places: &[usize], more: Lists) -> Result<(), Memory>
        ensures { self.new ≡ (if is_ok result then all_placed places.now more self.old else self.old) }
    {
        let mut rooms = replace(self, Lists::new(alloc)).into_rooms();
        let done = rooms.put_all(places, more);
        *self = rooms.into_lists();
        done
    }

    /// Removes the module at a place, from 0.
    pub fn remove(&mut self, alloc: Global, at: usize)
        requires texts { at < length self.old.texts }
        requires trees { at < length self.old.trees }
        requires tables { at < length self.old.tables }
        ensures { self.new ≡ all_but at self.old }
    {
        let rooms = replace(self, Lists::new(alloc)).into_rooms();
        *self = rooms.without(at).into_lists();
    }
}

impl Rooms {
    fn into_lists(self) -> Lists
        ensures { result ≡ lists_in self }
    {
        let Rooms {
            texts,
            trees,
            tables,
        } = self;
        Lists {
            texts: List::from_vec(texts),
            trees: List::from_vec(trees),
            tables: List::from_vec(tables),
        }
    }

    /// Makes room for so many more.
    fn reserve(&mut self, count: usize) -> Result<(), Memory>
        ensures same { lists_in self.new ≡ lists_in self.old }
        ensures ok { OnOk result (HasRoom count self.new) }
    {
        self.texts.reserve(count)?;
        self.trees.reserve(count)?;
        self.tables.reserve(count)?;
        Ok(())
    }

    /// Puts modules at places where there is room for them. Takes no memory.
    fn fill(&mut self, places: &[usize], more: Lists)
        requires { HasRoom (length places.now) self.old }
        ensures { lists_in self.new ≡ all_placed places.now more (lists_in self.old) }
    {
        let Lists {
            texts,
            trees,
            tables,
        } = more;
        put_all(&mut self.texts, places, texts);
        put_all(&mut self.trees, places, trees);
        put_all(&mut self.tables, places, tables);
    }

    /// Puts modules at places. Err leaves all as it was.
    fn put_all(&mut self, places: &[usize], more: Lists) -> Result<(), Memory>
        ensures { lists_in self.new ≡ (if is_ok result then all_placed places.now more (lists_in self.old) else lists_in self.old) }
    {
        self.reserve(places.len())?;
        self.fill(places, more);
        Ok(())
    }

    fn without(mut self, at: usize) -> Rooms
        requires texts { at < length self.texts.items }
        requires trees { at < length self.trees.items }
        requires tables { at < length self.tables.items }
        ensures { lists_in result ≡ all_but at (lists_in self) }
    {
        let _ = self.texts.remove(at);
        let _ = self.trees.remove(at);
        let _ = self.tables.remove(at);
        self
    }
}

/// Puts an element at a place, or at the end where the place is past it. Takes no memory.
#[tactic(auto, using(crate::proofs::PutAt::put_steps))]
fn put<T: Drop>(items: &mut Vec<T>, at: usize, item: T)
    requires room { vec_len items.old < vec_capacity items.old }
    ensures items { items.new.items ≡ put_at at item items.old.items }
    ensures grown { vec_len items.new ≤ vec_len items.old + 1 }
    ensures capacity { vec_capacity items.new ≡ vec_capacity items.old }
{
    if at < items.len() {
        items[at] = item;
    } else {
        items.push_reserved(item);
    }
}

/// Puts elements at places, one after another. Takes no memory.
fn put_all<T: Drop>(items: &mut Vec<T>, places: &[usize], more: List<T>)
    requires room { vec_len items.old + length places.now ≤ vec_capacity items.old }
    ensures { items.new.items ≡ all_put places.now more items.old.items }
{
    let mut left = places;
    let mut rest = stack_of(more);
    while let [at, later @ ..] = left {
        let Some(item) = rest.pop() else {
            return;
        };
        put(items, *at, item);
        left = later;
    }
}
