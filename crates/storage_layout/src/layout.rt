//! The symbols of a module, from what was laid out.
ghost use Rattle.std.specs.Prelude.{◌≡◌, ℕ, [], None, is_some, map, nat_eq};
ghost use Rattle.std.specs.HashMap.{get};
ghost use Rattle.f77_names.specs.Entries.{entry_tree};
ghost use Rattle.storage_data.specs.declared.offset_node.Home.TheVariants.{Own};
ghost use Rattle.storage_data.specs.OffsetNodes.{lowest_from};
ghost use Rattle.storage_layout.specs.Groups.{groups_from, some_keeps};

use crate::numbering::{Numbering, kept_groups};
use crate::table::{bounds_in, scalar_of};
use f77_ast::{Place, Symbol, Symbols};
use f77_names::{Entry, NameTable};
use fx_lists::{List, Text};
use std::alloc::{AllocError as Memory, Global};
use std::collections::HashMap;
use storage_data::{Groups, Home, OffsetNode, Piece, as_count, initial_of};

/// What the table of symbols is made of: the names, their offset nodes, the names of the blocks, the pieces of DATA, and whether there
/// is a SAVE without a list. Computed from these: the storage groups of locals, those that SAVE or DATA names, and the lowest
/// offset of each.
#[derive(Drop)]
pub struct Layout<'a> {
    pub table: &'a NameTable,
    pub offset_nodes: &'a Groups,
    pub names: &'a List<Text>,
    pub pieces: &'a List<Piece>,
    pub save_all: bool,
    groups: Numbering,
    kept: HashMap<u32, bool>,
    lows: HashMap<u32, i64>,
    ghost numbered: { groups ≡ groups_from 0 (map entry_tree table.now.names) offset_nodes.now [] },
    ghost keeping: { (h : ℕ) → is_some (get nat_eq kept h) ≡ some_keeps h 0 (map entry_tree table.now.names) offset_nodes.now },
    ghost least: { (h : ℕ) → get nat_eq lows h ≡ lowest_from None (Own h) offset_nodes.now },
}

impl<'a> Layout<'a> {
    ghost use Rattle.std.specs.Prelude.{◌≡◌, IfOk};
    ghost use Rattle.f77_ast.specs.Symbols.{symbol_tree};
    ghost use Rattle.f77_names.specs.Entries.{entry_tree};
    ghost use Rattle.storage_data.specs.OffsetNodes.{lowest};
    ghost use Rattle.storage_layout.specs.Table.{entry_place, group_in, home_place, is_kept, is_kept_at, is_saved, place_in, symbol_of, symbols_in};
    ghost use Rattle.storage_layout.specs.Groups.{some_keeps};
    ghost use Rattle.storage_layout.specs.Views.{layout_of, layout_tree};

    /// The layout of these names, offset nodes, blocks, pieces and SAVE. Err also from 2^32 - 1 storage groups on.
    pub fn of(
        alloc: Global,
        table: &'a NameTable,
        offset_nodes: &'a Groups,
        names: &'a List<Text>,
        pieces: &'a List<Piece>,
        save_all: bool,
    ) -> Result<Layout<'a>, Memory>
        ensures { IfOk result
            (λ l. layout_tree l ≡ layout_of table.now offset_nodes.now names.now pieces.now save_all) }
    {
        let entries = table.names.as_slice();
        let groups = Numbering::of(alloc, entries, offset_nodes)?;
        let kept = kept_groups(alloc, entries, offset_nodes)?;
        let lows = offset_nodes.lows(alloc)?;
        Ok(Layout {
            table,
            offset_nodes,
            names,
            pieces,
            save_all,
            groups,
            kept,
            lows,
        })
    }

    fn group(&self, began: u32) -> u32
        ensures { result ≡ group_in (layout_tree self.now) began }
    {
        self.groups.number(began).unwrap_or(0)
    }

    fn low(&self, began: u32) -> i64
        ensures { result ≡ lowest self.now.offset_nodes.now (Own began) }
    {
        self.lows.get(&began).copied().unwrap_or(0)
    }

    fn home_place(&self, alloc: Global, offset: i64, home: Home) -> Result<Place, Memory>
        ensures { IfOk result (λ p. p ≡ home_place (layout_tree self.now) offset home) }
    {
        match home {
            Home::Block(number) => {
                let name = match self.names.get(number as usize) {
                    None => Text::new(alloc),
                    Some(name) => name.clone()?,
                };
                Ok(Place::Block(name, as_count(offset)))
            }
            Home::Own(began) => match offset.checked_sub(self.low(began)) {
                None => Err(Memory),
                Some(behind) => Ok(Place::Local(self.group(began), as_count(behind))),
            },
        }
    }

    fn place_in(&self, alloc: Global, offset_node: Option<OffsetNode>) -> Result<Place, Memory>
        ensures { IfOk result (λ p. p ≡ place_in (layout_tree self.now) offset_node) }
    {
        match offset_node {
            None => Ok(Place::Local(0, 0)),
            Some(offset_node) => self.home_place(alloc, offset_node.offset, offset_node.home),
        }
    }

    fn entry_place(
        &self,
        alloc: Global,
        entry: &Entry,
        offset_node: Option<OffsetNode>,
    ) -> Result<Place, Memory>
        ensures { IfOk result (λ p. p ≡ entry_place (layout_tree self.now) (entry_tree entry.now) offset_node) }
    {
        match (entry.value, entry.dummy) {
            (Some(value), _) => Ok(Place::Constant(i64::from(value.number()))),
            (None, Some(number)) => Ok(Place::Dummy(number)),
            (None, None) => self.place_in(alloc, offset_node),
        }
    }

    fn is_kept(&self, home: Home) -> bool
        ensures { result ≡ is_kept (layout_tree self.now) home }
    {
        match home {
            Home::Block(_) => false,
            Home::Own(began) => self.save_all || self.kept.get(&began).is_some(),
        }
    }

    fn is_saved(&self, entry: &Entry, offset_node: Option<OffsetNode>) -> bool
        ensures { result ≡ is_saved (layout_tree self.now) (entry_tree entry.now) offset_node }
    {
        if entry.value.is_some() || entry.dummy.is_some() {
            return false;
        }
        match offset_node {
            None => false,
            Some(offset_node) => self.is_kept(offset_node.home),
        }
    }

    fn symbol_of(&self, alloc: Global, place: usize, entry: &Entry) -> Result<Symbol, Memory>
        ensures { IfOk result
            (λ s. symbol_tree s ≡ symbol_of (layout_tree self.now) place (entry_tree entry.now)) }
    {
        let offset_node = self.offset_nodes.offset_node(place);
        Ok(Symbol {
            name: entry.name.clone()?,
            scalar: scalar_of(self.table.entry_kind(entry)),
            bounds: bounds_in(alloc, &entry.shape)?,
            place: self.entry_place(alloc, entry, offset_node)?,
            saved: self.is_saved(entry, offset_node),
            initial: initial_of(alloc, entry.initial, place, self.pieces.as_slice())?,
        })
    }

    /// The symbols of the names, in the order of the table of names. Takes time of the names in DATA times the pieces, and the
    /// square of the pieces of one name.
    #[tactic(auto, using(f77_ast::proofs::PlainlyDecl::decl_lists))]
    pub fn symbols_in(&self, alloc: Global) -> Result<Symbols, Memory>
        ensures { IfOk result (λ ss. map symbol_tree ss ≡ symbols_in (layout_tree self.now)) }
    {
        let mut symbols = Symbols::new(alloc);
        for (place, entry) in self.table.names.as_slice().iter().enumerate() {
            symbols.push(alloc, self.symbol_of(alloc, place, entry)?)?;
        }
        Ok(symbols)
    }
}
