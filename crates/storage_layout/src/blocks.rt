//! COMMON blocks: the variables of a block follow one another in storage (ANSI X3.9-1978 §8.3.2).
ghost use Rattle.std.specs.Prelude.{◌≡◌, OnOk, map, slice_get};
ghost use Rattle.f77_ast.specs.PlainDecl.{common_tree, decl_tree, entity_tree};
ghost use Rattle.f77_ast.specs.Symbols.{number_from};
ghost use Rattle.f77_names.specs.Views.{table_tree};

use f77_ast::{CommonPart, Decl, Entity};
use f77_names::NameTable;
use fx_lists::{List, Text};
use std::alloc::{AllocError as Memory, Global};
use storage_data::{Groups, Home, OffsetNode, as_number, as_offset, sum, units_of};

/// The layout so far: the offset nodes of the names, by their places from 0 in the table of names; the names of the blocks in order of
/// first appearance; and how many units each block has.
#[derive(Drop)]
pub struct Laid {
    pub offset_nodes: Groups,
    pub names: List<Text>,
    pub sizes: List<u64>,
}

/// Goes over the blocks: COMMON takes the time of its variables times its blocks.
#[tactic(auto, using(crate::proofs::BlockLaws::place_steps))]
fn block_number(names: &[Text], name: &Text) -> Option<usize>
    ensures { result ≡ number_from 0 names.now name.now }
{
    for (place, known) in names.iter().enumerate() {
        if name == known {
            return Some(place);
        }
    }
    None
}

impl Laid {
    ghost use Rattle.storage_data.specs.Units.{place_of};
    ghost use Rattle.storage_layout.specs.Blocks.{block_number, decl_put, decls_put, member_put, members_put, part_put, parts_put, put_at, put_there, sits_in_block, with_block};

    /// A block is added at the end unless it is there.
    fn add_block(&mut self, block: &Text) -> Result<(), Memory>
        ensures { OnOk result
            (self.new ≡ with_block block.now (block_number self.old.names block.now) self.old) }
    {
        match block_number(self.names.as_slice(), block) {
            Some(_) => Ok(()),
            None => {
                self.names.push(block.clone()?)?;
                self.sizes.push(0)
            }
        }
    }

    /// So many units behind those that a block has.
    #[tactic(auto, using(std::proofs::lemmas::Option::gets))]
    fn put_at(&mut self, units: u64, place: usize, block: usize) -> Result<(), Memory>
        ensures { OnOk result
            (self.new ≡ put_at units place block (slice_get self.old.sizes block) self.old) }
    {
        if self.sizes.len() <= block {
            return Ok(());
        }
        let size = self.sizes.as_slice()[block];
        let number = as_number(block)?;
        let offset = as_offset(size)?;
        self.sizes.set(block, sum(size, units)?);
        self.offset_nodes.put(
            place,
            OffsetNode {
                home: Home::Block(number),
                offset,
            },
        );
        Ok(())
    }

    fn sits_in_block(&self, place: usize) -> bool
        ensures { result ≡ sits_in_block (slice_get self.now.offset_nodes place) }
    {
        match self.offset_nodes.offset_node(place) {
            None => true,
            Some(offset_node) => offset_node.home.is_block(),
        }
    }

    fn put_member(
        &mut self,
        alloc: Global,
        table: &NameTable,
        block: &Text,
        entity: &Entity,
    ) -> Result<(), Memory>
        ensures { OnOk result
            (self.new ≡ member_put (table_tree table.now) block.now (entity_tree entity.now) (place_of (table_tree table.now) entity.now.name) self.old) }
    {
        let place = match table.names.place(&entity.name) {
            None => return Ok(()),
            Some(place) => place,
        };
        if self.sits_in_block(place) {
            return Ok(());
        }
        let units = units_of(alloc, table, &entity.name)?;
        match block_number(self.names.as_slice(), block) {
            None => Ok(()),
            Some(number) => self.put_at(units, place, number),
        }
    }

    #[tactic(auto, using(f77_ast::proofs::PlainlyDecl::decl_lists))]
    fn put_members(
        &mut self,
        alloc: Global,
        table: &NameTable,
        block: &Text,
        members: &[Entity],
    ) -> Result<(), Memory>
        ensures { OnOk result
            (self.new ≡ members_put (table_tree table.now) block.now (map entity_tree members.now) self.old) }
    {
        for entity in members {
            self.put_member(alloc, table, block, entity)?;
        }
        Ok(())
    }

    fn put_part(
        &mut self,
        alloc: Global,
        table: &NameTable,
        part: &CommonPart,
    ) -> Result<(), Memory>
        ensures { OnOk result (self.new ≡ part_put (table_tree table.now) (common_tree part.now) self.old) }
    {
        self.add_block(&part.block)?;
        self.put_members(alloc, table, &part.block, part.members.as_slice())
    }

    #[tactic(auto, using(f77_ast::proofs::PlainlyDecl::decl_lists))]
    fn put_parts(
        &mut self,
        alloc: Global,
        table: &NameTable,
        parts: &[CommonPart],
    ) -> Result<(), Memory>
        ensures { OnOk result
            (self.new ≡ parts_put (table_tree table.now) (map common_tree parts.now) self.old) }
    {
        for part in parts {
            self.put_part(alloc, table, part)?;
        }
        Ok(())
    }

    fn put_decl(&mut self, alloc: Global, table: &NameTable, decl: &Decl) -> Result<(), Memory>
        ensures { OnOk result (self.new ≡ decl_put (table_tree table.now) (decl_tree decl.now) self.old) }
    {
        match decl {
            Decl::Common(parts) => self.put_parts(alloc, table, parts.as_slice()),
            Decl::Implicit(_)
            | Decl::Integer(_)
            | Decl::Logical(_)
            | Decl::Dimension(_)
            | Decl::Parameter(_)
            | Decl::Equivalence(_)
            | Decl::Save(_)
            | Decl::Data(_) => Ok(()),
        }
    }

    /// Puts the variables of the COMMON statements among these into their blocks, each after those that the block has. A
    /// variable that is in a block already stays. Err also where an offset or a size has no 64 bits. Takes time of the
    /// variables times the blocks.
    #[tactic(auto, using(f77_ast::proofs::PlainlyDecl::decl_lists))]
    pub fn put_decls(
        &mut self,
        alloc: Global,
        table: &NameTable,
        decls: &[Decl],
    ) -> Result<(), Memory>
        ensures { OnOk result
            (self.new ≡ decls_put (table_tree table.now) (map decl_tree decls.now) self.old) }
    {
        for decl in decls {
            self.put_decl(alloc, table, decl)?;
        }
        Ok(())
    }
}
