//! DATA: values are given to units in order (ANSI X3.9-1978 §9).
ghost use Rattle.std.specs.Prelude.{◌≡◌, ◌++◌, OnOk, map, slice_get};
ghost use Rattle.std.specs.List.{list_any};
ghost use Rattle.std.specs.Option.{option_map};
ghost use Rattle.f77_ast.specs.PlainDecl.{data_tree, decl_tree};
ghost use Rattle.f77_names.specs.Entries.{entry_tree};
ghost use Rattle.f77_names.specs.Views.{line_in, table_tree};
ghost use Rattle.storage_data.specs.Initials.{given, group_filled, groups_filled, decl_filled, decls_filled, has_other_type, is_mistyped, kind_at, mismatch, targets_filled, unfilled};

use crate::Groups;
use crate::deals::{Piece, dealt};
use crate::items::check_items;
use crate::stretches::{Stretch, meet_twice, stretches_of};
use crate::targets::{Target, some_excluded, some_open, targets_of, units_in};
use crate::values::{Run, runs_of, values_in};
use f77_ast::{Constant, DataGroup, Decl};
use f77_checks::decl_line;
use f77_names::{Kind, LineTable, NameTable};
use fx_lists::{Code, List, Refusal, refuse_if};
use std::alloc::{AllocError as Memory, Global};

/// What the DATA statements so far give: the pieces, and the stretches of units that have a value, both in the order of the
/// text; and the first refusal, by line, then by code.
#[derive(Drop)]
pub struct Filled {
    pub pieces: List<Piece>,
    pub stretches: List<Stretch>,
    pub found: Option<Refusal>,
}

fn has_other_type(kind: Kind, value: Option<Constant>) -> bool
    ensures { result ≡ has_other_type kind value }
{
    match (kind, value) {
        (Kind::Int, Some(Constant::Int(_))) | (Kind::Log, Some(Constant::Log(_))) => false,
        (Kind::Real, Some(_)) => false,
        (Kind::Int | Kind::Log | Kind::Real, None)
        | (Kind::Int, Some(Constant::Log(_)))
        | (Kind::Log, Some(Constant::Int(_))) => true,
    }
}

#[tactic(auto, using(std::proofs::lemmas::Option::gets))]
fn kind_at(table: &NameTable, place: usize) -> Kind
    ensures { result ≡ kind_at (table_tree table.now) (slice_get (table_tree table.now).entries place) }
{
    match table.names.as_slice().get(place) {
        None => Kind::Real,
        Some(entry) => table.entry_kind(entry),
    }
}

fn is_mistyped(table: &NameTable, piece: Piece) -> bool
    ensures { result ≡ is_mistyped (table_tree table.now) piece }
{
    has_other_type(kind_at(table, piece.place), piece.value)
}

fn some_mistyped(table: &NameTable, pieces: &[Piece]) -> bool
    ensures { result ≡ list_any (is_mistyped (table_tree table.now)) pieces.now }
{
    for piece in pieces {
        if is_mistyped(table, *piece) {
            return true;
        }
    }
    false
}

#[tactic(auto, using(f77_ast::proofs::PlainlyDecl::decl_lists))]
fn add_pieces(all: &mut List<Piece>, new: &[Piece]) -> Result<(), Memory>
    ensures { OnOk result (all.new ≡ all.old ++ new.now) }
{
    for piece in new {
        all.push(*piece)?;
    }
    Ok(())
}

impl Filled {
    /// No values yet, with the refusal that was found before.
    pub fn new(alloc: Global, found: Option<Refusal>) -> Filled
        ensures { result ≡ unfilled found }
    {
        Filled {
            pieces: List::new(alloc),
            stretches: List::new(alloc),
            found,
        }
    }

    fn note(&mut self, wrong: bool, line: u32)
        ensures { self.new ≡ mismatch wrong line self.old }
    {
        self.found = refuse_if(wrong, line, Code::InitialMismatch, self.found);
    }

    fn give(
        &mut self,
        alloc: Global,
        table: &NameTable,
        offset_nodes: &Groups,
        targets: &[Target],
        runs: List<Run>,
        line: u32,
    ) -> Result<(), Memory>
        ensures { OnOk result
            (self.new ≡ given (table_tree table.now) offset_nodes.now targets.now runs line self.old) }
    {
        let pieces = dealt(alloc, targets, runs)?;
        let new = stretches_of(alloc, offset_nodes, targets)?;
        let twice = meet_twice(&mut self.stretches, new.as_slice())?;
        let mistyped = some_mistyped(table, pieces.as_slice());
        add_pieces(&mut self.pieces, pieces.as_slice())?;
        self.found = refuse_if(mistyped || twice, line, Code::InitialMismatch, self.found);
        Ok(())
    }

    fn fill_targets(
        &mut self,
        alloc: Global,
        table: &NameTable,
        offset_nodes: &Groups,
        targets: &[Target],
        runs: List<Run>,
        line: u32,
    ) -> Result<(), Memory>
        ensures { OnOk result
            (self.new ≡ targets_filled (table_tree table.now) offset_nodes.now targets.now runs line self.old) }
    {
        if some_excluded(targets) {
            self.note(true, line);
            return Ok(());
        }
        if some_open(targets) {
            return Ok(());
        }
        if units_in(targets)? != values_in(runs.as_slice())? {
            self.note(true, line);
            return Ok(());
        }
        self.give(alloc, table, offset_nodes, targets, runs, line)
    }

    fn fill_group(
        &mut self,
        alloc: Global,
        table: &NameTable,
        offset_nodes: &Groups,
        group: &DataGroup,
        line: u32,
    ) -> Result<(), Memory>
        ensures { OnOk result
            (self.new ≡ group_filled (table_tree table.now) offset_nodes.now (data_tree group.now) line self.old) }
    {
        let items = group.targets.as_slice();
        self.found = check_items(table, items, line, self.found);
        let targets = targets_of(alloc, table, offset_nodes, items)?;
        let runs = runs_of(alloc, group.values.as_slice())?;
        self.fill_targets(alloc, table, offset_nodes, targets.as_slice(), runs, line)
    }

    #[tactic(auto, using(f77_ast::proofs::PlainlyDecl::decl_lists))]
    fn fill_groups(
        &mut self,
        alloc: Global,
        table: &NameTable,
        offset_nodes: &Groups,
        groups: &[DataGroup],
        line: u32,
    ) -> Result<(), Memory>
        ensures { OnOk result
            (self.new ≡ groups_filled (table_tree table.now) offset_nodes.now (map data_tree groups.now) line self.old) }
    {
        for group in groups {
            self.fill_group(alloc, table, offset_nodes, group, line)?;
        }
        Ok(())
    }

    fn fill_decl(
        &mut self,
        alloc: Global,
        table: &NameTable,
        offset_nodes: &Groups,
        decl: &Decl,
        line: u32,
    ) -> Result<(), Memory>
        ensures { OnOk result
            (self.new ≡ decl_filled (table_tree table.now) offset_nodes.now (decl_tree decl.now) line self.old) }
    {
        match decl {
            Decl::Data(groups) => self.fill_groups(
                alloc,
                table,
                offset_nodes,
                groups.as_slice(),
                line,
            ),
            Decl::Implicit(_)
            | Decl::Integer(_)
            | Decl::Logical(_)
            | Decl::Dimension(_)
            | Decl::Parameter(_)
            | Decl::Common(_)
            | Decl::Equivalence(_)
            | Decl::Save(_) => Ok(()),
        }
    }

    /// Adds the values and the refusals of the DATA statements among these, which are all specification statements of the
    /// module from the first. A list gives no values where a target is not `Covers`, or units and values are not equally many.
    /// Quadratic in the number of targets.
    #[tactic(auto, using(f77_ast::proofs::PlainlyDecl::decl_lists))]
    pub fn fill_decls(
        &mut self,
        alloc: Global,
        table: &NameTable,
        offset_nodes: &Groups,
        lines: &LineTable,
        decls: &[Decl],
    ) -> Result<(), Memory>
        ensures { OnOk result
            (self.new ≡ decls_filled (table_tree table.now) offset_nodes.now (line_in lines.now) (map decl_tree decls.now) 0 self.old) }
    {
        for (place, decl) in decls.iter().enumerate() {
            let line = decl_line(lines, place)?;
            self.fill_decl(alloc, table, offset_nodes, decl, line)?;
        }
        Ok(())
    }
}
