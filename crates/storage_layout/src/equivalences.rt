//! EQUIVALENCE: the items of a group share a unit (ANSI X3.9-1978 §8.2). Groups join in the order of the text; an item that
//! contradicts those before it does not join.
ghost use Rattle.std.specs.Prelude.{◌≡◌, OnOk, Some, map};
ghost use Rattle.f77_ast.specs.Plain.{expr_tree};
ghost use Rattle.f77_ast.specs.PlainDecl.{decl_tree};
ghost use Rattle.f77_names.specs.Entries.{find};
ghost use Rattle.f77_names.specs.Views.{line_in, table_tree};
ghost use Rattle.storage_data.specs.Items.{item_name, item_position};
ghost use Rattle.storage_layout.specs.Equivalences.{begun, decl_shared, decls_shared, extends_back, group_shared, groups_shared, items_extend, items_joined, may_join, name_extends, named_joined, unit_joined};

use f77_ast::{Decl, Expr};
use f77_checks::decl_line;
use f77_names::{LineTable, NameTable};
use fx_lists::{Code, List, Refusal, Text, refuse_if};
use std::alloc::{AllocError as Memory, Global};
use storage_data::{Groups, OffsetNode, as_offset, check_items, item_name, item_position};

/// A unit of a variable: the place of its name in the table of names, from 0, and the unit, from 0 in the variable.
#[derive(Clone, Copy)]
pub struct Anchor {
    pub place: usize,
    pub unit: u64,
}

/// The offset nodes of the names, and of the current list of an EQUIVALENCE the unit that its items share, None before the first, and
/// whether an item clashes: with earlier joins, as a dummy or PARAMETER, or by its subscripts.
#[derive(Drop)]
pub struct Grouping {
    pub offset_nodes: Groups,
    pub anchor: Option<Anchor>,
    pub clash: bool,
}

/// The layout after the EQUIVALENCE statements so far: the current list, the first refusal, and the first of codes 35 and 36,
/// which are reported after all others.
#[derive(Drop)]
pub struct Shared {
    pub group: Grouping,
    pub found: Option<Refusal>,
    pub late: Option<Refusal>,
}

fn join_unit(group: &mut Grouping, place: usize, unit: u64) -> Result<(), Memory>
    ensures { OnOk result (group.new ≡ unit_joined group.old.anchor place unit group.old) }
{
    match group.anchor {
        None => {
            group.anchor = Some(Anchor { place, unit });
            Ok(())
        }
        Some(anchor) => {
            let first = as_offset(anchor.unit)?;
            let second = as_offset(unit)?;
            match group.offset_nodes.join(anchor.place, first, place, second) {
                None => Err(Memory),
                Some(clash) => {
                    group.clash = group.clash || clash;
                    Ok(())
                }
            }
        }
    }
}

fn may_join(table: &NameTable, name: &Text) -> bool
    ensures { result ≡ may_join (find name.now (table_tree table.now).entries) }
{
    match table.names.find(name) {
        None => false,
        Some(entry) => !(entry.dummy.is_some() || entry.parameter),
    }
}

fn join_named(
    alloc: Global,
    table: &NameTable,
    name: &Text,
    item: &Expr,
    group: &mut Grouping,
) -> Result<(), Memory>
    ensures { OnOk result
        (group.new ≡ named_joined (table_tree table.now) (Some name.now) (item_position (table_tree table.now) (expr_tree item.now)) group.old) }
{
    if !may_join(table, name) {
        group.clash = true;
        return Ok(());
    }
    match (table.names.place(name), item_position(alloc, table, item)?) {
        (Some(place), Some(unit)) => join_unit(group, place, unit),
        (None, _) | (Some(_), None) => {
            group.clash = true;
            Ok(())
        }
    }
}

fn join_item(
    alloc: Global,
    table: &NameTable,
    item: &Expr,
    group: &mut Grouping,
) -> Result<(), Memory>
    ensures { OnOk result
        (group.new ≡ named_joined (table_tree table.now) (item_name (expr_tree item.now)) (item_position (table_tree table.now) (expr_tree item.now)) group.old) }
{
    match item_name(item) {
        None => {
            group.clash = true;
            Ok(())
        }
        Some(name) => join_named(alloc, table, name, item, group),
    }
}

#[tactic(auto, using(f77_ast::proofs::PlainlyDecl::decl_lists))]
fn join_items(
    alloc: Global,
    table: &NameTable,
    items: &[Expr],
    group: &mut Grouping,
) -> Result<(), Memory>
    ensures { OnOk result
        (group.new ≡ items_joined (table_tree table.now) (map expr_tree items.now) group.old) }
{
    for item in items {
        join_item(alloc, table, item, group)?;
    }
    Ok(())
}

/// Whether a variable lies in a block that begins before its first unit.
fn extends_back(offset_nodes: &Groups, offset_node: Option<OffsetNode>) -> bool
    ensures { result ≡ extends_back offset_nodes.now offset_node }
{
    match offset_node {
        None => false,
        Some(offset_node) => offset_node.home.is_block()
            && offset_nodes.begins_before(offset_node.home),
    }
}

fn item_extends(table: &NameTable, offset_nodes: &Groups, item: &Expr) -> bool
    ensures { result ≡ name_extends (table_tree table.now) offset_nodes.now (item_name (expr_tree item.now)) }
{
    match item_name(item) {
        None => false,
        Some(name) => match table.names.place(name) {
            None => false,
            Some(place) => extends_back(offset_nodes, offset_nodes.offset_node(place)),
        },
    }
}

#[tactic(auto, using(f77_ast::proofs::PlainlyDecl::decl_lists))]
fn items_extend(table: &NameTable, offset_nodes: &Groups, items: &[Expr]) -> bool
    ensures { result ≡ items_extend (table_tree table.now) offset_nodes.now (map expr_tree items.now) }
{
    for item in items {
        if item_extends(table, offset_nodes, item) {
            return true;
        }
    }
    false
}

fn begin(group: &mut Grouping)
    ensures { group.new ≡ begun group.old }
{
    group.anchor = None;
    group.clash = false;
}

impl Shared {
    fn share_group(
        &mut self,
        alloc: Global,
        table: &NameTable,
        items: &[Expr],
        line: u32,
    ) -> Result<(), Memory>
        ensures { OnOk result
            (self.new ≡ group_shared (table_tree table.now) (map expr_tree items.now) line self.old) }
    {
        begin(&mut self.group);
        join_items(alloc, table, items, &mut self.group)?;
        let back = items_extend(table, &self.group.offset_nodes, items);
        let late = refuse_if(self.group.clash, line, Code::EquivalenceClash, self.late);
        self.late = refuse_if(back, line, Code::EquivalenceExtendsBack, late);
        self.found = check_items(table, items, line, self.found);
        Ok(())
    }

    #[tactic(auto, using(f77_ast::proofs::PlainlyDecl::decl_lists))]
    fn share_groups(
        &mut self,
        alloc: Global,
        table: &NameTable,
        groups: &[List<Expr>],
        line: u32,
    ) -> Result<(), Memory>
        ensures { OnOk result
            (self.new ≡ groups_shared (table_tree table.now) (map (map expr_tree) groups.now) line self.old) }
    {
        for items in groups {
            self.share_group(alloc, table, items.as_slice(), line)?;
        }
        Ok(())
    }

    fn share_decl(
        &mut self,
        alloc: Global,
        table: &NameTable,
        decl: &Decl,
        line: u32,
    ) -> Result<(), Memory>
        ensures { OnOk result
            (self.new ≡ decl_shared (table_tree table.now) (decl_tree decl.now) line self.old) }
    {
        match decl {
            Decl::Equivalence(groups) => self.share_groups(alloc, table, groups.as_slice(), line),
            Decl::Implicit(_)
            | Decl::Integer(_)
            | Decl::Logical(_)
            | Decl::Dimension(_)
            | Decl::Parameter(_)
            | Decl::Common(_)
            | Decl::Save(_)
            | Decl::Data(_) => Ok(()),
        }
    }

    /// Joins the items of each list of the EQUIVALENCE statements among these, and adds their refusals. The statements are all
    /// specification statements of the module from the first. Err also where an offset leaves 64 bits. Takes time of the items
    /// times the names of the module.
    #[tactic(auto, using(f77_ast::proofs::PlainlyDecl::decl_lists))]
    pub fn share_decls(
        &mut self,
        alloc: Global,
        table: &NameTable,
        lines: &LineTable,
        decls: &[Decl],
    ) -> Result<(), Memory>
        ensures { OnOk result
            (self.new ≡ decls_shared (table_tree table.now) (line_in lines.now) (map decl_tree decls.now) 0 self.old) }
    {
        for (place, decl) in decls.iter().enumerate() {
            let line = decl_line(lines, place)?;
            self.share_decl(alloc, table, decl, line)?;
        }
        Ok(())
    }
}
