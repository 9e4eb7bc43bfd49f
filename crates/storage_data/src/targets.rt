//! The units that the targets of DATA cover.
ghost use Rattle.std.specs.Prelude.{◌≡◌, IfOk, Some, map, slice_get};
ghost use Rattle.std.specs.List.{list_any};
ghost use Rattle.f77_ast.specs.Plain.{expr_tree};
ghost use Rattle.f77_names.specs.Entries.{entry_tree};
ghost use Rattle.f77_names.specs.Views.{table_tree};
ghost use Rattle.storage_data.specs.Initials.{covers, entry_target, is_barred, is_excluded, is_open, is_associated, target_of, targets_of, units_in, count_of};

use crate::items::{item_fault, item_name, item_position};
use crate::numbers::sum;
use crate::units::units_of;
use crate::{Groups, OffsetNode};
use f77_ast::Expr;
use f77_checks::dimensions_of;
use f77_names::{Entry, NameTable};
use fx_lists::List;
use std::alloc::{AllocError as Memory, Global};

/// What an item of DATA covers (ANSI X3.9-1978, §9).
#[derive(Clone, Copy)]
pub enum Target {
    /// The item may have no DATA: its name is a dummy, in COMMON, a PARAMETER, in a block by EQUIVALENCE or unknown, its
    /// subscripts are not constants within bounds, or it is no item. It is refused.
    Excluded,
    /// The dimensions or the subscripts of the item have a refusal of their own; it gives none as DATA.
    Open,
    /// Units of the name at a place of the table of names, from 0: the first unit, counted from that of the variable, and how
    /// many.
    Covers(usize, u64, u64),
}

impl Target {
    fn is_excluded(self) -> bool
        ensures { result ≡ is_excluded self }
    {
        match self {
            Target::Excluded => true,
            Target::Open | Target::Covers(..) => false,
        }
    }

    fn is_open(self) -> bool
        ensures { result ≡ is_open self }
    {
        match self {
            Target::Open => true,
            Target::Excluded | Target::Covers(..) => false,
        }
    }

    fn count(self) -> u64
        ensures { result ≡ count_of self }
    {
        match self {
            Target::Excluded | Target::Open => 0,
            Target::Covers(_, _, count) => count,
        }
    }
}

#[tactic(auto, using(f77_ast::proofs::Plainly::expr_cases))]
fn covers(alloc: Global, table: &NameTable, place: usize, item: &Expr) -> Result<Target, Memory>
    ensures { IfOk result (λ c. c ≡ covers (table_tree table.now) place (expr_tree item.now)) }
{
    match item {
        Expr::Name(name) => Ok(Target::Covers(place, 0, units_of(alloc, table, name)?)),
        Expr::Element(..) => match item_position(alloc, table, item)? {
            None => Ok(Target::Excluded),
            Some(offset) => Ok(Target::Covers(place, offset, 1)),
        },
        Expr::Int(_)
        | Expr::Log(_)
        | Expr::Paren(_)
        | Expr::Unary(..)
        | Expr::Binary(..)
        | Expr::Chars(_) => Ok(Target::Excluded),
    }
}

fn is_associated(offset_node: Option<OffsetNode>) -> bool
    ensures { result ≡ is_associated offset_node }
{
    match offset_node {
        None => false,
        Some(offset_node) => offset_node.home.is_block(),
    }
}

/// Whether a name may have no DATA.
fn is_barred(entry: &Entry, offset_node: Option<OffsetNode>) -> bool
    ensures { result ≡ is_barred (entry_tree entry.now) offset_node }
{
    entry.dummy.is_some() || entry.common.is_some() || entry.parameter || is_associated(offset_node)
}

fn entry_target(
    alloc: Global,
    table: &NameTable,
    offset_nodes: &Groups,
    item: &Expr,
    place: usize,
    entry: &Entry,
) -> Result<Target, Memory>
    ensures { IfOk result
        (λ c. c ≡ entry_target (table_tree table.now) offset_nodes.now (expr_tree item.now) (Some place) (Some (entry_tree entry.now))) }
{
    if is_barred(entry, offset_nodes.offset_node(place)) {
        return Ok(Target::Excluded);
    }
    match (
        dimensions_of(alloc, table, entry)?,
        item_fault(table, item, 0),
    ) {
        (Some(_), None) => covers(alloc, table, place, item),
        (None, _) | (Some(_), Some(_)) => Ok(Target::Open),
    }
}

fn target_of(
    alloc: Global,
    table: &NameTable,
    offset_nodes: &Groups,
    item: &Expr,
) -> Result<Target, Memory>
    ensures { IfOk result
        (λ c. c ≡ target_of (table_tree table.now) offset_nodes.now (expr_tree item.now)) }
{
    match item_name(item) {
        None => Ok(Target::Excluded),
        Some(name) => match (table.names.place(name), table.names.find(name)) {
            (Some(place), Some(entry)) => entry_target(
                alloc,
                table,
                offset_nodes,
                item,
                place,
                entry,
            ),
            (None, _) | (Some(_), None) => Ok(Target::Excluded),
        },
    }
}

/// The target of each item, in their order.
#[tactic(auto, using(f77_ast::proofs::PlainlyDecl::decl_lists))]
pub fn targets_of(
    alloc: Global,
    table: &NameTable,
    offset_nodes: &Groups,
    items: &[Expr],
) -> Result<List<Target>, Memory>
    ensures { IfOk result
        (λ cs. cs ≡ targets_of (table_tree table.now) offset_nodes.now (map expr_tree items.now)) }
{
    let mut targets = List::new(alloc);
    for item in items {
        targets.push(target_of(alloc, table, offset_nodes, item)?)?;
    }
    Ok(targets)
}

/// Whether some target is `Excluded`.
pub fn some_excluded(targets: &[Target]) -> bool
    ensures { result ≡ list_any is_excluded targets.now }
{
    for target in targets {
        if target.is_excluded() {
            return true;
        }
    }
    false
}

/// Whether some target is `Open`.
pub fn some_open(targets: &[Target]) -> bool
    ensures { result ≡ list_any is_open targets.now }
{
    for target in targets {
        if target.is_open() {
            return true;
        }
    }
    false
}

/// How many units the targets cover together. Err also from 2^64 on.
pub fn units_in(targets: &[Target]) -> Result<u64, Memory>
    ensures { IfOk result (λ n. n ≡ units_in targets.now) }
{
    let mut units = 0;
    for target in targets {
        units = sum(units, target.count())?;
    }
    Ok(units)
}
