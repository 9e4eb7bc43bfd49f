//! READ and WRITE of assignments, PRINTs and READs.
ghost use Rattle.std.specs.Prelude.{◌≡◌, ◌++◌, IfOk, OnOk};
ghost use Rattle.affine_systems.specs.Given.{Fits};
ghost use Rattle.f77_ast.specs.Plain.{expr_tree, expr_trees};
ghost use Rattle.transformers.specs.call_translation.Scopes.{scope_tree};
ghost use Rattle.region_translation.specs.region_sets.Sets.{SetFits};
ghost use Rattle.array_regions.specs.Simple.{assignment as assignment_is, printing as printing_is, item_does as item_does_is, with_item as with_item_is, reading as reading_is};

use crate::reads::{push_all_reads, push_inner_reads, push_reads};
use crate::references::push_named;
use f77_ast::Expr;
use fx_lists::List;
use region_translation::region_sets::{Access, Region, RegionSet, push_composed, unite_all};
use std::alloc::{AllocError as Memory, Global};
use transformers::call_translation::{CellScope, named_cell, push_cell};
use transformers::transformer_algebra::{Transformer, forgotten};

/// The regions of an assignment (ANSI X3.9-1978, §10.1 and §10.2): the right side and the subscripts of the left one are read, the left one
/// is written.
#[tactic(auto, using(crate::proofs::Fitting::fitting))]
pub fn assignment(
    alloc: Global,
    scope: &CellScope<'_>,
    left: &Expr,
    right: &Expr,
) -> Result<RegionSet, Memory>
    ensures defined { IfOk result (λ rs. rs ≡ assignment_is (scope_tree scope.now.symbols.now scope.now.tracked.now) (expr_tree left.now) (expr_tree right.now)) }
    ensures fits { IfOk result SetFits }
{
    let mut all = List::new(alloc);
    push_reads(alloc, &mut all, scope, right)?;
    push_inner_reads(alloc, &mut all, scope, left)?;
    push_named(alloc, &mut all, scope, Access::Write, left)?;
    unite_all(alloc, all.as_slice())
}

/// The READ regions of the items of a PRINT (ANSI X3.9-1978, §12.8).
#[tactic(auto, using(crate::proofs::Fitting::fitting))]
pub fn printing(
    alloc: Global,
    scope: &CellScope<'_>,
    items: &List<Expr>,
) -> Result<RegionSet, Memory>
    ensures defined { IfOk result (λ rs. rs ≡ printing_is (scope_tree scope.now.symbols.now scope.now.tracked.now) (expr_trees items.now)) }
    ensures fits { IfOk result SetFits }
{
    let mut all = List::new(alloc);
    push_all_reads(alloc, &mut all, scope, items)?;
    unite_all(alloc, all.as_slice())
}

/// What the READ of one item does to the tracked cells.
pub fn item_does(alloc: Global, scope: &CellScope<'_>, item: &Expr) -> Result<Transformer, Memory>
    ensures defined { IfOk result (λ t. t ≡ item_does_is (scope_tree scope.now.symbols.now scope.now.tracked.now) (expr_tree item.now)) }
    ensures fits { IfOk result (λ t. Fits t.system) }
{
    let mut cells = Vec::new(alloc);
    push_cell(&mut cells, named_cell(scope, item))?;
    forgotten(alloc, cells.as_slice())
}

/// Of the READ of an item and of those after it.
#[tactic(auto, using(crate::proofs::Fitting::fitting))]
fn with_item(
    alloc: Global,
    scope: &CellScope<'_>,
    item: &Expr,
    rest: &[Region],
) -> Result<RegionSet, Memory>
    requires { SetFits rest.now }
    ensures defined { IfOk result (λ rs. rs ≡ with_item_is (scope_tree scope.now.symbols.now scope.now.tracked.now) (expr_tree item.now) rest.now) }
    ensures fits { IfOk result SetFits }
{
    let mut all = List::new(alloc);
    push_inner_reads(alloc, &mut all, scope, item)?;
    push_named(alloc, &mut all, scope, Access::Write, item)?;
    let t = item_does(alloc, scope, item)?;
    push_composed(alloc, &mut all, &t, rest)?;
    unite_all(alloc, all.as_slice())
}

/// The regions of a READ (ANSI X3.9-1978, §12.8), where it begins: of each item the subscripts are read, with the values of the analysed
/// scalars after the items before it, and the item is written.
#[tactic(auto, using(crate::proofs::Steps::item_step))]
pub fn reading(alloc: Global, scope: &CellScope<'_>, items: &[Expr]) -> Result<RegionSet, Memory>
    ensures defined { IfOk result (λ rs. rs ≡ reading_is (expr_trees items.now) (scope_tree scope.now.symbols.now scope.now.tracked.now)) }
    ensures fits { IfOk result SetFits }
{
    let mut set = List::new(alloc);
    let mut left = items.len();
    while left > 0 {
        left -= 1;
        set = with_item(alloc, scope, &items[left], set.as_slice())?;
    }
    Ok(set)
}
