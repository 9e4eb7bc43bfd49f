//! IN of a READ.
ghost use Rattle.std.specs.Prelude.{◌≡◌, IfOk};
ghost use Rattle.f77_ast.specs.Plain.{expr_tree, expr_trees};
ghost use Rattle.array_regions.specs.call_translation.Scopes.{scope_tree};
ghost use Rattle.array_regions.specs.region_sets.Settled.{AllFixed};
ghost use Rattle.array_regions.specs.region_sets.Sets.{SetFits};
ghost use Rattle.in_out_regions.specs.Simple.{item_in as item_in_is, item_written as item_written_is, with_item as with_item_is, reading as reading_is};

use crate::kinds::push_in;
use crate::lists::before_rest;
use array_regions::call_translation::CellScope;
use array_regions::region_sets::{Access, Region, RegionSet, unite_all};
use array_regions::{item_does, push_inner_reads, push_named};
use f77_ast::Expr;
use fx_lists::List;
use std::alloc::{AllocError as Memory, Global};

/// What the subscripts of an item read.
fn item_in(alloc: Global, scope: &CellScope<'_>, item: &Expr) -> Result<RegionSet, Memory>
    ensures defined { IfOk result (λ rs. rs ≡ item_in_is (scope_tree scope.now.symbols.now scope.now.tracked.now) (expr_tree item.now)) }
    ensures fits { IfOk result SetFits }
{
    let mut read = List::new(alloc);
    push_inner_reads(alloc, &mut read, scope, item)?;
    let mut all = List::new(alloc);
    push_in(alloc, &mut all, read.as_slice())?;
    unite_all(alloc, all.as_slice())
}

fn item_written(alloc: Global, scope: &CellScope<'_>, item: &Expr) -> Result<RegionSet, Memory>
    ensures defined { IfOk result (λ rs. rs ≡ item_written_is (scope_tree scope.now.symbols.now scope.now.tracked.now) (expr_tree item.now)) }
    ensures fits { IfOk result SetFits }
{
    let mut all = List::new(alloc);
    push_named(alloc, &mut all, scope, Access::Write, item)?;
    unite_all(alloc, all.as_slice())
}

/// Of the READ of an item and of those after it.
fn with_item(
    alloc: Global,
    scope: &CellScope<'_>,
    item: &Expr,
    rest: &[Region],
) -> Result<RegionSet, Memory>
    requires fits { SetFits rest.now }
    requires fixed { AllFixed rest.now }
    ensures defined { IfOk result (λ rs. rs ≡ with_item_is (scope_tree scope.now.symbols.now scope.now.tracked.now) (expr_tree item.now) rest.now) }
    ensures fits { IfOk result SetFits }
    ensures fixed { IfOk result AllFixed }
{
    let ins = item_in(alloc, scope, item)?;
    let written = item_written(alloc, scope, item)?;
    let t = item_does(alloc, scope, item)?;
    before_rest(
        alloc,
        scope.symbols,
        ins.as_slice(),
        written.as_slice(),
        &t,
        rest,
    )
}

/// The IN regions of a READ (ANSI X3.9-1978, §12.8), where it begins: what the subscripts of each item read that the items before it do not write.
#[tactic(auto, using(crate::proofs::Steps::item_step))]
pub fn reading(alloc: Global, scope: &CellScope<'_>, items: &[Expr]) -> Result<RegionSet, Memory>
    ensures defined { IfOk result (λ rs. rs ≡ reading_is (expr_trees items.now) (scope_tree scope.now.symbols.now scope.now.tracked.now)) }
    ensures fits { IfOk result SetFits }
{
    let mut set = List::new(alloc);
    let mut left = items.len();
    while left > 0 {
        left -= 1;
        set = with_item(alloc, scope, &items[left], set.as_slice())?;
    }
    Ok(set)
}
