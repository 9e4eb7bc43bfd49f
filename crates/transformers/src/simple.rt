//! Transformers of assignments and READs.
ghost use Rattle.std.specs.Prelude.{◌≡◌, ◌++◌, IfOk};
ghost use Rattle.affine_systems.specs.Given.{Fits};
ghost use Rattle.f77_ast.specs.Plain.{expr_tree, expr_trees};
ghost use Rattle.affine_forms.specs.Scalars.{scalars};
ghost use Rattle.transformers.specs.Simple.{assignment as assignment_is, named_cells as named_cells_is, reading as reading_is};

use affine_forms::affine_of;
use call_translation::transformer_algebra::{Transformer, assign, forgotten, identity_transformer};
use call_translation::{CellScope, named_cell, push_cell};
use f77_ast::Expr;
use fx_lists::List;
use std::alloc::{AllocError as Memory, Global};

/// The transformer of an assignment (ANSI X3.9-1978, §10.1): the identity where the left side is no analysed scalar.
pub fn assignment(
    alloc: Global,
    scope: &CellScope<'_>,
    left: &Expr,
    right: &Expr,
) -> Result<Transformer, Memory>
    ensures defined { IfOk result (λ t. t ≡ assignment_is (scalars scope.now.symbols.now scope.now.tracked.now) (expr_tree left.now) (expr_tree right.now)) }
    ensures fits { IfOk result (λ t. Fits t.system) }
{
    match named_cell(scope, left) {
        None => Ok(identity_transformer(alloc)),
        Some(cell) => {
            let form = affine_of(alloc, scope.symbols, scope.tracked, right)?;
            assign(alloc, cell, &form)
        }
    }
}

#[tactic(auto, using(f77_ast::proofs::Plainly::expr_lists))]
fn named_cells(alloc: Global, scope: &CellScope<'_>, items: &[Expr]) -> Result<Vec<u32>, Memory>
    ensures { IfOk result (λ cs. cs.items ≡ named_cells_is (scalars scope.now.symbols.now scope.now.tracked.now) (expr_trees items.now)) }
{
    let mut cells = Vec::new(alloc);
    for item in items {
        push_cell(&mut cells, named_cell(scope, item))?;
    }
    Ok(cells)
}

/// The transformer of a READ of these items (ANSI X3.9-1978, §12.8): the analysed scalars among them may have any value.
pub fn reading(
    alloc: Global,
    scope: &CellScope<'_>,
    items: &List<Expr>,
) -> Result<Transformer, Memory>
    ensures defined { IfOk result (λ t. t ≡ reading_is (scalars scope.now.symbols.now scope.now.tracked.now) (expr_trees items.now)) }
    ensures fits { IfOk result (λ t. Fits t.system) }
{
    let cells = named_cells(alloc, scope, items.as_slice())?;
    forgotten(alloc, cells.as_slice())
}
