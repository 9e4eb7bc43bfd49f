//! Actual arguments, and the tracked cells of the caller that they name.
ghost use Rattle.std.specs.Prelude.{◌≡◌, ◌-◌, ◌++◌, IfOk, OnOk, IfSome, option_copied, option_map};
ghost use Rattle.f77_ast.specs.Plain.{expr_tree, expr_trees};
ghost use Rattle.affine_forms.specs.Scalars.{scalars};
ghost use Rattle.affine_forms.specs.Forms.{IsSmallForm};
ghost use Rattle.call_translation.specs.Scopes.{scope_tree};
ghost use Rattle.call_translation.specs.Actuals.{named_cell as named_cell_is, one_cell, actual_of as actual_of_is, form_in as form_in_is};

use crate::CellScope;
use affine_forms::{Affine, affine_of, cell_of};
use f77_ast::Expr;
use fx_lists::List;
use std::alloc::{AllocError as Memory, Global};

/// The number, from 1, of the analysed scalar whose name an expression is; None for every other expression.
#[tactic(auto, using(f77_ast::proofs::Plainly::expr_cases))]
pub fn named_cell(scope: &CellScope<'_>, e: &Expr) -> Option<u32>
    ensures { result ≡ named_cell_is (scalars scope.now.symbols.now scope.now.tracked.now) (expr_tree e.now) }
{
    match e {
        Expr::Name(name) => cell_of(scope.symbols, scope.tracked, name),
        Expr::Int(_)
        | Expr::Log(_)
        | Expr::Element(..)
        | Expr::Paren(_)
        | Expr::Unary(..)
        | Expr::Binary(..)
        | Expr::Chars(_) => None,
    }
}

/// Appends the number of an analysed scalar, if there is one.
#[tactic(auto, using(crate::proofs::Steps::lists))]
pub fn push_cell(cells: &mut Vec<u32>, cell: Option<u32>) -> Result<(), Memory>
    ensures { OnOk result (cells.new.items ≡ cells.old.items ++ one_cell cell) }
{
    match cell {
        None => Ok(()),
        Some(cell) => {
            cells.push(cell)?;
            Ok(())
        }
    }
}

/// The actual argument of the dummy argument with a number, from 1 (ANSI X3.9-1978, §15.9.3); None where there are fewer.
pub fn actual_of(actuals: &List<Expr>, dummy: u32) -> Option<&Expr>
    ensures { option_map expr_tree (option_copied result) ≡ actual_of_is (expr_trees actuals.now) dummy }
{
    actuals.get(dummy.saturating_sub(1) as usize)
}

/// The affine expression of an actual argument over the analysed scalars of its caller; None without an actual, or where `affine_of` finds no
/// affine expression for it.
pub fn form_in(
    alloc: Global,
    caller: &CellScope<'_>,
    actual: Option<&Expr>,
) -> Result<Option<Affine>, Memory>
    ensures defined { IfOk result (λ f. f ≡ form_in_is (scope_tree caller.now.symbols.now caller.now.tracked.now) (option_map expr_tree (option_copied actual.entry))) }
    ensures small { IfOk result (λ f. IfSome f IsSmallForm) }
{
    match actual {
        None => Ok(None),
        Some(actual) => affine_of(alloc, caller.symbols, caller.tracked, actual),
    }
}
