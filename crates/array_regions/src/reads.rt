//! What is read where expressions are evaluated.
ghost use Rattle.std.specs.Prelude.{◌≡◌, ◌++◌, IfOk, OnOk};
ghost use Rattle.f77_ast.specs.Plain.{expr_tree, expr_trees};
ghost use Rattle.f77_ast.specs.PlainStmt.{maybe_tree};
ghost use Rattle.transformers.specs.call_translation.Scopes.{scope_tree};
ghost use Rattle.region_translation.specs.region_sets.Sets.{SetFits};
ghost use Rattle.array_regions.specs.Reads.{reads, all_reads, inner_reads, maybe_reads};
ghost use Rattle.array_regions.specs.Calls.{actual_reads, actuals_reads};

use crate::references::{push_element, push_named};
use f77_ast::Expr;
use fx_lists::List;
use region_translation::region_sets::{Access, RegionSet};
use std::alloc::{AllocError as Memory, Global};
use transformers::call_translation::CellScope;

/// Appends the READ regions of an expression, operands from left to right and the subscripts of an element before it. Err also where an array
/// has more than 254 dimensions.
#[cycle(reads)]
#[tactic(auto, using(crate::proofs::Steps::expr_parts))]
pub fn push_reads(
    alloc: Global,
    out: &mut RegionSet,
    scope: &CellScope<'_>,
    e: &Expr,
) -> Result<(), Memory>
    requires { SetFits out.old }
    ensures added { OnOk result (out.new ≡ out.old ++ reads (expr_tree e.now) (scope_tree scope.now.symbols.now scope.now.tracked.now)) }
    ensures fits { OnOk result (SetFits out.new) }
{
    match e {
        Expr::Int(_) | Expr::Log(_) | Expr::Chars(_) => Ok(()),
        Expr::Name(_) => push_named(alloc, out, scope, Access::Read, e),
        Expr::Element(name, es) => {
            push_all_reads(alloc, out, scope, es)?;
            push_element(alloc, out, scope, Access::Read, name, es)
        }
        Expr::Paren(e) | Expr::Unary(_, e) => push_reads(alloc, out, scope, e),
        Expr::Binary(_, a, b) => {
            push_reads(alloc, out, scope, a)?;
            push_reads(alloc, out, scope, b)
        }
    }
}

/// Appends the READ regions of expressions, in their order.
#[cycle(reads)]
#[tactic(auto, using(crate::proofs::Steps::expr_rest))]
pub fn push_all_reads(
    alloc: Global,
    out: &mut RegionSet,
    scope: &CellScope<'_>,
    es: &List<Expr>,
) -> Result<(), Memory>
    requires { SetFits out.old }
    ensures added { OnOk result (out.new ≡ out.old ++ all_reads (expr_trees es.now) (scope_tree scope.now.symbols.now scope.now.tracked.now)) }
    ensures fits { OnOk result (SetFits out.new) }
{
    for e in es.as_slice() {
        push_reads(alloc, out, scope, e)?;
    }
    Ok(())
}

/// Appends the READ regions of the subscripts of an element, not of the element itself; nothing for another expression.
#[tactic(auto, using(crate::proofs::Steps::expr_parts))]
pub fn push_inner_reads(
    alloc: Global,
    out: &mut RegionSet,
    scope: &CellScope<'_>,
    e: &Expr,
) -> Result<(), Memory>
    requires { SetFits out.old }
    ensures added { OnOk result (out.new ≡ out.old ++ inner_reads (expr_tree e.now) (scope_tree scope.now.symbols.now scope.now.tracked.now)) }
    ensures fits { OnOk result (SetFits out.new) }
{
    match e {
        Expr::Element(_, es) => push_all_reads(alloc, out, scope, es),
        Expr::Int(_)
        | Expr::Log(_)
        | Expr::Name(_)
        | Expr::Paren(_)
        | Expr::Unary(..)
        | Expr::Binary(..)
        | Expr::Chars(_) => Ok(()),
    }
}

/// Appends the READ regions of an expression, where there is one.
#[tactic(auto, using(crate::proofs::Steps::expr_parts))]
pub fn push_maybe_reads(
    alloc: Global,
    out: &mut RegionSet,
    scope: &CellScope<'_>,
    e: &Option<Expr>,
) -> Result<(), Memory>
    requires { SetFits out.old }
    ensures added { OnOk result (out.new ≡ out.old ++ maybe_reads (maybe_tree e.now) (scope_tree scope.now.symbols.now scope.now.tracked.now)) }
    ensures fits { OnOk result (SetFits out.new) }
{
    match e {
        None => Ok(()),
        Some(e) => push_reads(alloc, out, scope, e),
    }
}

/// Adds what is read to associate an actual with its dummy.
#[tactic(auto, using(crate::proofs::Steps::expr_parts))]
fn push_actual_reads(
    alloc: Global,
    out: &mut RegionSet,
    scope: &CellScope<'_>,
    e: &Expr,
) -> Result<(), Memory>
    requires { SetFits out.old }
    ensures added { OnOk result (out.new ≡ out.old ++ actual_reads (expr_tree e.now) (scope_tree scope.now.symbols.now scope.now.tracked.now)) }
    ensures fits { OnOk result (SetFits out.new) }
{
    match e {
        Expr::Name(_) | Expr::Element(..) => push_inner_reads(alloc, out, scope, e),
        Expr::Int(_)
        | Expr::Log(_)
        | Expr::Paren(_)
        | Expr::Unary(..)
        | Expr::Binary(..)
        | Expr::Chars(_) => push_reads(alloc, out, scope, e),
    }
}

/// Appends the READ regions of the actuals of a CALL (ANSI X3.9-1978, §15.9.3), in their order: of an element those of its subscripts, of an
/// expression all; nothing for a name.
#[tactic(auto, using(crate::proofs::Steps::expr_rest))]
pub fn push_actuals_reads(
    alloc: Global,
    out: &mut RegionSet,
    scope: &CellScope<'_>,
    es: &List<Expr>,
) -> Result<(), Memory>
    requires { SetFits out.old }
    ensures added { OnOk result (out.new ≡ out.old ++ actuals_reads (expr_trees es.now) (scope_tree scope.now.symbols.now scope.now.tracked.now)) }
    ensures fits { OnOk result (SetFits out.new) }
{
    for e in es.as_slice() {
        push_actual_reads(alloc, out, scope, e)?;
    }
    Ok(())
}
