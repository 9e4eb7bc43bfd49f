//! The variables that are read where expressions are evaluated. Lists are in `order` and without repeats.
ghost use Rattle.std.specs.Prelude.{◌≡◌, [], map, IfOk};
ghost use Rattle.f77_ast.specs.Plain.{expr_tree, expr_trees};
ghost use Rattle.f77_ast.specs.Symbols.{symbol_tree};
ghost use Rattle.effects.specs.Reads.{reads, with_reads, inner_reads, actual_reads, with_actuals, with_items, with_named};

use crate::names::{array, own, variable_named};
use f77_ast::{Expr, Symbols, Variable, union};
use fx_lists::List;
use std::alloc::{AllocError as Memory, Global};

/// The variables in an expression, of an element both the array and the variables in its subscripts.
#[cycle(reads)]
#[tactic(auto, using(f77_ast::proofs::Plainly::expr_calls))]
pub fn reads(alloc: Global, symbols: &Symbols, e: &Expr) -> Result<List<Variable>, Memory>
    ensures { IfOk result (λ vs. vs ≡ reads (expr_tree e.now) (map symbol_tree symbols.now)) }
{
    match e {
        Expr::Int(_) | Expr::Log(_) | Expr::Chars(_) => Ok(List::new(alloc)),
        Expr::Name(name) => own(alloc, symbols, name),
        Expr::Element(name, es) => {
            let inner = with_reads(alloc, symbols, es, List::new(alloc))?;
            let array = array(alloc, symbols, name)?;
            union(alloc, &inner, &array)
        }
        Expr::Paren(e) | Expr::Unary(_, e) => reads(alloc, symbols, e),
        Expr::Binary(_, a, b) => {
            let a = reads(alloc, symbols, a)?;
            let b = reads(alloc, symbols, b)?;
            union(alloc, &a, &b)
        }
    }
}

/// The variables so far, united with those in expressions; in `order` and without repeats where those so far are so.
#[cycle(reads)]
#[tactic(auto, using(f77_ast::proofs::Plainly::expr_items))]
pub fn with_reads(
    alloc: Global,
    symbols: &Symbols,
    es: &List<Expr>,
    so_far: List<Variable>,
) -> Result<List<Variable>, Memory>
    ensures { IfOk result (λ vs. vs ≡ with_reads (expr_trees es.now) (map symbol_tree symbols.now) so_far) }
{
    let mut all = so_far;
    for e in es.as_slice() {
        let more = reads(alloc, symbols, e)?;
        all = union(alloc, &all, &more)?;
    }
    Ok(all)
}

/// The variables in the subscripts of an element, or in the arguments of an intrinsic function; none for any other expression.
#[tactic(auto, using(f77_ast::proofs::Plainly::expr_cases))]
pub fn inner_reads(alloc: Global, symbols: &Symbols, e: &Expr) -> Result<List<Variable>, Memory>
    ensures { IfOk result (λ vs. vs ≡ inner_reads (expr_tree e.now) (map symbol_tree symbols.now)) }
{
    match e {
        Expr::Element(_, es) => with_reads(alloc, symbols, es, List::new(alloc)),
        Expr::Int(_)
        | Expr::Log(_)
        | Expr::Name(_)
        | Expr::Paren(_)
        | Expr::Unary(..)
        | Expr::Binary(..)
        | Expr::Chars(_) => Ok(List::new(alloc)),
    }
}

/// What is read to associate an actual with its dummy.
#[tactic(auto, using(f77_ast::proofs::Plainly::expr_cases))]
fn actual_reads(alloc: Global, symbols: &Symbols, e: &Expr) -> Result<List<Variable>, Memory>
    ensures { IfOk result (λ vs. vs ≡ actual_reads (expr_tree e.now) (map symbol_tree symbols.now)) }
{
    match e {
        Expr::Name(_) | Expr::Element(..) => inner_reads(alloc, symbols, e),
        Expr::Int(_)
        | Expr::Log(_)
        | Expr::Paren(_)
        | Expr::Unary(..)
        | Expr::Binary(..)
        | Expr::Chars(_) => reads(alloc, symbols, e),
    }
}

/// The variables that are read to associate the actuals of a CALL with dummies (ANSI X3.9-1978, §15.9.3): those in the
/// subscripts of a name or an element, which is not read itself, and all in any other expression.
#[tactic(auto, using(f77_ast::proofs::Plainly::expr_lists))]
pub fn actuals_reads(
    alloc: Global,
    symbols: &Symbols,
    es: &List<Expr>,
) -> Result<List<Variable>, Memory>
    ensures { IfOk result (λ vs. vs ≡ with_actuals (expr_trees es.now) (map symbol_tree symbols.now) []) }
{
    let mut all = List::new(alloc);
    for e in es.as_slice() {
        let more = actual_reads(alloc, symbols, e)?;
        all = union(alloc, &all, &more)?;
    }
    Ok(all)
}

/// The variables in the subscripts of the items of a READ.
#[tactic(auto, using(f77_ast::proofs::Plainly::expr_lists))]
pub fn items_reads(
    alloc: Global,
    symbols: &Symbols,
    es: &List<Expr>,
) -> Result<List<Variable>, Memory>
    ensures { IfOk result (λ vs. vs ≡ with_items (expr_trees es.now) (map symbol_tree symbols.now) []) }
{
    let mut all = List::new(alloc);
    for e in es.as_slice() {
        let more = inner_reads(alloc, symbols, e)?;
        all = union(alloc, &all, &more)?;
    }
    Ok(all)
}

/// The variables that the items of a READ name, which it writes.
#[tactic(auto, using(f77_ast::proofs::Plainly::expr_lists))]
pub fn items_named(
    alloc: Global,
    symbols: &Symbols,
    es: &List<Expr>,
) -> Result<List<Variable>, Memory>
    ensures { IfOk result (λ vs. vs ≡ with_named (expr_trees es.now) (map symbol_tree symbols.now) []) }
{
    let mut all = List::new(alloc);
    for e in es.as_slice() {
        let more = variable_named(alloc, symbols, e)?;
        all = union(alloc, &all, &more)?;
    }
    Ok(all)
}
