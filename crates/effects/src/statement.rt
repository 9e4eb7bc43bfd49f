//! The effects of a statement by itself.
ghost use Rattle.std.specs.Prelude.{◌≡◌, [], map, IfOk};
ghost use Rattle.f77_ast.specs.Plain.{expr_tree, expr_trees};
ghost use Rattle.f77_ast.specs.PlainStmt.{maybe_tree, what_tree, loop_tree, arm_trees};
ghost use Rattle.f77_ast.specs.Trees.{assign, print, read};
ghost use Rattle.f77_ast.specs.Symbols.{symbol_tree};
ghost use Rattle.effects.specs.Reads.{with_reads, with_items, with_named};
ghost use Rattle.effects.specs.Statement.{effect, ends, with_tests, step_reads, loop_effect, proper_of};

use crate::names::{own, variable_named};
use crate::reads::{actuals_reads, inner_reads, items_named, items_reads, reads, with_reads};
use call_graph::View;
use f77_ast::{Arm, EffectSet, Expr, Loop, Stmt, Symbols, Variable, What, union};
use fx_lists::List;
use std::alloc::{AllocError as Memory, Global};

fn effect(reads: List<Variable>, writes: List<Variable>) -> EffectSet
    ensures { result ≡ effect reads writes }
{
    EffectSet {
        reads,
        writes,
        io: false,
        stops: false,
    }
}

/// The variables in the tests of a block IF.
#[tactic(auto, using(f77_ast::proofs::PlainlyStmt::arm_steps))]
fn tests_reads(alloc: Global, symbols: &Symbols, arms: &List<Arm>) -> Result<List<Variable>, Memory>
    ensures { IfOk result (λ vs. vs ≡ with_tests (arm_trees arms.now) (map symbol_tree symbols.now) []) }
{
    let mut all = List::new(alloc);
    for arm in arms.as_slice() {
        let more = reads(alloc, symbols, &arm.test)?;
        all = union(alloc, &all, &more)?;
    }
    Ok(all)
}

/// The variables in an expression that may be missing, as the step of a DO or the upper bound of an array; none where it is.
pub fn step_reads(
    alloc: Global,
    symbols: &Symbols,
    step: &Option<Expr>,
) -> Result<List<Variable>, Memory>
    ensures { IfOk result (λ vs. vs ≡ step_reads (maybe_tree step.now) (map symbol_tree symbols.now)) }
{
    match step {
        None => Ok(List::new(alloc)),
        Some(step) => reads(alloc, symbols, step),
    }
}

#[tactic(auto, using(f77_ast::proofs::PlainlyStmt::read_structs))]
fn loop_effect(alloc: Global, symbols: &Symbols, l: &Loop) -> Result<EffectSet, Memory>
    ensures { IfOk result (λ e. e ≡ loop_effect (loop_tree l.now) (map symbol_tree symbols.now)) }
{
    let first = reads(alloc, symbols, &l.first)?;
    let last = reads(alloc, symbols, &l.last)?;
    let step = step_reads(alloc, symbols, &l.step)?;
    let both = union(alloc, &first, &last)?;
    let all = union(alloc, &both, &step)?;
    let index = own(alloc, symbols, &l.index)?;
    Ok(effect(all, index))
}

fn assign_effect(alloc: Global, symbols: &Symbols, a: &Expr, b: &Expr) -> Result<EffectSet, Memory>
    ensures { IfOk result (λ e. e ≡ proper_of (assign (expr_tree a.now) (expr_tree b.now)) (map symbol_tree symbols.now)) }
{
    let value = reads(alloc, symbols, b)?;
    let inner = inner_reads(alloc, symbols, a)?;
    let all = union(alloc, &value, &inner)?;
    let left = variable_named(alloc, symbols, a)?;
    Ok(effect(all, left))
}

fn print_effect(alloc: Global, symbols: &Symbols, es: &List<Expr>) -> Result<EffectSet, Memory>
    ensures { IfOk result (λ e. e ≡ proper_of (print (expr_trees es.now)) (map symbol_tree symbols.now)) }
{
    let all = with_reads(alloc, symbols, es, List::new(alloc))?;
    Ok(EffectSet {
        reads: all,
        writes: List::new(alloc),
        io: true,
        stops: false,
    })
}

fn read_effect(alloc: Global, symbols: &Symbols, es: &List<Expr>) -> Result<EffectSet, Memory>
    ensures { IfOk result (λ e. e ≡ proper_of (read (expr_trees es.now)) (map symbol_tree symbols.now)) }
{
    let inner = items_reads(alloc, symbols, es)?;
    let items = items_named(alloc, symbols, es)?;
    Ok(EffectSet {
        reads: inner,
        writes: items,
        io: true,
        stops: false,
    })
}

fn stop_effect(alloc: Global) -> EffectSet
    ensures { result ≡ ends }
{
    EffectSet {
        reads: List::new(alloc),
        writes: List::new(alloc),
        io: false,
        stops: true,
    }
}

/// The effects of a statement by itself, with these symbols: without the statements in it, and at a CALL without those of the
/// callee.
#[tactic(auto, using(f77_ast::proofs::PlainlyStmt::what_cases))]
pub fn proper_of(alloc: Global, symbols: &Symbols, what: &What) -> Result<EffectSet, Memory>
    ensures { IfOk result (λ e. e ≡ proper_of (what_tree what.now) (map symbol_tree symbols.now)) }
{
    match what {
        What::Assign(a, b) => assign_effect(alloc, symbols, a, b),
        What::If(arms, _) => {
            let tests = tests_reads(alloc, symbols, arms)?;
            Ok(effect(tests, List::new(alloc)))
        }
        What::LogicalIf(test, _) => {
            let test = reads(alloc, symbols, test)?;
            Ok(effect(test, List::new(alloc)))
        }
        What::Do(l) => loop_effect(alloc, symbols, l),
        What::Call(_, es) => {
            let actuals = actuals_reads(alloc, symbols, es)?;
            Ok(effect(actuals, List::new(alloc)))
        }
        What::Goto(_) | What::Continue | What::Return => Ok(EffectSet::none(alloc)),
        What::Stop(_) => Ok(stop_effect(alloc)),
        What::Print(es) => print_effect(alloc, symbols, es),
        What::Read(es) => read_effect(alloc, symbols, es),
    }
}

/// The effects of a statement of a module by itself, as `proper_of` with the symbols of the view.
pub fn proper(alloc: Global, view: &View<'_>, stmt: &Stmt) -> Result<EffectSet, Memory>
    ensures { IfOk result (λ e. e ≡ proper_of (what_tree stmt.now.what) (map symbol_tree view.now.symbols.now)) }
{
    proper_of(alloc, view.symbols, &stmt.what)
}
