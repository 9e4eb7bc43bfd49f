//! The CALLs of modules.
ghost use Rattle.std.specs.Prelude.{◌≡◌, map, IfOk};
ghost use Rattle.f77_ast.specs.PlainStmt.{stmt_trees, what_tree, loop_tree, arm_trees};
ghost use Rattle.f77_ast.specs.PlainDecl.{parsed_tree};
ghost use Rattle.f77_ast.specs.Symbols.{symbol_tree};
ghost use Rattle.call_graph.specs.Calls.{with_list, with_what, with_loop, with_arms, calls_of, all_calls};

use crate::actuals::{Actual, actuals_of};
use f77_ast::{Arm, Loop, Parsed, Stmt, StmtId, Symbols, What};
use fx_lists::{List, Text};
use std::alloc::{AllocError as Memory, Global};

/// A CALL statement: its number in its module, from 1; the name of the callee; and the actuals in their order.
#[derive(PartialEq, Eq, Drop)]
pub struct Called {
    pub at: StmtId,
    pub callee: Text,
    pub actuals: List<Actual>,
}

/// The CALLs of a module, in the order of the text.
pub type Calls = List<Called>;

/// Adds the CALLs of statements one after another.
#[cycle(calls)]
#[tactic(auto, using(f77_ast::proofs::PlainlyStmt::list_calls))]
fn add_list(
    calls: &mut Calls,
    alloc: Global,
    symbols: &Symbols,
    list: &List<Stmt>,
) -> Result<(), Memory>
    ensures { IfOk result (λ _. calls.new ≡ with_list (stmt_trees list.now) (map symbol_tree symbols.now) calls.old) }
{
    for s in list.as_slice() {
        add_what(calls, alloc, symbols, s.id, &s.what)?;
    }
    Ok(())
}

/// Adds the CALLs of a statement.
#[cycle(calls)]
#[tactic(auto, using(f77_ast::proofs::PlainlyStmt::what_calls))]
fn add_what(
    calls: &mut Calls,
    alloc: Global,
    symbols: &Symbols,
    at: StmtId,
    what: &What,
) -> Result<(), Memory>
    ensures { IfOk result (λ _. calls.new ≡ with_what (what_tree what.now) at (map symbol_tree symbols.now) calls.old) }
{
    match what {
        What::If(arms, other) => {
            add_arms(calls, alloc, symbols, arms)?;
            match other {
                None => Ok(()),
                Some(body) => add_list(calls, alloc, symbols, body),
            }
        }
        What::LogicalIf(_, s) => add_what(calls, alloc, symbols, s.id, &s.what),
        What::Do(l) => add_loop(calls, alloc, symbols, l),
        What::Call(callee, es) => {
            let callee = callee.clone()?;
            let actuals = actuals_of(alloc, symbols, es)?;
            calls.push(Called {
                at,
                callee,
                actuals,
            })
        }
        What::Assign(..)
        | What::Goto(_)
        | What::Continue
        | What::Return
        | What::Stop(_)
        | What::Print(_)
        | What::Read(_) => Ok(()),
    }
}

/// Adds the CALLs of the body of a DO.
#[cycle(calls)]
#[tactic(auto, using(f77_ast::proofs::PlainlyStmt::loop_calls))]
fn add_loop(calls: &mut Calls, alloc: Global, symbols: &Symbols, l: &Loop) -> Result<(), Memory>
    ensures { IfOk result (λ _. calls.new ≡ with_loop (loop_tree l.now) (map symbol_tree symbols.now) calls.old) }
{
    add_list(calls, alloc, symbols, &l.body)
}

/// Adds the CALLs of the parts of a block IF.
#[cycle(calls)]
#[tactic(auto, using(f77_ast::proofs::PlainlyStmt::arm_calls))]
fn add_arms(
    calls: &mut Calls,
    alloc: Global,
    symbols: &Symbols,
    arms: &List<Arm>,
) -> Result<(), Memory>
    ensures { IfOk result (λ _. calls.new ≡ with_arms (arm_trees arms.now) (map symbol_tree symbols.now) calls.old) }
{
    for arm in arms.as_slice() {
        add_list(calls, alloc, symbols, &arm.body)?;
    }
    Ok(())
}

/// The CALLs of a module.
fn calls_of(alloc: Global, parsed: &Parsed, symbols: &Symbols) -> Result<Calls, Memory>
    ensures { IfOk result (λ cs. cs ≡ calls_of (parsed_tree parsed.now) (map symbol_tree symbols.now)) }
{
    let mut calls = List::new(alloc);
    add_list(&mut calls, alloc, symbols, &parsed.module.body)?;
    Ok(calls)
}

/// The CALLs of each module, in the order of the modules, up to the first that has no table.
pub fn all_calls(
    alloc: Global,
    modules: &List<Parsed>,
    tables: &List<Symbols>,
) -> Result<List<Calls>, Memory>
    ensures { IfOk result (λ css. css ≡ all_calls (map parsed_tree modules.now) (map (map symbol_tree) tables.now)) }
{
    let mut all = List::new(alloc);
    let mut rest = modules.as_slice();
    let mut others = tables.as_slice();
    while let [parsed, more @ ..] = rest {
        match others {
            [] => return Ok(all),
            [symbols, later @ ..] => {
                all.push(calls_of(alloc, parsed, symbols)?)?;
                others = later;
            }
        }
        rest = more;
    }
    Ok(all)
}
