//! What a statement of one form has.
ghost use Rattle.std.specs.Prelude.{◌≡◌, option_copied, option_map};
ghost use Rattle.f77_ast.specs.Plain.{expr_tree, expr_trees};
ghost use Rattle.f77_ast.specs.PlainStmt.{what_tree, stmt_tree, loop_tree, arm_trees, else_tree};
ghost use Rattle.same_values.specs.StmtTests.{assign_in, block_if_in, logical_if_in, do_loop_in, call_in, goto_in, is_continue, stop_in, print_in, read_in};

use f77_ast::{Arm, Expr, Loop, Stmt, What};
use fx_lists::{List, Text};

/// The variable and the value of an assignment.
#[tactic(auto, using(f77_ast::proofs::PlainlyStmt::what_cases))]
pub fn assign_of(what: &What) -> Option<(&Expr, &Expr)>
    ensures { option_map (λ p. (expr_tree p.0.now, expr_tree p.1.now)) result ≡ assign_in (what_tree what.now) }
{
    match what {
        What::Assign(x, y) => Some((x, y)),
        What::If(..)
        | What::LogicalIf(..)
        | What::Do(_)
        | What::Call(..)
        | What::Goto(_)
        | What::Continue
        | What::Return
        | What::Stop(_)
        | What::Print(_)
        | What::Read(_) => None,
    }
}

/// The parts of a block IF.
#[tactic(auto, using(f77_ast::proofs::PlainlyStmt::what_cases))]
pub fn block_if_of(what: &What) -> Option<(&List<Arm>, &Option<List<Stmt>>)>
    ensures { option_map (λ p. (arm_trees p.0.now, else_tree p.1.now)) result ≡ block_if_in (what_tree what.now) }
{
    match what {
        What::If(x, y) => Some((x, y)),
        What::Assign(..)
        | What::LogicalIf(..)
        | What::Do(_)
        | What::Call(..)
        | What::Goto(_)
        | What::Continue
        | What::Return
        | What::Stop(_)
        | What::Print(_)
        | What::Read(_) => None,
    }
}

/// The test and the statement of a logical IF.
#[tactic(auto, using(f77_ast::proofs::PlainlyStmt::what_cases))]
pub fn logical_if_of(what: &What) -> Option<(&Expr, &Stmt)>
    ensures { option_map (λ p. (expr_tree p.0.now, stmt_tree p.1.now)) result ≡ logical_if_in (what_tree what.now) }
{
    match what {
        What::LogicalIf(x, y) => Some((x, y)),
        What::Assign(..)
        | What::If(..)
        | What::Do(_)
        | What::Call(..)
        | What::Goto(_)
        | What::Continue
        | What::Return
        | What::Stop(_)
        | What::Print(_)
        | What::Read(_) => None,
    }
}

/// A DO.
#[tactic(auto, using(f77_ast::proofs::PlainlyStmt::what_cases))]
pub fn do_loop_of(what: &What) -> Option<&Loop>
    ensures { option_map (λ l. loop_tree l.now) result ≡ do_loop_in (what_tree what.now) }
{
    match what {
        What::Do(x) => Some(x),
        What::Assign(..)
        | What::If(..)
        | What::LogicalIf(..)
        | What::Call(..)
        | What::Goto(_)
        | What::Continue
        | What::Return
        | What::Stop(_)
        | What::Print(_)
        | What::Read(_) => None,
    }
}

/// The subroutine and the arguments of a CALL.
#[tactic(auto, using(f77_ast::proofs::PlainlyStmt::what_cases))]
pub fn call_of(what: &What) -> Option<(&Text, &List<Expr>)>
    ensures { option_map (λ p. (p.0.now, expr_trees p.1.now)) result ≡ call_in (what_tree what.now) }
{
    match what {
        What::Call(x, y) => Some((x, y)),
        What::Assign(..)
        | What::If(..)
        | What::LogicalIf(..)
        | What::Do(_)
        | What::Goto(_)
        | What::Continue
        | What::Return
        | What::Stop(_)
        | What::Print(_)
        | What::Read(_) => None,
    }
}

/// The label of a GO TO.
#[tactic(auto, using(f77_ast::proofs::PlainlyStmt::what_cases))]
pub fn goto_of(what: &What) -> Option<u32>
    ensures { result ≡ goto_in (what_tree what.now) }
{
    match what {
        What::Goto(x) => Some(*x),
        What::Assign(..)
        | What::If(..)
        | What::LogicalIf(..)
        | What::Do(_)
        | What::Call(..)
        | What::Continue
        | What::Return
        | What::Stop(_)
        | What::Print(_)
        | What::Read(_) => None,
    }
}

/// Whether it is a CONTINUE.
#[tactic(auto, using(f77_ast::proofs::PlainlyStmt::what_cases))]
pub fn is_continue(what: &What) -> bool
    ensures { result ≡ is_continue (what_tree what.now) }
{
    match what {
        What::Continue => true,
        What::Assign(..)
        | What::If(..)
        | What::LogicalIf(..)
        | What::Do(_)
        | What::Call(..)
        | What::Goto(_)
        | What::Return
        | What::Stop(_)
        | What::Print(_)
        | What::Read(_) => false,
    }
}

/// The text of a STOP.
#[tactic(auto, using(f77_ast::proofs::PlainlyStmt::what_cases))]
pub fn stop_of(what: &What) -> Option<&Option<Text>>
    ensures { option_copied result ≡ stop_in (what_tree what.now) }
{
    match what {
        What::Stop(x) => Some(x),
        What::Assign(..)
        | What::If(..)
        | What::LogicalIf(..)
        | What::Do(_)
        | What::Call(..)
        | What::Goto(_)
        | What::Continue
        | What::Return
        | What::Print(_)
        | What::Read(_) => None,
    }
}

/// The items of a PRINT.
#[tactic(auto, using(f77_ast::proofs::PlainlyStmt::what_cases))]
pub fn print_of(what: &What) -> Option<&List<Expr>>
    ensures { option_map (λ es. expr_trees es.now) result ≡ print_in (what_tree what.now) }
{
    match what {
        What::Print(x) => Some(x),
        What::Assign(..)
        | What::If(..)
        | What::LogicalIf(..)
        | What::Do(_)
        | What::Call(..)
        | What::Goto(_)
        | What::Continue
        | What::Return
        | What::Stop(_)
        | What::Read(_) => None,
    }
}

/// The items of a READ.
#[tactic(auto, using(f77_ast::proofs::PlainlyStmt::what_cases))]
pub fn read_of(what: &What) -> Option<&List<Expr>>
    ensures { option_map (λ es. expr_trees es.now) result ≡ read_in (what_tree what.now) }
{
    match what {
        What::Read(x) => Some(x),
        What::Assign(..)
        | What::If(..)
        | What::LogicalIf(..)
        | What::Do(_)
        | What::Call(..)
        | What::Goto(_)
        | What::Continue
        | What::Return
        | What::Stop(_)
        | What::Print(_) => None,
    }
}
