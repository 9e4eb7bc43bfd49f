//! The numbers of the statements of a module, and of its loops.
ghost use Rattle.std.specs.Prelude.{◌≡◌, ◌++◌, IfOk};
ghost use Rattle.f77_ast.specs.PlainStmt.{stmt_tree, stmt_trees, arm_trees};
ghost use Rattle.f77_ast.specs.Shapes.{walk_stmt, walk_arms, walk_list};
ghost use Rattle.f77_ast.specs.StatementNumbers.{stmt_numbers, arms_numbers, list_numbers};
ghost use Rattle.base_values.specs.Modules.{the_loops};

use f77_ast::{Arm, Shape, Stmt, StmtId, shape_of};
use fx_lists::List;
use std::alloc::AllocError as Memory;

/// A statement, and its parts after it.
#[cycle(numbers)]
#[tactic(auto, using(crate::proofs::StatementLaws::number_calls))]
fn put_stmt(s: &Stmt, statements: &mut List<StmtId>, loops: &mut List<StmtId>) -> Result<(), Memory>
    ensures statements { IfOk result (λ _. statements.new ≡ statements.old ++ stmt_numbers (stmt_tree s.now)) }
    ensures loops { IfOk result (λ _. loops.new ≡ loops.old ++ walk_stmt the_loops (stmt_tree s.now)) }
{
    statements.push(s.id)?;
    match shape_of(&s.what) {
        Shape::Leaf => Ok(()),
        Shape::Inner(_, inner) => put_stmt(inner, statements, loops),
        Shape::Body(l) => {
            loops.push(s.id)?;
            put_list(&l.body, statements, loops)
        }
        Shape::Arms(arms, other) => {
            put_arms(arms, statements, loops)?;
            match other {
                None => Ok(()),
                Some(body) => put_list(body, statements, loops),
            }
        }
    }
}

/// Appends the numbers of the statements of a list and of their parts, in the order of the text, and those of the DO statements among them.
#[cycle(numbers)]
#[tactic(auto, using(crate::proofs::StatementLaws::number_calls))]
pub fn put_list(
    list: &List<Stmt>,
    statements: &mut List<StmtId>,
    loops: &mut List<StmtId>,
) -> Result<(), Memory>
    ensures statements { IfOk result (λ _. statements.new ≡ statements.old ++ list_numbers (stmt_trees list.now)) }
    ensures loops { IfOk result (λ _. loops.new ≡ loops.old ++ walk_list the_loops (stmt_trees list.now)) }
{
    for s in list.as_slice() {
        put_stmt(s, statements, loops)?;
    }
    Ok(())
}

#[cycle(numbers)]
#[tactic(auto, using(crate::proofs::StatementLaws::number_calls))]
fn put_arms(
    arms: &List<Arm>,
    statements: &mut List<StmtId>,
    loops: &mut List<StmtId>,
) -> Result<(), Memory>
    ensures statements { IfOk result (λ _. statements.new ≡ statements.old ++ arms_numbers (arm_trees arms.now)) }
    ensures loops { IfOk result (λ _. loops.new ≡ loops.old ++ walk_arms the_loops (arm_trees arms.now)) }
{
    for arm in arms.as_slice() {
        put_list(&arm.body, statements, loops)?;
    }
    Ok(())
}
