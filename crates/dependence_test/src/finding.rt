//! A DO by the number of its statement.
ghost use Rattle.std.specs.Prelude.{◌≡◌};
ghost use Rattle.std.specs.Option.{option_copied, option_map};
ghost use Rattle.f77_ast.specs.PlainStmt.{stmt_tree, stmt_trees, loop_tree, arm_trees};
ghost use Rattle.f77_ast.specs.Shapes.{walk_stmt, walk_arms};
ghost use Rattle.dependence_test.specs.Finding.{the_loop, loop_in as loop_in_is};

use f77_ast::{Arm, Loop, Shape, Stmt, StmtId, shape_of};
use fx_lists::List;

/// The DO with a number: a statement, or among its parts.
#[cycle(loops)]
#[tactic(auto, using(crate::proofs::LoopBodySteps::search_calls))]
fn loop_of(id: StmtId, s: &Stmt) -> Option<&Loop>
    ensures { option_map loop_tree (option_copied result) ≡ walk_stmt (the_loop id) (stmt_tree s.now) }
{
    match shape_of(&s.what) {
        Shape::Leaf => None,
        Shape::Inner(_, inner) => loop_of(id, inner),
        Shape::Body(l) => if s.id == id {
            Some(l)
        } else {
            loop_in(id, &l.body)
        },
        Shape::Arms(arms, other) => match loop_in_arms(id, arms) {
            Some(l) => Some(l),
            None => match other {
                None => None,
                Some(body) => loop_in(id, body),
            },
        },
    }
}

/// The DO with a number among the statements of a list and their parts; None where there is none. All statements before it are searched.
#[cycle(loops)]
#[tactic(auto, using(crate::proofs::LoopBodySteps::search_calls))]
pub fn loop_in(id: StmtId, list: &List<Stmt>) -> Option<&Loop>
    ensures { option_map loop_tree (option_copied result) ≡ loop_in_is id (stmt_trees list.now) }
{
    for s in list.as_slice() {
        if let Some(l) = loop_of(id, s) {
            return Some(l);
        }
    }
    None
}

#[cycle(loops)]
#[tactic(auto, using(crate::proofs::LoopBodySteps::search_calls))]
fn loop_in_arms(id: StmtId, arms: &List<Arm>) -> Option<&Loop>
    ensures { option_map loop_tree (option_copied result) ≡ walk_arms (the_loop id) (arm_trees arms.now) }
{
    for arm in arms.as_slice() {
        if let Some(l) = loop_in(id, &arm.body) {
            return Some(l);
        }
    }
    None
}
