//! The statement of the text that a statement belongs to.
ghost use Rattle.std.specs.Prelude.{◌≡◌, nat_eq, Some, if◌then◌else◌};
ghost use Rattle.f77_ast.specs.PlainStmt.{stmt_tree, stmt_trees, arm_trees};
ghost use Rattle.f77_ast.specs.Shapes.{walk_stmt, walk_arms};
ghost use Rattle.f77_ast.specs.Hidden.{carried_by, the_carrier, carrier_in as carrier_in_is};

use f77_ast::{Arm, Shape, Stmt, StmtId, shape_of};
use fx_lists::List;

/// What the statement with the number `id` belongs to, given this statement and what was found inside it.
fn found_at(own: StmtId, id: StmtId, inside: Option<StmtId>) -> Option<StmtId>
    ensures { result ≡ (if nat_eq own id then Some own else carried_by own inside) }
{
    if own == id {
        return Some(own);
    }
    match inside {
        None => None,
        Some(carrier) => Some(if carrier > 4096 { own } else { carrier }),
    }
}

#[cycle(carriers)]
#[tactic(auto, using(crate::proofs::CarrierSteps::search_calls))]
fn carrier_of(id: StmtId, s: &Stmt) -> Option<StmtId>
    ensures { result ≡ walk_stmt (the_carrier id) (stmt_tree s.now) }
{
    match shape_of(&s.what) {
        Shape::Leaf => found_at(s.id, id, None),
        Shape::Inner(_, inner) => found_at(s.id, id, carrier_of(id, inner)),
        Shape::Body(l) => found_at(s.id, id, carrier_in(id, &l.body)),
        Shape::Arms(arms, other) => match carrier_in_arms(id, arms) {
            Some(carrier) => found_at(s.id, id, Some(carrier)),
            None => match other {
                None => found_at(s.id, id, None),
                Some(body) => found_at(s.id, id, carrier_in(id, body)),
            },
        },
    }
}

/// The statement with the number `id`, among those of a list and their parts, or the innermost one around it, where it is not of the text itself. None
/// where there is none of the number.
#[cycle(carriers)]
#[tactic(auto, using(crate::proofs::CarrierSteps::search_calls))]
pub fn carrier_in(id: StmtId, list: &List<Stmt>) -> Option<StmtId>
    ensures { result ≡ carrier_in_is id (stmt_trees list.now) }
{
    for s in list.as_slice() {
        if let Some(carrier) = carrier_of(id, s) {
            return Some(carrier);
        }
    }
    None
}

#[cycle(carriers)]
#[tactic(auto, using(crate::proofs::CarrierSteps::search_calls))]
fn carrier_in_arms(id: StmtId, arms: &List<Arm>) -> Option<StmtId>
    ensures { result ≡ walk_arms (the_carrier id) (arm_trees arms.now) }
{
    for arm in arms.as_slice() {
        if let Some(carrier) = carrier_in(id, &arm.body) {
            return Some(carrier);
        }
    }
    None
}
