//! The statements before which lines may be added.
ghost use Rattle.std.specs.Prelude.{◌≡◌, ◌++◌, IfOk};
ghost use Rattle.f77_ast.specs.PlainStmt.{stmt_tree, stmt_trees, what_tree, arm_trees};
ghost use Rattle.f77_ast.specs.Hidden.{is_hidden as is_hidden_is};
ghost use Rattle.result_lines.specs.ScalarLines.{begins_hidden as begins_hidden_is, stands_for as stands_for_is, says_changes as says_changes_is};
ghost use Rattle.result_lines.specs.ClaimSpots.{own_spots, stmt_spots, arms_spots, list_spots};

use f77_ast::{Arm, Shape, Stmt, StmtId, What, shape_of};
use fx_lists::List;
use std::alloc::{AllocError as Memory, Global};

/// A statement before which lines may be added.
#[derive(Drop)]
pub struct LineSpot {
    pub before: StmtId,
    /// Whether lines also say what it changes or accesses: of a DO, a DO WHILE, a CALL, and an assignment of the value of a function.
    pub changes: bool,
}

/// The highest number of a statement of the text (f77_ast, specs/Hidden).
const LAST_VISIBLE: StmtId = 4096;

fn is_hidden(id: StmtId) -> bool
    ensures { result ≡ is_hidden_is id }
{
    id > LAST_VISIBLE
}

fn begins_hidden(list: &List<Stmt>) -> bool
    ensures { result ≡ begins_hidden_is (stmt_trees list.now) }
{
    match list.as_slice() {
        [] => false,
        [first, ..] => is_hidden(first.id),
    }
}

/// Whether a block IF with these arms stands for another statement.
fn stands_for(arms: &List<Arm>) -> bool
    ensures { result ≡ stands_for_is (arm_trees arms.now) }
{
    match arms.as_slice() {
        [] => false,
        [first, ..] => begins_hidden(&first.body),
    }
}

#[tactic(auto, using(f77_ast::proofs::PlainlyStmt::what_cases))]
fn says_changes(what: &What) -> bool
    ensures { result ≡ says_changes_is (what_tree what.now) }
{
    match what {
        What::Do(_) | What::Call(..) => true,
        What::If(arms, _) => stands_for(arms),
        What::Assign(..)
        | What::LogicalIf(..)
        | What::Goto(_)
        | What::Continue
        | What::Return
        | What::Stop(_)
        | What::Print(_)
        | What::Read(_) => false,
    }
}

/// The statement itself.
#[tactic(auto, using(crate::proofs::SpotLaws::spot_calls))]
fn put_own(s: &Stmt, out: &mut List<LineSpot>) -> Result<(), Memory>
    ensures { IfOk result (λ _. out.new ≡ out.old ++ own_spots s.now.id (what_tree s.now.what)) }
{
    if is_hidden(s.id) {
        return Ok(());
    }
    let changes = says_changes(&s.what);
    out.push(LineSpot {
        before: s.id,
        changes,
    })
}

/// A statement, and its parts after it.
#[cycle(spots)]
#[tactic(auto, using(crate::proofs::SpotLaws::spot_calls))]
fn put_stmt(s: &Stmt, out: &mut List<LineSpot>) -> Result<(), Memory>
    ensures { IfOk result (λ _. out.new ≡ out.old ++ stmt_spots (stmt_tree s.now)) }
{
    put_own(s, out)?;
    match shape_of(&s.what) {
        Shape::Leaf | Shape::Inner(..) => Ok(()),
        Shape::Body(l) => put_list(&l.body, out),
        Shape::Arms(arms, other) => {
            put_arms(arms, out)?;
            match other {
                None => Ok(()),
                Some(body) => put_list(body, out),
            }
        }
    }
}

#[cycle(spots)]
#[tactic(auto, using(crate::proofs::SpotLaws::spot_calls))]
fn put_list(list: &List<Stmt>, out: &mut List<LineSpot>) -> Result<(), Memory>
    ensures { IfOk result (λ _. out.new ≡ out.old ++ list_spots (stmt_trees list.now)) }
{
    for s in list.as_slice() {
        put_stmt(s, out)?;
    }
    Ok(())
}

#[cycle(spots)]
#[tactic(auto, using(crate::proofs::SpotLaws::spot_calls))]
fn put_arms(arms: &List<Arm>, out: &mut List<LineSpot>) -> Result<(), Memory>
    ensures { IfOk result (λ _. out.new ≡ out.old ++ arms_spots (arm_trees arms.now)) }
{
    for arm in arms.as_slice() {
        put_list(&arm.body, out)?;
    }
    Ok(())
}

/// The statements of a list and of their parts that may have lines of their own, in the order of the text: all but those of logical IFs,
/// which stand on the lines of these, and hidden ones.
pub fn line_spots(alloc: Global, list: &List<Stmt>) -> Result<List<LineSpot>, Memory>
    ensures { IfOk result (λ found. found ≡ list_spots (stmt_trees list.now)) }
{
    let mut found = List::new(alloc);
    put_list(list, &mut found)?;
    Ok(found)
}
