//! How a variable stands in the body of a DO.
ghost use Rattle.std.specs.Prelude.{◌≡◌, map};
ghost use Rattle.f77_ast.specs.Plain.{expr_tree};
ghost use Rattle.f77_ast.specs.PlainStmt.{arm_trees, loop_tree, stmt_tree, stmt_trees, what_tree};
ghost use Rattle.f77_ast.specs.Shapes.{walk_arms, walk_list, walk_stmt};
ghost use Rattle.f77_ast.specs.Symbols.{symbol_tree};
ghost use Rattle.reductions.specs.Standings.{both as both_is, calls_it as calls_it_is, with_op as with_op_is, if_named as if_named_is, if_accumulated, in_assignment as in_assignment_is, in_leaf as in_leaf_is, in_header as in_header_is, the_standing, standing_in as standing_in_is};

use crate::accumulation::{accumulation, is_name, same_op};
use f77_ast::{Arm, Expr, Loop, Shape, Stmt, StmtId, Symbol, Symbols, What, shape_of};
use fx_lists::{List, Text};
use loop_marker::{bounds_have_name, has_name, have_name};
use result_lines::ReduceOp;

/// The highest number of a statement of the text (f77_ast, specs/Hidden).
const LAST_VISIBLE: StmtId = 4096;

/// How a variable stands in statements.
#[derive(Clone, Copy, Debug, PartialEq, Eq)]
pub enum Standing {
    /// Its name is not there.
    Absent,
    /// Each statement that has its name accumulates in it by this operator.
    Accumulated(ReduceOp),
    /// In another way too.
    Otherwise,
}

fn with_op(op: ReduceOp, more: Standing) -> Standing
    ensures { result ≡ with_op_is op more }
{
    match more {
        Standing::Absent => Standing::Accumulated(op),
        Standing::Accumulated(other) => if same_op(op, other) {
            Standing::Accumulated(op)
        } else {
            Standing::Otherwise
        },
        Standing::Otherwise => Standing::Otherwise,
    }
}

/// In statements and in further ones.
fn both(some: Standing, more: Standing) -> Standing
    ensures { result ≡ both_is some more }
{
    match some {
        Standing::Absent => more,
        Standing::Accumulated(op) => with_op(op, more),
        Standing::Otherwise => Standing::Otherwise,
    }
}

/// In what only reads or writes it in another way.
fn if_named(named: bool) -> Standing
    ensures { result ≡ if_named_is named }
{
    if named {
        Standing::Otherwise
    } else {
        Standing::Absent
    }
}

fn if_accumulated(op: Option<ReduceOp>) -> Standing
    ensures { result ≡ if_accumulated op }
{
    match op {
        None => Standing::Otherwise,
        Some(op) => Standing::Accumulated(op),
    }
}

fn in_assignment(symbols: &Symbols, v: &Symbol, left: &Expr, right: &Expr) -> Standing
    ensures { result ≡ in_assignment_is (map symbol_tree symbols.now) (symbol_tree v.now) (expr_tree left.now) (expr_tree right.now) }
{
    if is_name(&v.name, left) {
        return if_accumulated(accumulation(symbols, v, right));
    }
    if_named(has_name(&v.name, left) || has_name(&v.name, right))
}

/// Whether the CALL with this number is a hidden one, of a function with its name.
fn calls_it(v: &Symbol, id: StmtId, callee: &Text) -> bool
    ensures { result ≡ calls_it_is (symbol_tree v.now) id callee.now }
{
    id > LAST_VISIBLE && v.name == *callee
}

/// In a statement with this number, without statements inside it.
#[tactic(auto, using(f77_ast::proofs::PlainlyStmt::what_cases))]
fn in_leaf(symbols: &Symbols, v: &Symbol, id: StmtId, what: &What) -> Standing
    ensures { result ≡ in_leaf_is (map symbol_tree symbols.now) (symbol_tree v.now) id (what_tree what.now) }
{
    match what {
        What::Assign(left, right) => in_assignment(symbols, v, left, right),
        What::Call(callee, es) => if_named(calls_it(v, id, callee) || have_name(&v.name, es)),
        What::Print(es) | What::Read(es) => if_named(have_name(&v.name, es)),
        What::If(..)
        | What::LogicalIf(..)
        | What::Do(_)
        | What::Goto(_)
        | What::Continue
        | What::Return
        | What::Stop(_) => Standing::Absent,
    }
}

/// In the variable, the first, the last and the step of a DO.
#[tactic(auto, using(crate::proofs::Steps::loops))]
fn in_header(v: &Symbol, l: &Loop) -> Standing
    ensures { result ≡ in_header_is (symbol_tree v.now) (loop_tree l.now) }
{
    if_named(v.name == l.index || bounds_have_name(&v.name, l))
}

/// In a statement.
#[cycle(standings)]
#[tactic(auto, using(crate::proofs::Steps::walks))]
fn in_stmt(symbols: &Symbols, v: &Symbol, s: &Stmt) -> Standing
    ensures { result ≡ walk_stmt (the_standing (map symbol_tree symbols.now) (symbol_tree v.now)) (stmt_tree s.now) }
{
    match shape_of(&s.what) {
        Shape::Leaf => in_leaf(symbols, v, s.id, &s.what),
        Shape::Inner(test, inner) => {
            both(
                if_named(has_name(&v.name, test)),
                in_stmt(symbols, v, inner),
            )
        }
        Shape::Body(l) => both(in_header(v, l), in_list(symbols, v, &l.body)),
        Shape::Arms(arms, other) => {
            let first = in_arms(symbols, v, arms);
            match other {
                None => both(first, Standing::Absent),
                Some(body) => both(first, in_list(symbols, v, body)),
            }
        }
    }
}

/// In the statements of a list.
#[cycle(standings)]
#[tactic(auto, using(crate::proofs::Steps::walks))]
fn in_list(symbols: &Symbols, v: &Symbol, list: &List<Stmt>) -> Standing
    ensures { result ≡ walk_list (the_standing (map symbol_tree symbols.now) (symbol_tree v.now)) (stmt_trees list.now) }
{
    let mut found = Standing::Absent;
    for s in list.as_slice() {
        found = both(found, in_stmt(symbols, v, s));
    }
    found
}

#[cycle(standings)]
#[tactic(auto, using(crate::proofs::Steps::walks))]
fn in_arms(symbols: &Symbols, v: &Symbol, arms: &List<Arm>) -> Standing
    ensures { result ≡ walk_arms (the_standing (map symbol_tree symbols.now) (symbol_tree v.now)) (arm_trees arms.now) }
{
    let mut found = Standing::Absent;
    for arm in arms.as_slice() {
        let test = if_named(has_name(&v.name, &arm.test));
        let body = in_list(symbols, v, &arm.body);
        found = both(found, both(test, body));
    }
    found
}

/// How a variable stands in the statements of a list and their parts.
pub fn standing_in(symbols: &Symbols, v: &Symbol, list: &List<Stmt>) -> Standing
    ensures { result ≡ standing_in_is (map symbol_tree symbols.now) (symbol_tree v.now) (stmt_trees list.now) }
{
    in_list(symbols, v, list)
}
