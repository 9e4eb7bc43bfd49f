//! The references of the statements of a module, by whether they are safe.
ghost use Rattle.std.specs.Prelude.{◌≡◌, true, ◌++◌, map, IfOk};
ghost use Rattle.affine_systems.specs.Given.{Fits};
ghost use Rattle.f77_ast.specs.Hidden.{is_hidden as is_hidden_is};
ghost use Rattle.f77_ast.specs.Plain.{expr_tree};
ghost use Rattle.f77_ast.specs.PlainStmt.{arm_trees, stmt_tree, stmt_trees};
ghost use Rattle.f77_ast.specs.Shapes.{walk_arms, walk_list, walk_stmt};
ghost use Rattle.loop_marker.specs.dependence_test.Body.{system_at as system_at_is};
ghost use Rattle.loop_marker.specs.dependence_test.Given.{AnalysisFits};
ghost use Rattle.preconditions.specs.Statement.{EachFits};
ghost use Rattle.bound_check.specs.Checked.{at_statement as at_statement_is, checked_of, is_nil as is_nil_is, join as join_is, none as none_is, own_alone as own_alone_is, statement as statement_is, the_references};
ghost use Rattle.bound_check.specs.Views.{checks_at, checks_tree, known_in, known_tree, seen_tree};

use crate::judged::{Checks, Known, both, in_header, in_leaf, in_test, no_checks};
use affine_systems::System;
use call_equations::changed_cells;
use f77_ast::{Arm, At, Expr, Shape, Stmt, StmtId, shape_of};
use fx_lists::List;
use loop_marker::dependence_test::{Analysis, system_at};
use preconditions::call_translation::{CellScope, tracked_of};
use std::alloc::{AllocError as Memory, Global};

/// The highest number of a statement of the text (f77_ast, specs/Hidden).
const LAST_VISIBLE: StmtId = 4096;

/// The references of parts that have no lines themselves, and those at the parts that have.
#[derive(Drop)]
struct Seen {
    own: Checks,
    below: List<At<Checks>>,
}

fn none(alloc: Global) -> Seen
    ensures { seen_tree result ≡ none_is }
{
    own_alone(alloc, no_checks(alloc))
}

fn own_alone(alloc: Global, own: Checks) -> Seen
    ensures { seen_tree result ≡ own_alone_is (checks_tree own) }
{
    let below = List::new(alloc);
    Seen { own, below }
}

fn joined(some: List<At<Checks>>, more: List<At<Checks>>) -> Result<List<At<Checks>>, Memory>
    ensures { IfOk result (λ as'. map checks_at as' ≡ map checks_at some ++ map checks_at more) }
{
    let mut all = some.into_vec();
    let mut rest = more.into_vec();
    all.append(&mut rest)?;
    Ok(List::from_vec(all))
}

/// What is seen, and what is seen after it.
#[tactic(auto, unfolding(crate::specs::Checked::join))]
fn join(seen: Seen, more: Seen) -> Result<Seen, Memory>
    ensures { IfOk result (λ s. seen_tree s ≡ join_is (seen_tree seen) (seen_tree more)) }
{
    let own = both(seen.own, more.own)?;
    let below = joined(seen.below, more.below)?;
    Ok(Seen { own, below })
}

fn is_nil(es: &List<Expr>) -> bool
    ensures { result ≡ is_nil_is (map expr_tree es.now) }
{
    match es.as_slice() {
        [] => true,
        [_, ..] => false,
    }
}

/// What has its lines at a statement; nothing without references.
fn at_statement(alloc: Global, id: StmtId, value: Checks) -> Result<List<At<Checks>>, Memory>
    ensures { IfOk result (λ as'. map checks_at as' ≡ at_statement_is id (checks_tree value)) }
{
    let mut found = List::new(alloc);
    if is_nil(&value.safe) && is_nil(&value.others) {
        return Ok(found);
    }
    found.push(At { id, value })?;
    Ok(found)
}

fn is_hidden(id: StmtId) -> bool
    ensures { result ≡ is_hidden_is id }
{
    id > LAST_VISIBLE
}

/// A statement with these references, and these of its parts; it has lines if it is one of the text that is not inside a logical IF.
#[tactic(auto, unfolding(crate::specs::Checked::statement))]
fn statement(
    alloc: Global,
    lined: bool,
    id: StmtId,
    checks: Checks,
    parts: Seen,
) -> Result<Seen, Memory>
    ensures { IfOk result (λ s. seen_tree s ≡ statement_is lined id (checks_tree checks) (seen_tree parts)) }
{
    let own = both(checks, parts.own)?;
    let below = parts.below;
    if !lined || is_hidden(id) {
        return Ok(Seen { own, below });
    }
    let here = at_statement(alloc, id, own)?;
    let below = joined(here, below)?;
    let own = no_checks(alloc);
    Ok(Seen { own, below })
}

/// Of a statement and its parts; `lined` says that it is not inside a logical IF.
#[cycle(references)]
#[tactic(auto, using(crate::proofs::Steps::walks))]
fn in_stmt(alloc: Global, known: &Known<'_>, s: &Stmt, lined: bool) -> Result<Seen, Memory>
    requires { EachFits known.now.preconditions.now }
    ensures { IfOk result (λ seen. (outer : _) → seen_tree seen ≡ walk_stmt (the_references (known_tree known.now)) (stmt_tree s.now) outer lined) }
{
    let holds = system_at(alloc, known.preconditions, s.id)?;
    match shape_of(&s.what) {
        Shape::Leaf => {
            let own = in_leaf(alloc, known, &holds, &s.what)?;
            Ok(statement(alloc, lined, s.id, own, none(alloc))?)
        }
        Shape::Inner(test, inner) => {
            let own = in_test(alloc, known, &holds, test)?;
            let parts = in_stmt(alloc, known, inner, false)?;
            Ok(statement(alloc, lined, s.id, own, parts)?)
        }
        Shape::Body(l) => {
            let own = in_header(alloc, known, &holds, l)?;
            let parts = in_list(alloc, known, &l.body)?;
            Ok(statement(alloc, lined, s.id, own, parts)?)
        }
        Shape::Arms(arms, other) => {
            let first = in_arms(alloc, known, &holds, s.id, arms)?;
            let rest = match other {
                None => none(alloc),
                Some(body) => in_list(alloc, known, body)?,
            };
            let parts = join(first, rest)?;
            Ok(statement(alloc, lined, s.id, no_checks(alloc), parts)?)
        }
    }
}

/// Of the statements of a list.
#[cycle(references)]
#[tactic(auto, using(crate::proofs::Steps::walks))]
fn in_list(alloc: Global, known: &Known<'_>, list: &List<Stmt>) -> Result<Seen, Memory>
    requires { EachFits known.now.preconditions.now }
    ensures { IfOk result (λ seen. (outer : _) → seen_tree seen ≡ walk_list (the_references (known_tree known.now)) (stmt_trees list.now) outer true) }
{
    let mut seen = none(alloc);
    for s in list.as_slice() {
        seen = join(seen, in_stmt(alloc, known, s, true)?)?;
    }
    Ok(seen)
}

/// Of the arms of the block IF of a number, whose tests are evaluated where this holds.
#[cycle(references)]
#[tactic(auto, using(crate::proofs::Steps::walks))]
fn in_arms(
    alloc: Global,
    known: &Known<'_>,
    holds: &System,
    id: StmtId,
    arms: &List<Arm>,
) -> Result<Seen, Memory>
    requires known { EachFits known.now.preconditions.now }
    requires holds { Fits holds.now }
    requires same { holds.now ≡ system_at_is known.now.preconditions.now id }
    ensures { IfOk result (λ seen. seen_tree seen ≡ walk_arms (the_references (known_tree known.now)) (arm_trees arms.now) id true) }
{
    let mut seen = none(alloc);
    for arm in arms.as_slice() {
        let test = own_alone(alloc, in_test(alloc, known, holds, &arm.test)?);
        let body = in_list(alloc, known, &arm.body)?;
        let both = join(test, body)?;
        seen = join(seen, both)?;
    }
    Ok(seen)
}

/// The statements of a module that have lines and refer to elements of arrays, in the order of the text, with these references. Linear in the
/// references and the depth of the statements, beside at most two refutations of the precondition for each subscript.
pub fn checked(alloc: Global, a: &Analysis<'_>) -> Result<List<At<Checks>>, Memory>
    requires { AnalysisFits a.now }
    ensures { IfOk result (λ cs. map checks_at cs ≡ checked_of (known_in a.now) (stmt_trees a.now.view.now.«module».now.body)) }
{
    let tracked = tracked_of(alloc, a.view)?;
    let scope = CellScope {
        symbols: a.view.symbols,
        tracked: &tracked,
    };
    let changed = changed_cells(alloc, a.transformers)?;
    let known = Known {
        scope: &scope,
        changed: changed.as_slice(),
        preconditions: &a.preconditions.at,
    };
    let seen = in_list(alloc, &known, &a.view.module.body)?;
    Ok(seen.below)
}
