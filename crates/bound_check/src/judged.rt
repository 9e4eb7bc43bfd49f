//! References by whether they are safe: those in expressions, and those that a statement evaluates itself.
ghost use Rattle.std.specs.Prelude.{◌≡◌, [], ◌++◌, map, IfOk, OnOk};
ghost use Rattle.affine_systems.specs.Given.{Fits};
ghost use Rattle.f77_ast.specs.Plain.{expr_tree, expr_trees};
ghost use Rattle.f77_ast.specs.PlainStmt.{loop_tree, maybe_tree, what_tree};
ghost use Rattle.preconditions.specs.call_translation.Scopes.{scope_tree};
ghost use Rattle.bound_check.specs.References.{all_elements, elements};
ghost use Rattle.bound_check.specs.Checked.{all_judged, both as both_is, header_judged, items_judged, judged, leaf_judged, no_checks as no_checks_is, step_judged};
ghost use Rattle.bound_check.specs.Judged.{judged_elements, judged_with};
ghost use Rattle.bound_check.specs.Views.{checks_tree, known_tree};

use crate::references::is_array;
use crate::safe::{Judging, is_safe};
use affine_systems::System;
use f77_ast::{At, Expr, Loop, What, copy_expr};
use fx_lists::List;
use preconditions::call_translation::{CellScope, named_cell, push_cell};
use std::alloc::{AllocError as Memory, Global};

/// References that cannot leave their array, and the others, in the order in which they are evaluated.
#[derive(Debug, PartialEq, Eq, Drop)]
pub struct Checks {
    pub safe: List<Expr>,
    pub others: List<Expr>,
}

/// What is known of a module: its scope, the variables that some statement of it changes, and what holds where its statements begin.
#[derive(Drop)]
pub struct Known<'a> {
    pub scope: &'a CellScope<'a>,
    pub changed: &'a [u32],
    pub preconditions: &'a List<At<System>>,
}

pub fn no_checks(alloc: Global) -> Checks
    ensures { checks_tree result ≡ no_checks_is }
{
    Checks {
        safe: List::new(alloc),
        others: List::new(alloc),
    }
}

fn joined(some: List<Expr>, more: List<Expr>) -> Result<List<Expr>, Memory>
    ensures { IfOk result (λ es. map expr_tree es ≡ map expr_tree some ++ map expr_tree more) }
{
    let mut all = some.into_vec();
    let mut rest = more.into_vec();
    all.append(&mut rest)?;
    Ok(List::from_vec(all))
}

/// The references of both.
pub fn both(checks: Checks, more: Checks) -> Result<Checks, Memory>
    ensures { IfOk result (λ c. checks_tree c ≡ both_is (checks_tree checks) (checks_tree more)) }
{
    let safe = joined(checks.safe, more.safe)?;
    let others = joined(checks.others, more.others)?;
    Ok(Checks { safe, others })
}

/// Adds an array element.
#[tactic(auto, using(crate::proofs::Steps::lists))]
fn push_element(alloc: Global, j: &Judging<'_>, e: &Expr, out: &mut Checks) -> Result<(), Memory>
    requires { Fits j.now.holds.now }
    ensures safe { OnOk result (map expr_tree out.new.safe ≡ map expr_tree out.old.safe ++ (judged_with j.now (expr_tree e.now)).safe) }
    ensures others { OnOk result (map expr_tree out.new.others ≡ map expr_tree out.old.others ++ (judged_with j.now (expr_tree e.now)).others) }
{
    let copy = copy_expr(alloc, e)?;
    if is_safe(alloc, j, e)? {
        out.safe.push(copy)?;
        return Ok(());
    }
    out.others.push(copy)?;
    Ok(())
}

/// Adds the array elements in an expression: those of the subscripts of an element come before it.
#[cycle(judged)]
#[tactic(auto, using(crate::proofs::Steps::expr_parts))]
fn push_elements(alloc: Global, j: &Judging<'_>, e: &Expr, out: &mut Checks) -> Result<(), Memory>
    requires { Fits j.now.holds.now }
    ensures safe { OnOk result (map expr_tree out.new.safe ≡ map expr_tree out.old.safe ++ (judged_elements j.now (elements (expr_tree e.now) (scope_tree j.now.scope.now.symbols.now j.now.scope.now.tracked.now))).safe) }
    ensures others { OnOk result (map expr_tree out.new.others ≡ map expr_tree out.old.others ++ (judged_elements j.now (elements (expr_tree e.now) (scope_tree j.now.scope.now.symbols.now j.now.scope.now.tracked.now))).others) }
{
    match e {
        Expr::Int(_) | Expr::Log(_) | Expr::Name(_) | Expr::Chars(_) => Ok(()),
        Expr::Element(name, es) => {
            push_subscripts(alloc, j, es, out)?;
            if !is_array(j.scope, name) {
                return Ok(());
            }
            push_element(alloc, j, e, out)?;
            Ok(())
        }
        Expr::Paren(e) | Expr::Unary(_, e) => {
            push_elements(alloc, j, e, out)?;
            Ok(())
        }
        Expr::Binary(_, a, b) => {
            push_elements(alloc, j, a, out)?;
            push_elements(alloc, j, b, out)?;
            Ok(())
        }
    }
}

/// Adds those in each expression of a list.
#[cycle(judged)]
#[tactic(auto, using(crate::proofs::Steps::expr_rest))]
fn push_subscripts(
    alloc: Global,
    j: &Judging<'_>,
    es: &List<Expr>,
    out: &mut Checks,
) -> Result<(), Memory>
    requires { Fits j.now.holds.now }
    ensures safe { OnOk result (map expr_tree out.new.safe ≡ map expr_tree out.old.safe ++ (judged_elements j.now (all_elements (expr_trees es.now) (scope_tree j.now.scope.now.symbols.now j.now.scope.now.tracked.now))).safe) }
    ensures others { OnOk result (map expr_tree out.new.others ≡ map expr_tree out.old.others ++ (judged_elements j.now (all_elements (expr_trees es.now) (scope_tree j.now.scope.now.symbols.now j.now.scope.now.tracked.now))).others) }
{
    for e in es.as_slice() {
        push_elements(alloc, j, e, out)?;
    }
    Ok(())
}

/// Adds the references in an expression of a statement that has changed these variables before.
fn push_judged(
    alloc: Global,
    known: &Known<'_>,
    holds: &System,
    written: &[u32],
    e: &Expr,
    out: &mut Checks,
) -> Result<(), Memory>
    requires { Fits holds.now }
    ensures safe { OnOk result (map expr_tree out.new.safe ≡ map expr_tree out.old.safe ++ (judged (known_tree known.now) holds.now.rows written.now (expr_tree e.now)).safe) }
    ensures others { OnOk result (map expr_tree out.new.others ≡ map expr_tree out.old.others ++ (judged (known_tree known.now) holds.now.rows written.now (expr_tree e.now)).others) }
{
    let j = Judging {
        scope: known.scope,
        changed: known.changed,
        written,
        holds,
    };
    push_elements(alloc, &j, e, out)
}

#[tactic(auto, using(crate::proofs::Steps::expressions))]
fn push_all(
    alloc: Global,
    known: &Known<'_>,
    holds: &System,
    es: &List<Expr>,
    out: &mut Checks,
) -> Result<(), Memory>
    requires { Fits holds.now }
    ensures safe { OnOk result (map expr_tree out.new.safe ≡ map expr_tree out.old.safe ++ (all_judged (known_tree known.now) holds.now.rows (expr_trees es.now)).safe) }
    ensures others { OnOk result (map expr_tree out.new.others ≡ map expr_tree out.old.others ++ (all_judged (known_tree known.now) holds.now.rows (expr_trees es.now)).others) }
{
    for e in es.as_slice() {
        push_judged(alloc, known, holds, &[], e, out)?;
    }
    Ok(())
}

/// Of the items of a READ: each is evaluated after those before it are set.
#[tactic(auto, using(crate::proofs::Steps::expressions))]
fn push_items(
    alloc: Global,
    known: &Known<'_>,
    holds: &System,
    es: &List<Expr>,
    out: &mut Checks,
) -> Result<(), Memory>
    requires { Fits holds.now }
    ensures safe { OnOk result (map expr_tree out.new.safe ≡ map expr_tree out.old.safe ++ (items_judged (known_tree known.now) holds.now.rows [] (expr_trees es.now)).safe) }
    ensures others { OnOk result (map expr_tree out.new.others ≡ map expr_tree out.old.others ++ (items_judged (known_tree known.now) holds.now.rows [] (expr_trees es.now)).others) }
{
    let mut written = Vec::new(alloc);
    for e in es.as_slice() {
        push_judged(alloc, known, holds, written.as_slice(), e, out)?;
        push_cell(&mut written, named_cell(known.scope, e))?;
    }
    Ok(())
}

fn push_step(
    alloc: Global,
    known: &Known<'_>,
    holds: &System,
    step: &Option<Expr>,
    out: &mut Checks,
) -> Result<(), Memory>
    requires { Fits holds.now }
    ensures safe { OnOk result (map expr_tree out.new.safe ≡ map expr_tree out.old.safe ++ (step_judged (known_tree known.now) holds.now.rows (maybe_tree step.now)).safe) }
    ensures others { OnOk result (map expr_tree out.new.others ≡ map expr_tree out.old.others ++ (step_judged (known_tree known.now) holds.now.rows (maybe_tree step.now)).others) }
{
    match step {
        None => Ok(()),
        Some(step) => {
            push_judged(alloc, known, holds, &[], step, out)?;
            Ok(())
        }
    }
}

/// Of the first, the last and the step of a DO.
#[tactic(auto, using(crate::proofs::Steps::headers))]
fn push_header(
    alloc: Global,
    known: &Known<'_>,
    holds: &System,
    l: &Loop,
    out: &mut Checks,
) -> Result<(), Memory>
    requires { Fits holds.now }
    ensures safe { OnOk result (map expr_tree out.new.safe ≡ map expr_tree out.old.safe ++ (header_judged (known_tree known.now) holds.now.rows (loop_tree l.now)).safe) }
    ensures others { OnOk result (map expr_tree out.new.others ≡ map expr_tree out.old.others ++ (header_judged (known_tree known.now) holds.now.rows (loop_tree l.now)).others) }
{
    push_judged(alloc, known, holds, &[], &l.first, out)?;
    push_judged(alloc, known, holds, &[], &l.last, out)?;
    push_step(alloc, known, holds, &l.step, out)?;
    Ok(())
}

/// Of a statement without statements inside it.
#[tactic(auto, using(crate::proofs::Steps::whats))]
fn push_leaf(
    alloc: Global,
    known: &Known<'_>,
    holds: &System,
    what: &What,
    out: &mut Checks,
) -> Result<(), Memory>
    requires { Fits holds.now }
    ensures safe { OnOk result (map expr_tree out.new.safe ≡ map expr_tree out.old.safe ++ (leaf_judged (known_tree known.now) holds.now.rows (what_tree what.now)).safe) }
    ensures others { OnOk result (map expr_tree out.new.others ≡ map expr_tree out.old.others ++ (leaf_judged (known_tree known.now) holds.now.rows (what_tree what.now)).others) }
{
    match what {
        What::Assign(left, right) => {
            push_judged(alloc, known, holds, &[], right, out)?;
            push_judged(alloc, known, holds, &[], left, out)?;
            Ok(())
        }
        What::Call(_, es) | What::Print(es) => {
            push_all(alloc, known, holds, es, out)?;
            Ok(())
        }
        What::Read(es) => {
            push_items(alloc, known, holds, es, out)?;
            Ok(())
        }
        What::If(..)
        | What::LogicalIf(..)
        | What::Do(_)
        | What::Goto(_)
        | What::Continue
        | What::Return
        | What::Stop(_) => Ok(()),
    }
}

/// The references in a test.
pub fn in_test(
    alloc: Global,
    known: &Known<'_>,
    holds: &System,
    test: &Expr,
) -> Result<Checks, Memory>
    requires { Fits holds.now }
    ensures { IfOk result (λ c. checks_tree c ≡ judged (known_tree known.now) holds.now.rows [] (expr_tree test.now)) }
{
    let mut checks = no_checks(alloc);
    push_judged(alloc, known, holds, &[], test, &mut checks)?;
    Ok(checks)
}

/// Those in the first, the last and the step of a DO.
pub fn in_header(
    alloc: Global,
    known: &Known<'_>,
    holds: &System,
    l: &Loop,
) -> Result<Checks, Memory>
    requires { Fits holds.now }
    ensures { IfOk result (λ c. checks_tree c ≡ header_judged (known_tree known.now) holds.now.rows (loop_tree l.now)) }
{
    let mut checks = no_checks(alloc);
    push_header(alloc, known, holds, l, &mut checks)?;
    Ok(checks)
}

/// Those of a statement without statements inside it.
pub fn in_leaf(
    alloc: Global,
    known: &Known<'_>,
    holds: &System,
    what: &What,
) -> Result<Checks, Memory>
    requires { Fits holds.now }
    ensures { IfOk result (λ c. checks_tree c ≡ leaf_judged (known_tree known.now) holds.now.rows (what_tree what.now)) }
{
    let mut checks = no_checks(alloc);
    push_leaf(alloc, known, holds, what, &mut checks)?;
    Ok(checks)
}
