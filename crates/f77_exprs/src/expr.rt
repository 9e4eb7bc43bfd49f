//! Expressions (ANSI X3.9-1978 §6), by levels of precedence, each with the one below it.
ghost use Rattle.std.specs.Prelude.{◌≡◌, ◌≤◌, ℕ, length, map, IfOk};
ghost use Rattle.f77_ast.specs.Plain.{expr_tree};
ghost use Rattle.f77_exprs.specs.State.{state, GivesAs, GivesExpr};
ghost use Rattle.f77_exprs.specs.Grammar.{part, whole, power, more, operators_of, operand_of, comma, more_by, items, element_at, variable_in, parenthesis, primary, exponent, factor, term, signed_terms, signed_term, arithmetic, comparison, relation, negated_relation, negation, conjunction, disjunction, equivalence, expression, variable};

use crate::build::{binary, paren, unary};
use crate::constants::constant_at;
use crate::names::name_at;
use crate::numbers::{literal, number_first};
use crate::operators::{Level, RELATIONS, one_of};
use crate::parse_error::Reading;
use crate::{Cursor, ParseError};
use f77_ast::{BinaryOp, Expr, UnaryOp};
use fx_lists::{List, Text};
use std::alloc::Global;

/// The expression at the front of a text, as far as the grammar goes on. Err is `Syntax` where none begins there.
#[tactic(auto, unfolding(crate::specs::Grammar::expression))]
pub fn expression(alloc: Global, at: Cursor<'_>) -> Reading<'_, Expr>
    ensures defined { GivesExpr result (expression (state at.entry)) }
    ensures shorter { IfOk result (λ x. length x.1.rest.now ≤ length at.entry.rest.now) }
{
    whole(alloc, at.rest.len() + 1, at)
}

/// A name, with subscripts or arguments in parentheses or without. Err is `Syntax` where none is at the front.
#[tactic(auto, unfolding(crate::specs::Grammar::variable))]
pub fn variable(alloc: Global, at: Cursor<'_>) -> Reading<'_, Expr>
    ensures { GivesExpr result (variable (state at.entry)) }
{
    variable_in(alloc, at.rest.len() + 1, at)
}

/// An expression with at most `depth` parts in one another.
#[cycle(expr)]
#[tactic(auto, unfolding(crate::specs::Grammar::part))]
fn whole(alloc: Global, depth: usize, at: Cursor<'_>) -> Reading<'_, Expr>
    ensures { GivesExpr result (part depth whole (state at.entry)) }
{
    if depth == 0 {
        return Err(ParseError::Syntax);
    }
    equivalence(alloc, depth - 1, at)
}

/// What follows `**`.
#[cycle(expr)]
#[tactic(auto, unfolding(crate::specs::Grammar::part))]
fn power(alloc: Global, depth: usize, at: Cursor<'_>) -> Reading<'_, Expr>
    ensures { GivesExpr result (part depth power (state at.entry)) }
{
    if depth == 0 {
        return Err(ParseError::Syntax);
    }
    factor(alloc, depth - 1, at)
}

/// The operators of a level and their operands, behind a left operand.
#[cycle(expr)]
#[tactic(auto, using(crate::proofs::Chains::more_steps))]
#[inline(never)]
fn more<'a>(
    alloc: Global,
    depth: usize,
    level: Level,
    left: Expr,
    at: Cursor<'a>,
) -> Reading<'a, Expr>
    ensures { GivesExpr result
        (more (operators_of level) (operand_of level (part depth)) (length at.entry.rest.now)
        (expr_tree left) (state at.entry)) }
{
    let mut left = left;
    let mut at = at;
    let mut turns = at.rest.len();
    while turns > 0 {
        match one_of(level.operators(), at) {
            None => return Ok((left, at)),
            Some((op, rest)) => {
                let (right, rest) = operand(alloc, depth, level, rest)?;
                left = binary(alloc, op, left, right)?;
                at = rest;
                turns -= 1;
            }
        }
    }
    Ok((left, at))
}

#[cycle(expr)]
#[inline(never)]
fn operand(alloc: Global, depth: usize, level: Level, at: Cursor<'_>) -> Reading<'_, Expr>
    ensures { GivesExpr result (operand_of level (part depth) (state at.entry)) }
{
    match level {
        Level::Equivalence => disjunction(alloc, depth, at),
        Level::Disjunction => conjunction(alloc, depth, at),
        Level::Conjunction => negation(alloc, depth, at),
        Level::Sum => term(alloc, depth, at),
        Level::Product => factor(alloc, depth, at),
    }
}

#[cycle(expr)]
#[tactic(auto, unfolding(crate::specs::Grammar::chain))]
fn equivalence(alloc: Global, depth: usize, at: Cursor<'_>) -> Reading<'_, Expr>
    ensures { GivesExpr result (equivalence (part depth) (state at.entry)) }
{
    let (left, at) = disjunction(alloc, depth, at)?;
    more(alloc, depth, Level::Equivalence, left, at)
}

#[cycle(expr)]
#[tactic(auto, unfolding(crate::specs::Grammar::chain))]
fn disjunction(alloc: Global, depth: usize, at: Cursor<'_>) -> Reading<'_, Expr>
    ensures { GivesExpr result (disjunction (part depth) (state at.entry)) }
{
    let (left, at) = conjunction(alloc, depth, at)?;
    more(alloc, depth, Level::Disjunction, left, at)
}

#[cycle(expr)]
#[tactic(auto, unfolding(crate::specs::Grammar::chain))]
fn conjunction(alloc: Global, depth: usize, at: Cursor<'_>) -> Reading<'_, Expr>
    ensures { GivesExpr result (conjunction (part depth) (state at.entry)) }
{
    let (left, at) = negation(alloc, depth, at)?;
    more(alloc, depth, Level::Conjunction, left, at)
}

/// `.NOT.`, once at most, and a relation.
#[cycle(expr)]
#[tactic(auto, unfolding(crate::specs::Grammar::negation))]
fn negation(alloc: Global, depth: usize, at: Cursor<'_>) -> Reading<'_, Expr>
    ensures { GivesExpr result (negation (part depth) (state at.entry)) }
{
    match at.parse_word(b".NOT.") {
        None => relation(alloc, depth, at),
        Some(rest) => negated_relation(alloc, depth, rest),
    }
}

#[cycle(expr)]
#[tactic(auto, unfolding(crate::specs::Grammar::negated_relation))]
#[inline(never)]
fn negated_relation(alloc: Global, depth: usize, at: Cursor<'_>) -> Reading<'_, Expr>
    ensures { GivesExpr result (negated_relation (part depth) (state at.entry)) }
{
    let (tree, rest) = relation(alloc, depth, at)?;
    let tree = unary(alloc, UnaryOp::Not, tree)?;
    Ok((tree, rest))
}

#[cycle(expr)]
#[tactic(auto, unfolding(crate::specs::Grammar::relation))]
fn relation(alloc: Global, depth: usize, at: Cursor<'_>) -> Reading<'_, Expr>
    ensures { GivesExpr result (relation (part depth) (state at.entry)) }
{
    let (left, at) = arithmetic(alloc, depth, at)?;
    comparison(alloc, depth, left, at)
}

/// What follows the left side of a comparison.
#[cycle(expr)]
#[tactic(auto, unfolding(crate::specs::Grammar::comparison))]
#[inline(never)]
fn comparison<'a>(alloc: Global, depth: usize, left: Expr, at: Cursor<'a>) -> Reading<'a, Expr>
    ensures { GivesExpr result (comparison (part depth) (expr_tree left) (state at.entry)) }
{
    match one_of(&RELATIONS, at) {
        None => Ok((left, at)),
        Some((op, rest)) => {
            let (right, rest) = arithmetic(alloc, depth, rest)?;
            let tree = binary(alloc, op, left, right)?;
            Ok((tree, rest))
        }
    }
}

#[cycle(expr)]
#[tactic(auto, unfolding(crate::specs::Grammar::arithmetic))]
fn arithmetic(alloc: Global, depth: usize, at: Cursor<'_>) -> Reading<'_, Expr>
    ensures { GivesExpr result (arithmetic (part depth) (state at.entry)) }
{
    let (left, at) = signed_term(alloc, depth, at)?;
    more(alloc, depth, Level::Sum, left, at)
}

/// A term, with a sign before it or none.
#[cycle(expr)]
#[tactic(auto, unfolding(crate::specs::Grammar::signed_term))]
fn signed_term(alloc: Global, depth: usize, at: Cursor<'_>) -> Reading<'_, Expr>
    ensures { GivesExpr result (signed_term (part depth) (state at.entry)) }
{
    if let Some(rest) = at.parse_word(b"+") {
        return signed_terms(alloc, depth, UnaryOp::Plus, rest);
    }
    if let Some(rest) = at.parse_word(b"-") {
        return signed_terms(alloc, depth, UnaryOp::Minus, rest);
    }
    term(alloc, depth, at)
}

#[cycle(expr)]
#[tactic(auto, unfolding(crate::specs::Grammar::signed_terms))]
#[inline(never)]
fn signed_terms(alloc: Global, depth: usize, op: UnaryOp, at: Cursor<'_>) -> Reading<'_, Expr>
    ensures { GivesExpr result (signed_terms op (part depth) (state at.entry)) }
{
    let (tree, rest) = term(alloc, depth, at)?;
    let tree = unary(alloc, op, tree)?;
    Ok((tree, rest))
}

#[cycle(expr)]
#[tactic(auto, unfolding(crate::specs::Grammar::chain))]
fn term(alloc: Global, depth: usize, at: Cursor<'_>) -> Reading<'_, Expr>
    ensures { GivesExpr result (term (part depth) (state at.entry)) }
{
    let (left, at) = factor(alloc, depth, at)?;
    more(alloc, depth, Level::Product, left, at)
}

#[cycle(expr)]
#[tactic(auto, unfolding(crate::specs::Grammar::factor))]
fn factor(alloc: Global, depth: usize, at: Cursor<'_>) -> Reading<'_, Expr>
    ensures { GivesExpr result (factor (part depth) (state at.entry)) }
{
    let (base, at) = primary(alloc, depth, at)?;
    exponent(alloc, depth, base, at)
}

/// What follows a base.
#[cycle(expr)]
#[tactic(auto, unfolding(crate::specs::Grammar::exponent))]
#[inline(never)]
fn exponent<'a>(alloc: Global, depth: usize, base: Expr, at: Cursor<'a>) -> Reading<'a, Expr>
    ensures { GivesExpr result (exponent (part depth) (expr_tree base) (state at.entry)) }
{
    match at.parse_word(b"**") {
        None => Ok((base, at)),
        Some(rest) => {
            let (raised, rest) = power(alloc, depth, rest)?;
            Ok((binary(alloc, BinaryOp::Pow, base, raised)?, rest))
        }
    }
}

/// A constant, a variable, a call, or an expression in parentheses.
#[cycle(expr)]
#[tactic(auto, using(f77_ast::proofs::Plainly::expr_cases), unfolding(crate::specs::Grammar::primary))]
fn primary(alloc: Global, depth: usize, at: Cursor<'_>) -> Reading<'_, Expr>
    ensures { GivesExpr result (primary (part depth) (state at.entry)) }
{
    if let Some(rest) = at.parse_word(b".TRUE.") {
        return Ok((Expr::Log(true), rest));
    }
    if let Some(rest) = at.parse_word(b".FALSE.") {
        return Ok((Expr::Log(false), rest));
    }
    if let Some(rest) = at.parse_word(b"(") {
        return parenthesis(alloc, depth, rest);
    }
    if let Some(rest) = at.parse_word(b"'") {
        return constant_at(alloc, rest);
    }
    if number_first(at.rest) {
        return Ok(literal(at));
    }
    variable_in(alloc, depth, at)
}

/// An expression behind its opening parenthesis.
#[cycle(expr)]
#[tactic(auto, unfolding(crate::specs::Grammar::parenthesis))]
#[inline(never)]
fn parenthesis(alloc: Global, depth: usize, at: Cursor<'_>) -> Reading<'_, Expr>
    ensures { GivesExpr result (parenthesis (part depth) (state at.entry)) }
{
    let (tree, rest) = whole(alloc, depth, at)?;
    match rest.parse_word(b")") {
        None => Err(ParseError::Syntax),
        Some(rest) => {
            let tree = paren(alloc, tree)?;
            Ok((tree, rest))
        }
    }
}

#[cycle(expr)]
#[tactic(auto, using(f77_ast::proofs::Plainly::expr_cases), unfolding(crate::specs::Grammar::variable_in))]
#[inline(never)]
fn variable_in(alloc: Global, depth: usize, at: Cursor<'_>) -> Reading<'_, Expr>
    ensures { GivesExpr result (variable_in (part depth) (state at.entry)) }
{
    let (name, at) = name_at(alloc, at)?;
    match at.parse_word(b"(") {
        None => Ok((Expr::Name(name), at)),
        Some(rest) => element_at(alloc, depth, name, rest),
    }
}

/// The subscripts or arguments behind their opening parenthesis.
#[cycle(expr)]
#[tactic(auto, using(f77_ast::proofs::Plainly::expr_cases), unfolding(crate::specs::Grammar::element_at))]
#[inline(never)]
fn element_at<'a>(alloc: Global, depth: usize, name: Text, at: Cursor<'a>) -> Reading<'a, Expr>
    ensures { GivesExpr result (element_at (part depth) name (state at.entry)) }
{
    let (subscripts, rest) = items(alloc, depth, at)?;
    match rest.parse_word(b")") {
        None => Err(ParseError::Syntax),
        Some(rest) => Ok((Expr::Element(name, subscripts), rest)),
    }
}

/// One or more expressions with commas between them.
#[cycle(expr)]
#[tactic(auto, unfolding(crate::specs::Grammar::items_by))]
#[inline(never)]
fn items(alloc: Global, depth: usize, at: Cursor<'_>) -> Reading<'_, List<Expr>>
    ensures { GivesAs (map expr_tree) result (items (part depth whole) (state at.entry)) }
{
    let (first, at) = whole(alloc, depth, at)?;
    let mut found = List::new(alloc);
    found.push(first)?;
    more_items(alloc, depth, found, at)
}

#[cycle(expr)]
#[tactic(auto, using(crate::proofs::Chains::items_steps))]
#[inline(never)]
fn more_items<'a>(
    alloc: Global,
    depth: usize,
    found: List<Expr>,
    at: Cursor<'a>,
) -> Reading<'a, List<Expr>>
    ensures { GivesAs (map expr_tree) result
        (more_by comma (part depth whole) (length at.entry.rest.now) (map expr_tree found)
        (state at.entry)) }
{
    let mut found = found;
    let mut at = at;
    let mut turns = at.rest.len();
    while turns > 0 {
        match at.parse_word(b",") {
            None => return Ok((found, at)),
            Some(rest) => {
                let (item, rest) = whole(alloc, depth, rest)?;
                found.push(item)?;
                at = rest;
                turns -= 1;
            }
        }
    }
    Ok((found, at))
}
