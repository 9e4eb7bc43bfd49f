//! The groups of DATA (ANSI X3.9-1978 §9).
ghost use Rattle.std.specs.Prelude.{◌≡◌, ◌<◌, ◌^◌, ℕ, option_map};
ghost use Rattle.f77_ast.specs.DeclTrees.{DataValueTree, DataTree};
ghost use Rattle.f77_ast.specs.PlainDecl.{data_value_tree, data_tree};
ghost use Rattle.f77_exprs.specs.State.{state, GivesAs, GivesExpr};
ghost use Rattle.f77_statements.specs.Parts.{integer, signed_integer, data_constant, repeat_value, value_or_count, data_value, data_group, next_group};

use crate::lists::{Rule, Separator, items_before, skip_comma};
use crate::parts::Variables;
use f77_ast::{DataGroup, DataValue, Expr, UnaryOp};
use f77_exprs::{Cursor, ParseError, Reading, literal, number, number_first, unary};
use std::alloc::Global;

#[tactic(auto, unfolding(crate::specs::Parts::integer))]
fn integer(at: Cursor<'_>) -> Reading<'_, Expr>
    ensures { GivesExpr result (integer (state at.entry)) }
{
    if number_first(at.rest) {
        Ok(literal(at))
    } else {
        Err(ParseError::Syntax)
    }
}

#[tactic(auto, unfolding(crate::specs::Parts::signed_integer))]
fn signed_integer(alloc: Global, op: UnaryOp, at: Cursor<'_>) -> Reading<'_, Expr>
    ensures { GivesExpr result (signed_integer op (state at.entry)) }
{
    let (number, at) = integer(at)?;
    let tree = unary(alloc, op, number)?;
    Ok((tree, at))
}

/// An integer with a sign or none, or a logical constant.
#[tactic(auto, using(f77_ast::proofs::Plainly::expr_cases), unfolding(crate::specs::Parts::data_constant))]
fn data_constant(alloc: Global, at: Cursor<'_>) -> Reading<'_, Expr>
    ensures { GivesExpr result (data_constant (state at.entry)) }
{
    if let Some(rest) = at.parse_word(b".TRUE.") {
        return Ok((Expr::Log(true), rest));
    }
    if let Some(rest) = at.parse_word(b".FALSE.") {
        return Ok((Expr::Log(false), rest));
    }
    if let Some(rest) = at.parse_word(b"+") {
        return signed_integer(alloc, UnaryOp::Plus, rest);
    }
    if let Some(rest) = at.parse_word(b"-") {
        return signed_integer(alloc, UnaryOp::Minus, rest);
    }
    integer(at)
}

/// A constant behind its repeat count.
#[tactic(auto, unfolding(crate::specs::Parts::repeat_value))]
fn repeat_value(alloc: Global, count: u32, at: Cursor<'_>) -> Reading<'_, DataValue>
    ensures { GivesAs data_value_tree result (repeat_value count (state at.entry)) }
{
    let (value, at) = data_constant(alloc, at)?;
    let repeat = Some(count);
    Ok((DataValue { repeat, value }, at))
}

/// A number that was read, and a constant behind it where it is a repeat count.
#[tactic(auto, using(f77_ast::proofs::Plainly::expr_cases), unfolding(crate::specs::Parts::value_or_count))]
fn value_or_count(alloc: Global, n: u32, at: Cursor<'_>) -> Reading<'_, DataValue>
    requires { n < 2 ^ 31 }
    ensures { GivesAs data_value_tree result (value_or_count n (state at.entry)) }
{
    match at.parse_word(b"*") {
        Some(rest) => repeat_value(alloc, n, rest),
        None => {
            let value = Expr::Int(n as i32);
            let repeat = None;
            Ok((DataValue { repeat, value }, at))
        }
    }
}

/// Values, with a repeat count or without.
enum DataValues {}

impl Rule for DataValues {
    type Value = DataValue;

    ghost Tree = { DataValueTree };

    ghost tree = { data_value_tree };

    ghost rule = { data_value };

    #[tactic(auto, unfolding(crate::specs::Parts::data_value))]
    fn read<'a>(alloc: Global, at: Cursor<'a>) -> Reading<'a, DataValue> {
        if number_first(at.rest) {
            let (n, at) = number(at);
            return value_or_count(alloc, n, at);
        }
        let (value, at) = data_constant(alloc, at)?;
        let repeat = None;
        Ok((DataValue { repeat, value }, at))
    }
}

/// Names and array elements, and their values between slashes: `v,../c,../`.
pub enum DataGroups {}

impl Rule for DataGroups {
    type Value = DataGroup;

    ghost Tree = { DataTree };

    ghost tree = { data_tree };

    ghost rule = { data_group };

    #[tactic(auto, unfolding(crate::specs::Parts::data_group))]
    fn read<'a>(alloc: Global, at: Cursor<'a>) -> Reading<'a, DataGroup> {
        let (targets, at) = items_before::<Variables>(alloc, b"/", at)?;
        let (values, at) = items_before::<DataValues>(alloc, b"/", at)?;
        Ok((DataGroup { targets, values }, at))
    }
}

/// An optional comma between two groups; there is no next group at the end of the statement.
pub enum NextGroup {}

impl Separator for NextGroup {
    ghost between = { next_group };

    fn next<'a>(at: Cursor<'a>) -> Option<Cursor<'a>> {
        match at.rest {
            [] => None,
            [_, ..] => Some(skip_comma(at)),
        }
    }
}
