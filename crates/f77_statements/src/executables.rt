//! Executable statements that open and close no block. A reader takes a stripped statement from its front, and its Err is
//! `Syntax` where the text is not of the form; in a form `[..]` need not be there.
ghost use Rattle.std.specs.Prelude.{◌≡◌, ℕ};
ghost use Rattle.f77_ast.specs.PlainStmt.{what_tree};
ghost use Rattle.f77_exprs.specs.State.{state, GivesAs, GivesExpr};
ghost use Rattle.f77_statements.specs.Executables.{empty_call, right_side, assignment, call_statement, goto_statement, continue_statement, return_statement, five_digits, message, stop_text, stop_statement, print_statement, write_list, write_statement, read_listed, read_left, read_statement};

use crate::lists::{items_left, maybe_after_comma, maybe_in_parentheses};
use crate::parts::{Expressions, Variables};
use f77_ast::{Expr, What};
use f77_exprs::{
    Cursor, ParseError, Reading, before, constant, digit_first, expression, label_at, name_at,
    skip_digits, variable,
};
use fx_lists::{List, Text};
use std::alloc::Global;

/// `F()` up to the end of the statement: a function without actual arguments (ANSI X3.9-1978 §15.2.1).
#[tactic(auto, using(f77_ast::proofs::Plainly::expr_cases), unfolding(crate::specs::Executables::empty_call))]
fn empty_call(alloc: Global, at: Cursor<'_>) -> Reading<'_, Expr>
    ensures { GivesExpr result (empty_call (state at.entry)) }
{
    let (name, at) = name_at(alloc, at)?;
    let at = at.need_word(b"()")?;
    match at.rest {
        [] => Ok((Expr::Element(name, List::new(alloc)), at)),
        [_, ..] => Err(ParseError::Syntax),
    }
}

/// What follows the `=` of an assignment: an expression, or a function without actual arguments.
#[tactic(auto, unfolding(crate::specs::Executables::right_side))]
fn right_side(alloc: Global, at: Cursor<'_>) -> Reading<'_, Expr>
    ensures { GivesExpr result (right_side (state at.entry)) }
{
    match expression(alloc, at) {
        Ok(read) => Ok(read),
        Err(ParseError::Syntax) => empty_call(alloc, at),
        Err(ParseError::Memory) => Err(ParseError::Memory),
    }
}

/// `v=e` and `v=F()` (ANSI X3.9-1978 §10.1, §10.2)
#[tactic(auto, using(f77_ast::proofs::PlainlyStmt::what_cases), unfolding(crate::specs::Executables::assignment))]
pub fn assignment(alloc: Global, at: Cursor<'_>) -> Reading<'_, What>
    ensures { GivesAs what_tree result (assignment (state at.entry)) }
{
    let (left, at) = variable(alloc, at)?;
    let at = at.need_word(b"=")?;
    let (value, at) = right_side(alloc, at)?;
    Ok((What::Assign(left, value), at))
}

/// `CALLn[([a,..])]`, without alternate returns (§15.6)
#[tactic(auto, using(f77_ast::proofs::PlainlyStmt::what_cases), unfolding(crate::specs::Executables::call_statement))]
pub fn call_statement(alloc: Global, at: Cursor<'_>) -> Reading<'_, What>
    ensures { GivesAs what_tree result (call_statement (state at.entry)) }
{
    let at = at.need_word(b"CALL")?;
    let (name, at) = name_at(alloc, at)?;
    let (actuals, at) = maybe_in_parentheses::<Expressions>(alloc, at)?;
    Ok((What::Call(name, actuals), at))
}

/// `GOTOl` (§11.1)
#[tactic(auto, using(f77_ast::proofs::PlainlyStmt::what_cases), unfolding(crate::specs::Executables::goto_statement))]
pub fn goto_statement(_alloc: Global, at: Cursor<'_>) -> Reading<'_, What>
    ensures { GivesAs what_tree result (goto_statement (state at.entry)) }
{
    let at = at.need_word(b"GOTO")?;
    let (label, at) = label_at(at)?;
    Ok((What::Goto(label), at))
}

/// `CONTINUE` (§11.11)
#[tactic(auto, using(f77_ast::proofs::PlainlyStmt::what_cases), unfolding(crate::specs::Executables::continue_statement))]
pub fn continue_statement(_alloc: Global, at: Cursor<'_>) -> Reading<'_, What>
    ensures { GivesAs what_tree result (continue_statement (state at.entry)) }
{
    let at = at.need_word(b"CONTINUE")?;
    Ok((What::Continue, at))
}

/// `RETURN`
#[tactic(auto, using(f77_ast::proofs::PlainlyStmt::what_cases), unfolding(crate::specs::Executables::return_statement))]
pub fn return_statement(_alloc: Global, at: Cursor<'_>) -> Reading<'_, What>
    ensures { GivesAs what_tree result (return_statement (state at.entry)) }
{
    let at = at.need_word(b"RETURN")?;
    Ok((What::Return, at))
}

/// Up to five digits, as they are written.
#[tactic(auto, unfolding(crate::specs::Executables::five_digits))]
fn five_digits(alloc: Global, at: Cursor<'_>) -> Reading<'_, Option<Text>>
    ensures { GivesAs (λ t. t) result (five_digits (state at.entry)) }
{
    if !digit_first(at.rest) {
        return Err(ParseError::Syntax);
    }
    let rest = skip_digits(at.rest);
    let digits = before(at.rest, rest);
    if digits.len() > 5 {
        return Err(ParseError::Syntax);
    }
    let text = Text::from_bytes(alloc, digits)?;
    let notes = at.notes;
    Ok((Some(text), Cursor { rest, notes }))
}

/// A character constant behind its first apostrophe, with all its apostrophes as `text` has them.
#[tactic(auto, unfolding(crate::specs::Executables::message))]
fn message<'a>(alloc: Global, text: &'a [u8], at: Cursor<'a>) -> Reading<'a, Option<Text>>
    ensures { GivesAs (λ t. t) result (message text.now (state at.entry)) }
{
    let (_, rest) = constant(alloc, at.rest)?;
    let message = Text::from_bytes(alloc, before(text, rest))?;
    let notes = at.notes;
    Ok((Some(message), Cursor { rest, notes }))
}

/// Nothing, up to five digits, or a character constant.
#[tactic(auto, unfolding(crate::specs::Executables::stop_text))]
fn stop_text(alloc: Global, at: Cursor<'_>) -> Reading<'_, Option<Text>>
    ensures { GivesAs (λ t. t) result (stop_text (state at.entry)) }
{
    match at.rest {
        [] => Ok((None, at)),
        [_, ..] => match at.parse_word(b"'") {
            Some(rest) => message(alloc, at.rest, rest),
            None => five_digits(alloc, at),
        },
    }
}

/// `STOP[t]`, where `t` is up to five digits or a character constant (§11.12)
#[tactic(auto, using(f77_ast::proofs::PlainlyStmt::what_cases), unfolding(crate::specs::Executables::stop_statement))]
pub fn stop_statement(alloc: Global, at: Cursor<'_>) -> Reading<'_, What>
    ensures { GivesAs what_tree result (stop_statement (state at.entry)) }
{
    let at = at.need_word(b"STOP")?;
    let (text, at) = stop_text(alloc, at)?;
    Ok((What::Stop(text), at))
}

/// `PRINT*[,list]` (§12.8)
#[tactic(auto, using(f77_ast::proofs::PlainlyStmt::what_cases), unfolding(crate::specs::Executables::print_statement))]
pub fn print_statement(alloc: Global, at: Cursor<'_>) -> Reading<'_, What>
    ensures { GivesAs what_tree result (print_statement (state at.entry)) }
{
    let at = at.need_word(b"PRINT*")?;
    let (items, at) = maybe_after_comma::<Expressions>(alloc, at)?;
    Ok((What::Print(items), at))
}

/// The list of a WRITE, which is read as PRINT.
#[tactic(auto, using(f77_ast::proofs::PlainlyStmt::what_cases), unfolding(crate::specs::Executables::write_list))]
fn write_list(alloc: Global, at: Cursor<'_>) -> Reading<'_, What>
    ensures { GivesAs what_tree result (write_list (state at.entry)) }
{
    let (items, at) = items_left::<Expressions>(alloc, at)?;
    Ok((What::Print(items), at))
}

/// `WRITE(*,*)[list]` and `WRITE(6,*)[list]`, both read as PRINT (§12.8)
#[tactic(auto, unfolding(crate::specs::Executables::write_statement))]
pub fn write_statement(alloc: Global, at: Cursor<'_>) -> Reading<'_, What>
    ensures { GivesAs what_tree result (write_statement (state at.entry)) }
{
    if let Some(rest) = at.parse_word(b"WRITE(*,*)") {
        return write_list(alloc, rest);
    }
    if let Some(rest) = at.parse_word(b"WRITE(6,*)") {
        return write_list(alloc, rest);
    }
    Err(ParseError::Syntax)
}

#[tactic(auto, using(f77_ast::proofs::PlainlyStmt::what_cases), unfolding(crate::specs::Executables::read_listed))]
fn read_listed(alloc: Global, at: Cursor<'_>) -> Reading<'_, What>
    ensures { GivesAs what_tree result (read_listed (state at.entry)) }
{
    let (items, at) = maybe_after_comma::<Variables>(alloc, at)?;
    Ok((What::Read(items), at))
}

#[tactic(auto, using(f77_ast::proofs::PlainlyStmt::what_cases), unfolding(crate::specs::Executables::read_left))]
fn read_left(alloc: Global, at: Cursor<'_>) -> Reading<'_, What>
    ensures { GivesAs what_tree result (read_left (state at.entry)) }
{
    let (items, at) = items_left::<Variables>(alloc, at)?;
    Ok((What::Read(items), at))
}

/// `READ*[,list]`, `READ(*,*)[list]` and `READ(5,*)[list]`, whose items are names and array elements (§12.8)
#[tactic(auto, unfolding(crate::specs::Executables::read_statement))]
pub fn read_statement(alloc: Global, at: Cursor<'_>) -> Reading<'_, What>
    ensures { GivesAs what_tree result (read_statement (state at.entry)) }
{
    if let Some(rest) = at.parse_word(b"READ*") {
        return read_listed(alloc, rest);
    }
    if let Some(rest) = at.parse_word(b"READ(*,*)") {
        return read_left(alloc, rest);
    }
    if let Some(rest) = at.parse_word(b"READ(5,*)") {
        return read_left(alloc, rest);
    }
    Err(ParseError::Syntax)
}
