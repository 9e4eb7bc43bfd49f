//! PROGRAM, SUBROUTINE and FUNCTION, IF, DO and DO WHILE. A reader takes a stripped statement from its front, and its Err is `Syntax` where the
//! text is not of the form; in a form `[..]` need not be there.
ghost use Rattle.std.specs.Prelude.{◌≡◌, ◌≤◌, ℕ, length, option_map, codes, IfOk};
ghost use Rattle.f77_ast.specs.declared.module.FunctionForm.TheVariants.{Plain, Integer, Logical};
ghost use Rattle.f77_ast.specs.Plain.{expr_tree};
ghost use Rattle.f77_ast.specs.PlainStmt.{maybe_tree};
ghost use Rattle.f77_exprs.specs.State.{state, GivesAs, GivesExpr};
ghost use Rattle.f77_statements.specs.Phrases.{phrase_tree, do_tree};
ghost use Rattle.f77_statements.specs.Statements.{program_statement, subroutine_statement, function_statement, if_test, block_if_statement, else_if_statement, terminal, some_step, step, range, do_statement, while_statement};

use crate::lists::{in_parentheses, maybe_in_parentheses, skip_comma};
use crate::parts::NameList;
use crate::phrase::{DoHead, Phrase};
use f77_ast::{Expr, FunctionForm};
use f77_exprs::{Cursor, Reading, digit_first, expression, label_at, name_at};
use std::alloc::Global;

/// `PROGRAMn`
#[tactic(auto, unfolding(crate::specs::Statements::program_statement))]
pub fn program_statement(alloc: Global, at: Cursor<'_>) -> Reading<'_, Phrase>
    ensures { GivesAs phrase_tree result (program_statement (state at.entry)) }
{
    let at = at.need_word(b"PROGRAM")?;
    let (name, at) = name_at(alloc, at)?;
    Ok((Phrase::Program(name), at))
}

/// `SUBROUTINEn[([d,..])]`, without alternate returns (ANSI X3.9-1978 §15.6)
#[tactic(auto, unfolding(crate::specs::Statements::subroutine_statement))]
pub fn subroutine_statement(alloc: Global, at: Cursor<'_>) -> Reading<'_, Phrase>
    ensures { GivesAs phrase_tree result (subroutine_statement (state at.entry)) }
{
    let at = at.need_word(b"SUBROUTINE")?;
    let (name, at) = name_at(alloc, at)?;
    let (dummies, at) = maybe_in_parentheses::<NameList>(alloc, at)?;
    Ok((Phrase::Subroutine(name, dummies), at))
}

/// `FUNCTIONn([d,..])`, after INTEGER or LOGICAL or without a type: `word` is all of this before the name (§15.5.1).
#[tactic(auto, unfolding(crate::specs::Statements::function_statement))]
fn function_by<'a>(
    alloc: Global,
    word: &[u8],
    form: FunctionForm,
    at: Cursor<'a>,
) -> Reading<'a, Phrase>
    ensures { GivesAs phrase_tree result (function_statement word.now form (state at.entry)) }
{
    let at = at.need_word(word)?;
    let (name, at) = name_at(alloc, at)?;
    let at = at.need_word(b"(")?;
    let (dummies, at) = in_parentheses::<NameList>(alloc, at)?;
    Ok((Phrase::Function(form, name, dummies), at))
}

/// `FUNCTIONn([d,..])` (§15.5.1)
pub fn function_statement(alloc: Global, at: Cursor<'_>) -> Reading<'_, Phrase>
    ensures { GivesAs phrase_tree result (function_statement (codes "FUNCTION") Plain (state at.entry)) }
{
    function_by(alloc, b"FUNCTION", FunctionForm::Plain, at)
}

/// `INTEGERFUNCTIONn([d,..])`
pub fn integer_function_statement(alloc: Global, at: Cursor<'_>) -> Reading<'_, Phrase>
    ensures { GivesAs phrase_tree result (function_statement (codes "INTEGERFUNCTION") Integer (state at.entry)) }
{
    function_by(alloc, b"INTEGERFUNCTION", FunctionForm::Integer, at)
}

/// `LOGICALFUNCTIONn([d,..])`
pub fn logical_function_statement(alloc: Global, at: Cursor<'_>) -> Reading<'_, Phrase>
    ensures { GivesAs phrase_tree result (function_statement (codes "LOGICALFUNCTION") Logical (state at.entry)) }
{
    function_by(alloc, b"LOGICALFUNCTION", FunctionForm::Logical, at)
}

/// The test of an IF from after its opening parenthesis, and what follows the closing one.
#[tactic(auto, unfolding(crate::specs::Statements::if_test, crate::specs::Lists::ending))]
pub fn if_test(alloc: Global, at: Cursor<'_>) -> Reading<'_, Expr>
    ensures defined { GivesExpr result (if_test (state at.entry)) }
    ensures shorter { IfOk result (λ x. length x.1.rest.now ≤ length at.entry.rest.now) }
{
    let (tree, at) = expression(alloc, at)?;
    let at = at.need_word(b")")?;
    Ok((tree, at))
}

/// `IF(e)THEN` (§11.6)
#[tactic(auto, unfolding(crate::specs::Statements::block_if_statement))]
pub fn block_if_statement(alloc: Global, at: Cursor<'_>) -> Reading<'_, Phrase>
    ensures { GivesAs phrase_tree result (block_if_statement (state at.entry)) }
{
    let at = at.need_word(b"IF(")?;
    let (tree, at) = if_test(alloc, at)?;
    let at = at.need_word(b"THEN")?;
    Ok((Phrase::BlockIf(tree), at))
}

/// `ELSEIF(e)THEN` (§11.7)
#[tactic(auto, unfolding(crate::specs::Statements::else_if_statement))]
pub fn else_if_statement(alloc: Global, at: Cursor<'_>) -> Reading<'_, Phrase>
    ensures { GivesAs phrase_tree result (else_if_statement (state at.entry)) }
{
    let at = at.need_word(b"ELSEIF(")?;
    let (tree, at) = if_test(alloc, at)?;
    let at = at.need_word(b"THEN")?;
    Ok((Phrase::ElseIf(tree), at))
}

/// The label of the last statement of a DO and a comma, neither of which need be there.
#[tactic(auto, unfolding(crate::specs::Statements::terminal))]
fn terminal(at: Cursor<'_>) -> Reading<'_, Option<u32>>
    ensures { GivesAs (λ l. l) result (terminal (state at.entry)) }
{
    if digit_first(at.rest) {
        let (label, at) = label_at(at)?;
        Ok((Some(label), skip_comma(at)))
    } else {
        Ok((None, at))
    }
}

#[tactic(auto, unfolding(crate::specs::Statements::some_step))]
fn some_step(alloc: Global, at: Cursor<'_>) -> Reading<'_, Option<Expr>>
    ensures { GivesAs maybe_tree result (some_step (state at.entry)) }
{
    let (step, at) = expression(alloc, at)?;
    Ok((Some(step), at))
}

/// The step behind a comma, which need not be there.
#[tactic(auto, unfolding(crate::specs::Statements::step))]
fn step(alloc: Global, at: Cursor<'_>) -> Reading<'_, Option<Expr>>
    ensures { GivesAs maybe_tree result (step (state at.entry)) }
{
    match at.parse_word(b",") {
        None => Ok((None, at)),
        Some(rest) => some_step(alloc, rest),
    }
}

/// `DO[l[,]]WHILE(e)`: without a label it ends at an END DO, with one as a DO does
#[tactic(auto, unfolding(crate::specs::Statements::while_statement))]
pub fn while_statement(alloc: Global, at: Cursor<'_>) -> Reading<'_, Phrase>
    ensures { GivesAs phrase_tree result (while_statement (state at.entry)) }
{
    let at = at.need_word(b"DO")?;
    let (label, at) = terminal(at)?;
    let at = at.need_word(b"WHILE(")?;
    let (tree, at) = if_test(alloc, at)?;
    Ok((Phrase::While(label, tree), at))
}

/// The index of a DO and its values.
#[tactic(auto, unfolding(crate::specs::Statements::range))]
fn range<'a>(alloc: Global, label: Option<u32>, at: Cursor<'a>) -> Reading<'a, Phrase>
    ensures { GivesAs phrase_tree result (range label (state at.entry)) }
{
    let (index, at) = name_at(alloc, at)?;
    let at = at.need_word(b"=")?;
    let (first, at) = expression(alloc, at)?;
    let at = at.need_word(b",")?;
    let (last, at) = expression(alloc, at)?;
    let (step, at) = step(alloc, at)?;
    let head = DoHead {
        label,
        index,
        first,
        last,
        step,
    };
    Ok((Phrase::Do(head), at))
}

/// `DO[l[,]]i=e,e[,e]`: without a label it ends at an END DO, with one as in §11.10
#[tactic(auto, unfolding(crate::specs::Statements::do_statement))]
pub fn do_statement(alloc: Global, at: Cursor<'_>) -> Reading<'_, Phrase>
    ensures { GivesAs phrase_tree result (do_statement (state at.entry)) }
{
    let at = at.need_word(b"DO")?;
    let (label, at) = terminal(at)?;
    range(alloc, label, at)
}
