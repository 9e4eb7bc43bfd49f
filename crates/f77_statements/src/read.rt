//! A statement by its form.
ghost use Rattle.std.specs.Prelude.{◌≡◌, ◌<◌, ◌^◌, ℕ, length};
ghost use Rattle.f77_ast.specs.PlainStmt.{what_tree};
ghost use Rattle.f77_exprs.specs.State.{state, start, GivesAs};
ghost use Rattle.f77_statements.specs.Phrases.{phrase_tree};
ghost use Rattle.f77_statements.specs.Statements.{what_by, form_at, what_at, logical_if_statement, phrase_by, phrase_of};
ghost use Rattle.f77_statements.specs.Gives.{Gives, ForRead};

use crate::blocks::{
    block_if_statement, do_statement, else_if_statement, function_statement, if_test,
    integer_function_statement, logical_function_statement, program_statement,
    subroutine_statement, while_statement,
};
use crate::executables::{
    assignment, call_statement, continue_statement, goto_statement, print_statement,
    read_statement, return_statement, stop_statement, write_statement,
};
use crate::phrase::Phrase;
use crate::refusal::{Cause, Refusal};
use crate::specifications::{
    common_statement, data_statement, dimension_statement, equivalence_statement,
    implicit_statement, integer_statement, logical_statement, parameter_statement, save_statement,
};
use f77_ast::What;
use f77_exprs::{Cursor, ParseError, Reading};
use f77_forms::{FormId, profile_form, refused_keyword};
use fx_lists::Text;
use std::alloc::Global;

/// A statement of a form that may stand in a logical IF.
fn what_by(alloc: Global, form: FormId, at: Cursor<'_>) -> Reading<'_, What>
    ensures { GivesAs what_tree result (what_by form (state at.entry)) }
{
    match form {
        FormId::Assignment => assignment(alloc, at),
        FormId::Call => call_statement(alloc, at),
        FormId::Continue => continue_statement(alloc, at),
        FormId::Goto => goto_statement(alloc, at),
        FormId::Return => return_statement(alloc, at),
        FormId::Stop => stop_statement(alloc, at),
        FormId::Print => print_statement(alloc, at),
        FormId::Write => write_statement(alloc, at),
        FormId::Read => read_statement(alloc, at),
        FormId::Program
        | FormId::Subroutine
        | FormId::Function
        | FormId::IntegerFunction
        | FormId::LogicalFunction
        | FormId::Implicit
        | FormId::Integer
        | FormId::Logical
        | FormId::Dimension
        | FormId::Parameter
        | FormId::Common
        | FormId::Equivalence
        | FormId::Save
        | FormId::Data
        | FormId::LogicalIf
        | FormId::BlockIf
        | FormId::ElseIf
        | FormId::Else
        | FormId::EndIf
        | FormId::Do
        | FormId::DoWhile
        | FormId::EndDo
        | FormId::End => Err(ParseError::Syntax),
    }
}

/// The form of a text, or why it has none.
#[tactic(auto, using(crate::proofs::Choices::form_at_cases), unfolding(crate::specs::Statements::form_at))]
fn form_at(body: &Text) -> Result<FormId, Cause>
    requires { length body.now < 2 ^ 28 }
    ensures { result ≡ form_at body.now }
{
    match profile_form(body) {
        Some(form) => Ok(form),
        None => match refused_keyword(body) {
            Some(keyword) => Err(Cause::OutOfProfile(keyword)),
            None => Err(Cause::Syntax),
        },
    }
}

/// The statement behind the test of a logical IF.
#[tactic(auto, unfolding(crate::specs::Statements::what_at))]
fn what_at(alloc: Global, at: Cursor<'_>) -> Reading<'_, What>
    requires { length at.rest.now < 2 ^ 28 }
    ensures { GivesAs what_tree result (what_at (state at.entry)) }
{
    let text = Text::from_bytes(alloc, at.rest)?;
    match form_at(&text) {
        Err(_) => Err(ParseError::Syntax),
        Ok(form) => what_by(alloc, form, at),
    }
}

/// `IF(e)s`
#[tactic(auto, unfolding(crate::specs::Statements::logical_if_statement))]
fn logical_if_statement(alloc: Global, at: Cursor<'_>) -> Reading<'_, Phrase>
    requires { length at.rest.now < 2 ^ 28 }
    ensures { GivesAs phrase_tree result (logical_if_statement (state at.entry)) }
{
    let at = at.need_word(b"IF(")?;
    let (tree, at) = if_test(alloc, at)?;
    let (what, at) = what_at(alloc, at)?;
    Ok((Phrase::LogicalIf(tree, what), at))
}

/// The arms of a match over the forms: what a reader of the form gives is the content of a kind of phrase, or the
/// phrase itself, or the form is a word alone.
macro_rules! phrases {
    ($form:expr, $alloc:expr, $at:expr;
     alone { $($alone:ident = $word:literal),* }
     itself { $($own:ident = $phrase:ident),* }
     $($kind:ident { $($id:ident = $read:ident),* })*) => {
        match $form {
            $($(FormId::$id => {
                let (content, rest) = $read($alloc, $at)?;
                Ok((Phrase::$kind(content), rest))
            })*)*
            $(FormId::$own => $phrase($alloc, $at),)*
            $(FormId::$alone => {
                let rest = $at.need_word($word)?;
                Ok((Phrase::$alone, rest))
            })*
        }
    };
}

/// A statement of a form.
#[tactic(auto, unfolding(crate::specs::Statements::specified, crate::specs::Statements::simply, crate::specs::Statements::alone))]
fn phrase_by(alloc: Global, form: FormId, at: Cursor<'_>) -> Reading<'_, Phrase>
    requires { length at.rest.now < 2 ^ 28 }
    ensures { GivesAs phrase_tree result (phrase_by form (state at.entry)) }
{
    phrases!(form, alloc, at;
        alone {
            Else = b"ELSE",
            EndIf = b"ENDIF",
            EndDo = b"ENDDO",
            End = b"END"
        }
        itself {
            Program = program_statement,
            Subroutine = subroutine_statement,
            Function = function_statement,
            IntegerFunction = integer_function_statement,
            LogicalFunction = logical_function_statement,
            LogicalIf = logical_if_statement,
            BlockIf = block_if_statement,
            ElseIf = else_if_statement,
            Do = do_statement,
            DoWhile = while_statement
        }
        Decl {
            Implicit = implicit_statement,
            Integer = integer_statement,
            Logical = logical_statement,
            Dimension = dimension_statement,
            Parameter = parameter_statement,
            Common = common_statement,
            Equivalence = equivalence_statement,
            Save = save_statement,
            Data = data_statement
        }
        Simple {
            Assignment = assignment,
            Continue = continue_statement,
            Return = return_statement,
            Goto = goto_statement,
            Call = call_statement,
            Stop = stop_statement,
            Print = print_statement,
            Write = write_statement,
            Read = read_statement
        }
    )
}

/// The statement, where nothing is left and nothing was noted.
fn verdict(found: Reading<'_, Phrase>) -> Result<Phrase, Refusal>
    ensures { ForRead found.entry result }
{
    match found {
        Err(e) => match e {
            ParseError::Syntax => Err(Refusal::Because(Cause::Syntax)),
            ParseError::Memory => Err(Refusal::Memory),
        },
        Ok((phrase, at)) => {
            if !at.rest.is_empty() {
                return Err(Refusal::Because(Cause::Syntax));
            }
            if at.notes.real {
                return Err(Refusal::Because(Cause::RealConstant));
            }
            if at.notes.big {
                return Err(Refusal::Because(Cause::NumberTooBig));
            }
            if at.notes.long {
                return Err(Refusal::Because(Cause::NameTooLong));
            }
            Ok(phrase)
        }
    }
}

/// The tree of a stripped statement by itself. Err is the first cause to refuse it, in the order of `Cause`, or lack of memory.
#[tactic(auto, unfolding(crate::specs::Statements::phrase_of))]
pub fn phrase_of(alloc: Global, body: &Text) -> Result<Phrase, Refusal>
    requires { length body.now < 2 ^ 28 }
    ensures { Gives result (phrase_of body.now) }
{
    match form_at(body) {
        Err(cause) => Err(Refusal::Because(cause)),
        Ok(form) => verdict(phrase_by(alloc, form, Cursor::start(body.as_slice()))),
    }
}
