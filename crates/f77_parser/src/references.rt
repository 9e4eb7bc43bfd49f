//! Faults of assignments of the value of a function.
ghost use Rattle.std.specs.Prelude.{◌≡◌, IfOk, map};
ghost use Rattle.std.specs.Option.{option_map};
ghost use Rattle.f77_ast.specs.Plain.{expr_tree, expr_trees};
ghost use Rattle.f77_ast.specs.PlainStmt.{what_tree};
ghost use Rattle.f77_statements.specs.Phrases.{phrase_tree};
ghost use Rattle.f77_parser.specs.Statements.{statement_tree};
ghost use Rattle.f77_parser.specs.References.{application, application_in, are_none, assigned_by, assigned_in, bad_reference_from, empty_call_fault, has_empty_call, has_reference, is_bad_call, is_bad_reference, is_empty_call, is_reference, reference_fault};

use crate::ends::{bounded_to_end, ends_module};
use crate::functions::is_external;
use crate::names::NameSet;
use crate::standing::standing;
use crate::statement::Statement;
use f77_ast::{Expr, What};
use f77_statements::Phrase;
use fx_lists::{List, Text};
use std::alloc::{AllocError as Memory, Global};

/// A name with arguments.
#[tactic(auto, using(f77_ast::proofs::Plainly::expr_cases))]
pub fn application_in(e: &Expr) -> Option<(&Text, &List<Expr>)>
    ensures { option_map (λ p. application p.0.now (expr_trees p.1.now)) result ≡ application_in (expr_tree e.now) }
{
    match e {
        Expr::Element(name, es) => Some((name, es)),
        Expr::Int(_)
        | Expr::Log(_)
        | Expr::Name(_)
        | Expr::Paren(_)
        | Expr::Unary(..)
        | Expr::Binary(..)
        | Expr::Chars(_) => None,
    }
}

/// The right side of an assignment, where it is a name with arguments.
#[tactic(auto, using(f77_ast::proofs::PlainlyStmt::what_cases))]
pub fn assigned_in(what: &What) -> Option<(&Text, &List<Expr>)>
    ensures { option_map (λ p. application p.0.now (expr_trees p.1.now)) result ≡ assigned_in (what_tree what.now) }
{
    match what {
        What::Assign(_, right) => application_in(right),
        What::If(..)
        | What::LogicalIf(..)
        | What::Do(_)
        | What::Call(..)
        | What::Goto(_)
        | What::Continue
        | What::Return
        | What::Stop(_)
        | What::Print(_)
        | What::Read(_) => None,
    }
}

/// The same of a statement by itself, or in a logical IF.
fn assigned_by(phrase: &Phrase) -> Option<(&Text, &List<Expr>)>
    ensures { option_map (λ p. application p.0.now (expr_trees p.1.now)) result ≡ assigned_by (phrase_tree phrase.now) }
{
    match phrase {
        Phrase::Simple(what) | Phrase::LogicalIf(_, what) => assigned_in(what),
        Phrase::Program(_)
        | Phrase::Subroutine(..)
        | Phrase::Function(..)
        | Phrase::Decl(_)
        | Phrase::BlockIf(_)
        | Phrase::ElseIf(_)
        | Phrase::Else
        | Phrase::EndIf
        | Phrase::Do(_)
        | Phrase::While(..)
        | Phrase::EndDo
        | Phrase::End => None,
    }
}

#[tactic(auto, using(crate::proofs::ReferenceLaws::arguments))]
fn are_none(es: &List<Expr>) -> bool
    ensures { result ≡ are_none (expr_trees es.now) }
{
    match es.as_slice() {
        [] => true,
        [_, ..] => false,
    }
}

fn is_empty_call(phrase: &Phrase) -> bool
    ensures { result ≡ is_empty_call (assigned_by (phrase_tree phrase.now)) }
{
    match assigned_by(phrase) {
        None => false,
        Some((_, es)) => are_none(es),
    }
}

fn is_bad_call(bounded: &NameSet, phrase: &Phrase) -> bool
    ensures { result ≡ is_bad_call bounded.now (assigned_by (phrase_tree phrase.now)) }
{
    match assigned_by(phrase) {
        None => false,
        Some((name, es)) => are_none(es) && !is_external(bounded, name),
    }
}

fn has_empty_call(statements: &[Statement]) -> bool
    ensures { result ≡ has_empty_call (map statement_tree statements.now) }
{
    for statement in statements {
        if is_empty_call(&statement.phrase) {
            return true;
        }
    }
    false
}

/// The first line of the statement at which F() is assigned and F has bounds in its module, or is an intrinsic function; None where
/// there is none. The names with bounds of a module are looked at once.
#[tactic(auto, using(crate::proofs::ReferenceLaws::quiet), unfolding(crate::specs::References::empty_call_fault))]
pub fn empty_call_fault(alloc: Global, statements: &[Statement]) -> Result<Option<u32>, Memory>
    ensures { IfOk result (λ line. line ≡ empty_call_fault (map statement_tree statements.now)) }
{
    if !has_empty_call(statements) {
        return Ok(None);
    }
    let mut bounded = bounded_to_end(alloc, statements)?;
    let mut rest = statements;
    while let [statement, more @ ..] = rest {
        if is_bad_call(&bounded, &statement.phrase) {
            return Ok(Some(statement.first));
        }
        if ends_module(&statement.phrase) {
            bounded = bounded_to_end(alloc, more)?;
        }
        rest = more;
    }
    Ok(None)
}

fn is_reference(bounded: &NameSet, phrase: &Phrase) -> bool
    ensures { result ≡ is_reference bounded.now (assigned_by (phrase_tree phrase.now)) }
{
    match assigned_by(phrase) {
        None => false,
        Some((name, _)) => is_external(bounded, name),
    }
}

fn has_reference(bounded: &NameSet, statements: &[Statement]) -> bool
    ensures { result ≡ has_reference bounded.now (map statement_tree statements.now) }
{
    for statement in statements {
        if is_reference(bounded, &statement.phrase) {
            return true;
        }
    }
    false
}

fn is_bad_reference(bounded: &NameSet, names: &NameSet, phrase: &Phrase) -> bool
    ensures { result ≡ is_bad_reference bounded.now names.now (assigned_by (phrase_tree phrase.now)) }
{
    match assigned_by(phrase) {
        None => false,
        Some((name, _)) => is_external(bounded, name) && names.has(name),
    }
}

fn bad_reference(bounded: &NameSet, names: &NameSet, statements: &[Statement]) -> Option<u32>
    ensures { result ≡ bad_reference_from bounded.now names.now (map statement_tree statements.now) }
{
    for statement in statements {
        if is_bad_reference(bounded, names, &statement.phrase) {
            return Some(statement.first);
        }
    }
    None
}

/// The first line of the statement of a module that assigns the value of a function whose name stands elsewhere in the module, other
/// than in a type statement or as the name of a function whose value is assigned; None where there is none. Each name is looked up
/// in constant time.
#[tactic(auto, using(crate::proofs::ReferenceLaws::quiet), unfolding(crate::specs::References::reference_fault))]
pub fn reference_fault(alloc: Global, statements: &[Statement]) -> Result<Option<u32>, Memory>
    ensures { IfOk result (λ line. line ≡ reference_fault (map statement_tree statements.now)) }
{
    let bounded = bounded_to_end(alloc, statements)?;
    if !has_reference(&bounded, statements) {
        return Ok(None);
    }
    let names = standing(alloc, &bounded, statements)?;
    Ok(bad_reference(&bounded, &names, statements))
}
