//! How the form of a statement is chosen.

ghost use Rattle.std.specs.Prelude.{◌≡◌, ◌<◌, ◌^◌, length, IsTrue, IfSome, option_map};
ghost use Rattle.f77_forms.specs.Choice.{entries, entry, no_word_twice, if_behind, if_body, if_choice, longer_of, keyword_choice, choice_of, form_of, skip_digits, skip_comma, begins_while};
ghost use Rattle.f77_forms.specs.Claim.{IsByKeyword, BeginsAs};
ghost use Rattle.f77_forms.specs.Profile.{profile, statement_form, statement_refused};

use crate::form::{Form, FormId, profile};
use crate::longest::longest;
use crate::outline::{Marks, marks_of, rest_after_close};
use crate::refused::{REFUSED, Refused};
use crate::words::{begins, is_digit, is_letter, rest_after};
use fx_lists::Text;

/// What the rules choose for a statement: a form, a keyword that the profile leaves out, or neither.
#[derive(Clone, Copy)]
pub enum Choice {
    Chosen(FormId),
    OutOfProfile(Refused),
    /// No form fits.
    Syntax,
}

fn if_behind(rest: &[u8]) -> Option<Choice>
    ensures { result ≡ if_behind rest.now }
{
    match rest {
        [] => None,
        [c, ..] => {
            if is_letter(*c) {
                Some(Choice::Chosen(if rest == b"THEN".as_slice() {
                    FormId::BlockIf
                } else {
                    FormId::LogicalIf
                }))
            } else if is_digit(*c) {
                Some(Choice::OutOfProfile(Refused::ArithmeticIf))
            } else {
                None
            }
        }
    }
}

fn if_body(body: &[u8]) -> Option<Choice>
    requires { length body.now < 2 ^ 63 }
    ensures { result ≡ if_body body.now }
{
    match body {
        [] => None,
        [c, ..] => {
            if *c != b'(' {
                return None;
            }
            match rest_after_close(body) {
                None => None,
                Some(rest) => if_behind(rest),
            }
        }
    }
}

fn if_choice(body: &[u8]) -> Option<Choice>
    requires { length body.now < 2 ^ 63 }
    ensures { result ≡ if_choice body.now }
{
    match rest_after(b"IF", body) {
        None => None,
        Some(rest) => if_body(rest),
    }
}

/// What follows the digits at the front of a text.
fn skip_digits(text: &[u8]) -> &[u8]
    ensures { result.now ≡ skip_digits text.now }
{
    let mut rest = text;
    while let [c, more @ ..] = rest {
        if !is_digit(*c) {
            return rest;
        }
        rest = more;
    }
    rest
}

/// What follows a comma, which need not be there.
fn skip_comma(text: &[u8]) -> &[u8]
    ensures { result.now ≡ skip_comma text.now }
{
    match text {
        [b',', rest @ ..] => rest,
        _ => text,
    }
}

/// Whether a statement without `=` is a DO WHILE.
fn begins_while(body: &[u8]) -> bool
    ensures { result ≡ begins_while body.now }
{
    match rest_after(b"DO", body) {
        None => false,
        Some(rest) => begins(b"WHILE(", skip_comma(skip_digits(rest))),
    }
}

/// The longer of a form's keyword and a refused one, and of two equal ones the refused.
fn longer_of(form: Option<Form>, refused: Option<Refused>) -> Choice
    ensures { result ≡ longer_of (option_map entry form) refused }
{
    match (form, refused) {
        (None, None) => Choice::Syntax,
        (Some(form), None) => Choice::Chosen(form.id),
        (None, Some(refused)) => Choice::OutOfProfile(refused),
        (Some(form), Some(refused)) => {
            if refused.keyword().len() < form.keyword.len() {
                Choice::Chosen(form.id)
            } else {
                Choice::OutOfProfile(refused)
            }
        }
    }
}

fn keyword_choice(table: &[Form], body: &[u8]) -> Choice
    ensures { result ≡ keyword_choice (entries table.now) body.now }
{
    longer_of(longest(table, body), longest(&REFUSED, body))
}

fn choice_of(table: &[Form], body: &[u8]) -> Choice
    requires { length body.now < 2 ^ 63 }
    ensures { result ≡ choice_of (entries table.now) body.now }
{
    if let Some(found) = if_choice(body) {
        return found;
    }
    match marks_of(body) {
        Marks::Equal => Choice::Chosen(FormId::Assignment),
        Marks::EqualAndComma => {
            if begins(b"DO", body) {
                Choice::Chosen(FormId::Do)
            } else {
                Choice::Syntax
            }
        }
        Marks::NoEqual => {
            if begins_while(body) {
                Choice::Chosen(FormId::DoWhile)
            } else {
                keyword_choice(table, body)
            }
        }
    }
}

/// The form that a statement has with this table, or `None` where the rules choose none, or a keyword that is refused.
/// The statement is in capitals and without blanks outside character constants. Takes no memory.
pub fn form_of(table: &[Form], body: &Text) -> Option<FormId>
    requires unique { IsTrue (no_word_twice (entries table.now)) }
    requires fits { length body.now < 2 ^ 28 }
    ensures defined { result ≡ form_of (entries table.now) body.now }
    ensures longest { IsByKeyword body.now → IfSome result (BeginsAs (entries table.now) body.now) }
{
    match choice_of(table, body.as_slice()) {
        Choice::Chosen(id) => Some(id),
        Choice::OutOfProfile(_) => None,
        Choice::Syntax => None,
    }
}

/// The form that a statement has with `TABLE`; None where the rules choose none, or a keyword that is refused. Takes no memory.
pub fn profile_form(body: &Text) -> Option<FormId>
    requires fits { length body.now < 2 ^ 28 }
    ensures defined { result ≡ statement_form body.now }
    ensures longest { IsByKeyword body.now → IfSome result (BeginsAs profile body.now) }
{
    form_of(profile(), body)
}

/// The refused keyword that the rules choose for a statement with `TABLE`; None where they choose a form, or where no form
/// fits. Takes no memory.
pub fn refused_keyword(body: &Text) -> Option<Refused>
    requires fits { length body.now < 2 ^ 28 }
    ensures { result ≡ statement_refused body.now }
{
    match choice_of(profile(), body.as_slice()) {
        Choice::OutOfProfile(refused) => Some(refused),
        Choice::Chosen(_) => None,
        Choice::Syntax => None,
    }
}
