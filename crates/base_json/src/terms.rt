//! Terms out of JSON values.
ghost use Rattle.std.specs.Prelude.{◌≡◌};
ghost use Rattle.serde_json.specs.View.{view};
ghost use Rattle.base_json.specs.Gives.{Gives};
ghost use Rattle.base_json.specs.Scopes.{scope_tree, exit_of};
ghost use Rattle.base_json.specs.Read.{phi_of, var_of, term_in, term_of, terms_ascend as terms_ascend_is};

use crate::names::{cell_at, number_at};
use crate::{Decode, DecodeError, Scope, number_below, triple, whole_at, word};
use affine_systems::{Term, Var};
use serde_json::Value;
use std::alloc::Global;

fn exit_at(scope: &Scope<'_>, value: &Value) -> Option<u32>
    ensures { result ≡ exit_of (scope_tree scope.now) (view value.now) }
{
    match number_at(value) {
        None => None,
        Some(n) => if scope.exits.contains(&n) {
            Some(n)
        } else {
            None
        },
    }
}

fn phi_at(scope: &Scope<'_>, value: &Value) -> Option<u8>
    ensures { result ≡ phi_of (scope_tree scope.now) (view value.now) }
{
    match number_below(value, 256) {
        None => None,
        Some(n) => if scope.phi { Some(n as u8) } else { None },
    }
}

/// The variable with a letter and a number; None where it may not be named.
fn var_at(scope: &Scope<'_>, letter: &str, value: &Value) -> Option<Var>
    ensures { result ≡ var_of (scope_tree scope.now) letter.now (view value.now) }
{
    if letter == "c" {
        cell_at(scope, value).map(Var::Cell)
    } else if letter == "x" {
        exit_at(scope, value).map(Var::Exit)
    } else if letter == "p" {
        phi_at(scope, value).map(Var::Phi)
    } else {
        None
    }
}

/// A term of its three parts.
fn term_in(scope: &Scope<'_>, letter: &str, number: &Value, factor: &Value) -> Option<Term>
    ensures { result ≡ term_in (scope_tree scope.now) (view number.now) (view factor.now) letter.now }
{
    match (var_at(scope, letter, number), whole_at(factor)) {
        (Some(var), Some(factor)) => Some(Term { var, factor }),
        (None, _) | (Some(_), None) => None,
    }
}

fn term_at(scope: &Scope<'_>, value: &Value) -> Option<Term>
    ensures { result ≡ term_of (scope_tree scope.now) (view value.now) }
{
    match triple(value) {
        None => None,
        Some((letter, number, factor)) => match word(letter) {
            None => None,
            Some(letter) => term_in(scope, letter, number, factor),
        },
    }
}

impl<'a> Decode<Scope<'a>> for Term {
    ghost read_as = { λ s. term_of (scope_tree s) };

    fn decode(_alloc: Global, scope: &Scope<'a>, value: &Value) -> Result<Term, DecodeError> {
        match term_at(scope, value) {
            None => Err(DecodeError::Shape),
            Some(term) => Ok(term),
        }
    }
}

/// Whether each variable comes before the next, and no factor is 0.
pub fn terms_ascend(terms: &[Term]) -> bool
    ensures { result ≡ terms_ascend_is terms.now }
{
    let mut rest = terms;
    while let [first, more @ ..] = rest {
        if first.factor == 0 {
            return false;
        }
        if let [next, ..] = more {
            if !first.var.is_before(next.var) {
                return false;
            }
        }
        rest = more;
    }
    true
}
