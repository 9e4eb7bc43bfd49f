//! The affine form of an expression: none where it has none, or where a number reaches 2^62.
ghost use Rattle.std.specs.Prelude.{◌≡◌, ◌^◌, ◌<◌, ◌+ℤ◌, ◌*ℤ◌, pos, IfOk, IfSome, Some, unsigned_abs};
ghost use Rattle.affine_systems.specs.Normal.{is_small as is_small_number, are_small as are_small_factors};
ghost use Rattle.affine_systems.specs.Terms.{Ascends};
ghost use Rattle.f77_ast.specs.Plain.{expr_tree};
ghost use Rattle.affine_forms.specs.Scalars.{scalars};
ghost use Rattle.affine_forms.specs.Forms.{IsSmallForm, affine, number_form as number_is, name_form as name_is, limited as limited_form, plus as plus_form, times as times_form, product as product_form, sum_of, product_of, times_of, unary_form as unary_is, binary_form as binary_is, affine_of as affine_is};

use crate::{Affine, cell_of};
use affine_systems::terms::{blend, combination};
use affine_systems::{Term, Var};
use f77_ast::{BinaryOp, Constant, ConstantValue, Expr, Symbols, UnaryOp, const_value_of};
use fx_lists::{List, Text};
use std::alloc::{AllocError as Memory, Global};

#[tactic(auto, unfolding(affine_systems::specs::Normal::is_small))]
fn is_small(z: i128) -> bool
    ensures { result ≡ is_small_number z }
{
    z.unsigned_abs() < 1 << 62
}

/// Whether all factors are below 2^62 in magnitude.
#[tactic(auto, using(crate::proofs::SmallLaws::are_small_loop))]
fn are_small(terms: &[Term]) -> bool
    ensures { result ≡ are_small_factors terms.now }
{
    for t in terms {
        if !is_small(t.factor) {
            return false;
        }
    }
    true
}

/// A form, if its numbers are below 2^62 in magnitude.
#[tactic(auto, using(crate::proofs::SmallLaws::limited_is_small))]
pub fn limit(form: Affine) -> Option<Affine>
    requires { Ascends form.terms }
    ensures defined { result ≡ limited_form form }
    ensures small { IfSome result IsSmallForm }
{
    if is_small(form.constant) && are_small(form.terms.as_slice()) {
        Some(form)
    } else {
        None
    }
}

/// A form and `k` times another; None where a number reaches 2^62.
#[tactic(auto, using(crate::proofs::SmallLaws::sums))]
pub fn plus(alloc: Global, f: &Affine, k: i128, g: &Affine) -> Result<Option<Affine>, Memory>
    requires first { IsSmallForm f.now }
    requires factor { unsigned_abs k < 2 ^ 62 }
    requires second { IsSmallForm g.now }
    ensures defined { IfOk result (λ o. o ≡ plus_form f.now k g.now) }
    ensures small { IfOk result (λ o. IfSome o IsSmallForm) }
{
    let terms = combination(alloc, 1, f.terms.as_slice(), k, g.terms.as_slice())?;
    let constant = blend(1, f.constant, k, g.constant);
    Ok(limit(Affine { terms, constant }))
}

/// `k` times a form.
#[tactic(auto, using(crate::proofs::SmallLaws::sums))]
fn times(alloc: Global, k: i128, f: &Affine) -> Result<Option<Affine>, Memory>
    requires factor { unsigned_abs k < 2 ^ 62 }
    requires form { IsSmallForm f.now }
    ensures defined { IfOk result (λ o. o ≡ times_form k f.now) }
    ensures small { IfOk result (λ o. IfSome o IsSmallForm) }
{
    let terms = combination(alloc, k, f.terms.as_slice(), 0, &[])?;
    let constant = blend(k, f.constant, 0, 0);
    Ok(limit(Affine { terms, constant }))
}

/// A product; one of the factors must be a number.
fn product(alloc: Global, f: &Affine, g: &Affine) -> Result<Option<Affine>, Memory>
    requires first { IsSmallForm f.now }
    requires second { IsSmallForm g.now }
    ensures defined { IfOk result (λ o. o ≡ product_form f.now g.now) }
    ensures small { IfOk result (λ o. IfSome o IsSmallForm) }
{
    if f.terms.is_empty() {
        times(alloc, f.constant, g)
    } else if g.terms.is_empty() {
        times(alloc, g.constant, f)
    } else {
        Ok(None)
    }
}

/// The form of an operation with one operand.
fn unary_form(alloc: Global, op: UnaryOp, f: Option<Affine>) -> Result<Option<Affine>, Memory>
    requires { IfSome f IsSmallForm }
    ensures defined { IfOk result (λ o. o ≡ unary_is op f) }
    ensures small { IfOk result (λ o. IfSome o IsSmallForm) }
{
    match (op, f) {
        (UnaryOp::Plus, f) => Ok(f),
        (UnaryOp::Minus, Some(f)) => times(alloc, -1, &f),
        (UnaryOp::Minus, None) | (UnaryOp::Not, _) => Ok(None),
    }
}

/// The form of an operation with two operands.
fn binary_form(
    alloc: Global,
    op: BinaryOp,
    f: &Affine,
    g: &Affine,
) -> Result<Option<Affine>, Memory>
    requires first { IsSmallForm f.now }
    requires second { IsSmallForm g.now }
    ensures defined { IfOk result (λ o. o ≡ binary_is op (Some f.now) (Some g.now)) }
    ensures small { IfOk result (λ o. IfSome o IsSmallForm) }
{
    match op {
        BinaryOp::Add => plus(alloc, f, 1, g),
        BinaryOp::Sub => plus(alloc, f, -1, g),
        BinaryOp::Mul => product(alloc, f, g),
        BinaryOp::Div
        | BinaryOp::Pow
        | BinaryOp::Eq
        | BinaryOp::Ne
        | BinaryOp::Lt
        | BinaryOp::Le
        | BinaryOp::Gt
        | BinaryOp::Ge
        | BinaryOp::And
        | BinaryOp::Or
        | BinaryOp::Eqv
        | BinaryOp::Neqv => Ok(None),
    }
}

/// The form of a name, which is its cell.
fn name_form(
    alloc: Global,
    symbols: &Symbols,
    tracked: &List<bool>,
    name: &Text,
) -> Result<Option<Affine>, Memory>
    ensures defined { IfOk result (λ o. o ≡ name_is (scalars symbols.now tracked.now) name.now) }
    ensures small { IfOk result (λ o. IfSome o IsSmallForm) }
{
    match cell_of(symbols, tracked, name) {
        None => Ok(None),
        Some(cell) => {
            let term = Term {
                var: Var::Cell(cell),
                factor: 1,
            };
            let terms = List::from_slice(alloc, &[term])?;
            Ok(Some(Affine { terms, constant: 0 }))
        }
    }
}

/// The form of a constant.
fn number_form(alloc: Global, number: i32) -> Option<Affine>
    ensures defined { result ≡ number_is number }
    ensures small { IfSome result IsSmallForm }
{
    limit(Affine {
        terms: List::new(alloc),
        constant: i128::from(number),
    })
}

/// The affine form of an INTEGER expression over the analysed scalars of a module with these symbols; `tracked` has a
/// flag for each symbol in order. A constant expression that evaluates without a fault is its value. None where it has
/// no form, or a number reaches 2^62. Each subexpression is tried as a constant for itself and for each operator and
/// parenthesis around it, and each sum merges two lists.
#[tactic(auto, using(f77_ast::proofs::Plainly::expr_calls))]
pub fn affine_of(
    alloc: Global,
    symbols: &Symbols,
    tracked: &List<bool>,
    e: &Expr,
) -> Result<Option<Affine>, Memory>
    ensures defined { IfOk result (λ o. o ≡ affine_is (scalars symbols.now tracked.now) (expr_tree e.now)) }
    ensures small { IfOk result (λ o. IfSome o IsSmallForm) }
{
    if let ConstantValue::Is(Constant::Int(number)) = const_value_of(e, symbols) {
        return Ok(number_form(alloc, number));
    }
    match e {
        Expr::Name(name) => name_form(alloc, symbols, tracked, name),
        Expr::Paren(e) => affine_of(alloc, symbols, tracked, e),
        Expr::Unary(op, e) => {
            let f = affine_of(alloc, symbols, tracked, e)?;
            unary_form(alloc, *op, f)
        }
        Expr::Binary(op, a, b) => {
            let f = affine_of(alloc, symbols, tracked, a)?;
            let g = affine_of(alloc, symbols, tracked, b)?;
            match (f, g) {
                (Some(f), Some(g)) => binary_form(alloc, *op, &f, &g),
                _ => Ok(None),
            }
        }
        Expr::Int(_) | Expr::Log(_) | Expr::Element(..) | Expr::Chars(_) => Ok(None),
    }
}
