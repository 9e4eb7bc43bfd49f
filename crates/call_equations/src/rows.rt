//! Rows on the subscripts of an element.
ghost use Rattle.std.specs.Prelude.{◌≡◌, ◌+◌, ◌++◌, map, pos, IfOk, OnOk, IfSome};
ghost use Rattle.affine_systems.specs.Given.{IsGiven};
ghost use Rattle.affine_systems.specs.Rows.{AllRows};
ghost use Rattle.f77_ast.specs.Plain.{expr_tree, expr_trees};
ghost use Rattle.f77_ast.specs.PlainStmt.{maybe_tree};
ghost use Rattle.f77_ast.specs.Symbols.{bound_tree, symbol_tree, value_in};
ghost use Rattle.affine_forms.specs.Forms.{IsSmallForm};
ghost use Rattle.call_translation.specs.Scopes.{scope_tree};
ghost use Rattle.call_equations.specs.Rows.{constant_form as constant_form_is, low_rows, high_rows, high_form as high_form_is, bound_rows, dimension_rows, subscript_rows, all_affine as all_affine_is, bounds_rows as bounds_rows_is};

use affine_forms::{Affine, affine_of, at_most_row, same_row, var_form};
use affine_systems::{Row, Var};
use call_translation::CellScope;
use f77_ast::{Bound, Constant, ConstantValue, Expr, Symbols, const_value_of};
use fx_lists::List;
use std::alloc::{AllocError as Memory, Global};

/// The form of a bound that is an INTEGER constant.
pub fn constant_form(alloc: Global, const_value: ConstantValue) -> Option<Affine>
    ensures defined { result ≡ constant_form_is const_value }
    ensures fits { IfSome result IsSmallForm }
{
    match const_value {
        ConstantValue::Is(Constant::Int(n)) => Some(Affine {
            terms: List::new(alloc),
            constant: i128::from(n),
        }),
        ConstantValue::Is(Constant::Log(_)) | ConstantValue::Faults | ConstantValue::Varies => None,
    }
}

/// The form of a high bound; none of `*`.
fn high_form(alloc: Global, symbols: &Symbols, high: &Option<Expr>) -> Option<Affine>
    ensures defined { result ≡ high_form_is (value_in (map symbol_tree symbols.now)) (maybe_tree high.now) }
    ensures fits { IfSome result IsSmallForm }
{
    match high {
        None => None,
        Some(high) => constant_form(alloc, const_value_of(high, symbols)),
    }
}

/// Adds that the subscript of a dimension is at least a bound.
#[tactic(auto, using(crate::proofs::Steps::rows))]
fn push_low(alloc: Global, out: &mut Vec<Row>, low: &Option<Affine>, k: u8) -> Result<(), Memory>
    requires rows { AllRows IsGiven out.old.items }
    requires low { IfSome low.now IsSmallForm }
    ensures added { OnOk result (out.new.items ≡ out.old.items ++ low_rows low.now k) }
    ensures fits { OnOk result (AllRows IsGiven out.new.items) }
{
    match low {
        None => Ok(()),
        Some(low) => {
            let subscript = var_form(alloc, Var::Phi(k))?;
            out.push(at_most_row(alloc, low, &subscript)?)?;
            Ok(())
        }
    }
}

/// Adds that the subscript of a dimension is at most a bound.
#[tactic(auto, using(crate::proofs::Steps::rows))]
fn push_high(alloc: Global, out: &mut Vec<Row>, high: &Option<Affine>, k: u8) -> Result<(), Memory>
    requires rows { AllRows IsGiven out.old.items }
    requires high { IfSome high.now IsSmallForm }
    ensures added { OnOk result (out.new.items ≡ out.old.items ++ high_rows high.now k) }
    ensures fits { OnOk result (AllRows IsGiven out.new.items) }
{
    match high {
        None => Ok(()),
        Some(high) => {
            let subscript = var_form(alloc, Var::Phi(k))?;
            out.push(at_most_row(alloc, &subscript, high)?)?;
            Ok(())
        }
    }
}

/// Adds that a subscript lies within the bounds of its dimension, where these are constant.
#[tactic(auto, using(crate::proofs::Steps::rows))]
fn push_bounds(
    alloc: Global,
    out: &mut Vec<Row>,
    symbols: &Symbols,
    bound: &Bound,
    k: u8,
) -> Result<(), Memory>
    requires rows { AllRows IsGiven out.old.items }
    ensures added { OnOk result (out.new.items ≡ out.old.items ++ bound_rows (value_in (map symbol_tree symbols.now)) (bound_tree bound.now) k) }
    ensures fits { OnOk result (AllRows IsGiven out.new.items) }
{
    let low = constant_form(alloc, const_value_of(&bound.low, symbols));
    let high = high_form(alloc, symbols, &bound.high);
    push_low(alloc, out, &low, k)?;
    push_high(alloc, out, &high, k)
}

/// Adds what a subscript of this form is; of one without a form, within which bounds it lies.
#[tactic(auto, using(crate::proofs::Steps::rows))]
fn push_dimension(
    alloc: Global,
    out: &mut Vec<Row>,
    symbols: &Symbols,
    form: &Option<Affine>,
    bound: &Bound,
    k: u8,
) -> Result<(), Memory>
    requires rows { AllRows IsGiven out.old.items }
    requires form { IfSome form.now IsSmallForm }
    ensures added { OnOk result (out.new.items ≡ out.old.items ++ dimension_rows (value_in (map symbol_tree symbols.now)) form.now (bound_tree bound.now) k) }
    ensures fits { OnOk result (AllRows IsGiven out.new.items) }
{
    match form {
        None => push_bounds(alloc, out, symbols, bound, k),
        Some(form) => {
            let subscript = var_form(alloc, Var::Phi(k))?;
            out.push(same_row(alloc, &subscript, form)?)?;
            Ok(())
        }
    }
}

/// The number of the next dimension.
pub fn next_dimension(k: u8) -> Result<u8, Memory>
    ensures { IfOk result (λ n. n ≡ k + 1) }
{
    match k.checked_add(1) {
        None => Err(Memory),
        Some(n) => Ok(n),
    }
}

/// The rows on the subscripts of an element (`Phi`, the first is 1), dimension by dimension as far as both lists go: equality with the
/// subscript's affine expression or, where it has none, the bounds of the dimension that are constants. Err also where there are more than
/// 254 dimensions.
#[tactic(auto, using(crate::proofs::Steps::row_items))]
pub fn rows_of(
    alloc: Global,
    scope: &CellScope<'_>,
    es: &List<Expr>,
    bounds: &List<Bound>,
) -> Result<Vec<Row>, Memory>
    ensures defined { IfOk result (λ rs. rs.items ≡ subscript_rows (scope_tree scope.now.symbols.now scope.now.tracked.now) 1 (expr_trees es.now) (map bound_tree bounds.now)) }
    ensures fits { IfOk result (λ rs. AllRows IsGiven rs.items) }
{
    let mut rows = Vec::new(alloc);
    let mut k = 1u8;
    let mut left = es.as_slice();
    let mut rest = bounds.as_slice();
    while let [e, others @ ..] = left {
        match rest {
            [] => return Ok(rows),
            [bound, more @ ..] => {
                let form = affine_of(alloc, scope.symbols, scope.tracked, e)?;
                push_dimension(alloc, &mut rows, scope.symbols, &form, bound, k)?;
                k = next_dimension(k)?;
                rest = more;
            }
        }
        left = others;
    }
    Ok(rows)
}

/// Whether each subscript that has a dimension has an affine expression.
#[tactic(auto, using(crate::proofs::Steps::row_items))]
pub fn all_affine(
    alloc: Global,
    scope: &CellScope<'_>,
    es: &List<Expr>,
    bounds: &List<Bound>,
) -> Result<bool, Memory>
    ensures { IfOk result (λ b. b ≡ all_affine_is (scope_tree scope.now.symbols.now scope.now.tracked.now) (expr_trees es.now) (map bound_tree bounds.now)) }
{
    let mut left = es.as_slice();
    let mut rest = bounds.as_slice();
    while let [e, others @ ..] = left {
        match rest {
            [] => return Ok(true),
            [_, more @ ..] => {
                if affine_of(alloc, scope.symbols, scope.tracked, e)?.is_none() {
                    return Ok(false);
                }
                rest = more;
            }
        }
        left = others;
    }
    Ok(true)
}

/// The constant bounds of each dimension, as rows on `Phi`. Err also where there are more than 254 dimensions.
#[tactic(auto, using(crate::proofs::Steps::row_items))]
pub fn bounds_rows(alloc: Global, symbols: &Symbols, bounds: &[Bound]) -> Result<Vec<Row>, Memory>
    ensures defined { IfOk result (λ rs. rs.items ≡ bounds_rows_is (value_in (map symbol_tree symbols.now)) 1 (map bound_tree bounds.now)) }
    ensures fits { IfOk result (λ rs. AllRows IsGiven rs.items) }
{
    let mut rows = Vec::new(alloc);
    let mut k = 1u8;
    let mut rest = bounds;
    while let [bound, more @ ..] = rest {
        push_bounds(alloc, &mut rows, symbols, bound, k)?;
        k = next_dimension(k)?;
        rest = more;
    }
    Ok(rows)
}
