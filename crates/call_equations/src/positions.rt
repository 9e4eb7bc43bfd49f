//! Elements of an array and elements of the dummy that is associated with it: dimension by dimension, or by their places in the order of elements.
ghost use Rattle.std.specs.Prelude.{◌≡◌, ◌^◌, ◌<◌, ◌||◌, ◌∷◌, map, unsigned_abs, IfOk, IfSome};
ghost use Rattle.affine_systems.specs.Given.{IsGiven};
ghost use Rattle.affine_systems.specs.Rows.{AllRows};
ghost use Rattle.f77_ast.specs.Plain.{expr_tree, expr_trees};
ghost use Rattle.f77_ast.specs.PlainStmt.{maybe_tree};
ghost use Rattle.f77_ast.specs.Symbols.{bound_tree, symbol_tree, value_in};
ghost use Rattle.affine_systems.specs.declared.row.Var.TheVariants.{Phi, Aux};
ghost use Rattle.affine_forms.specs.Forms.{IsSmallForm, affine_of as affine_of_is};
ghost use Rattle.call_equations.specs.Forms.{offset as offset_is};
ghost use Rattle.call_equations.specs.Cells.{named_form as named_form_is, actual_bound as actual_bound_is, dummy_bound as dummy_bound_is};
ghost use Rattle.call_equations.specs.Sides.{sides_tree};
ghost use Rattle.call_equations.specs.Positions.{actual_extent as actual_extent_is, dummy_extent as dummy_extent_is, same_extent as same_extent_is, aligned_row as aligned_row_is, dimension_row as dimension_row_is, row_before as row_before_is, aligned_rows as aligned_rows_is, is_none_left, number_in as number_in_is, high_number as high_number_is, size_between as size_between_is, size_of as size_of_is, sum_with as sum_with_is, before_dimensions as before_dimensions_is, whole_position as whole_position_is, element_position as element_position_is, dummy_position as dummy_position_is, block_position as block_position_is};

use crate::CallSides;
use crate::cells::{
    actual_bound, actual_high, dummy_bound, dummy_high, form_in, in_caller, named_form,
};
use crate::forms::{equation, is_zero, less, number, offset, sum_of, zero};
use crate::rows::next_dimension;
use affine_forms::Affine;
use affine_systems::{Row, Var};
use f77_ast::{Bound, Constant, ConstantValue, Expr, Symbols, const_value_of};
use fx_lists::List;
use std::alloc::{AllocError as Memory, Global};

/// By how much the high bound exceeds the low one, in the caller's array.
fn actual_extent(alloc: Global, sides: &CallSides<'_>, b: &Bound) -> Result<Option<Affine>, Memory>
    ensures defined { IfOk result (λ f. f ≡ actual_extent_is (sides_tree sides.now) (bound_tree b.now)) }
    ensures small { IfOk result (λ f. IfSome f IsSmallForm) }
{
    let high = actual_high(alloc, sides, &b.high)?;
    let low = actual_bound(alloc, sides, &b.low)?;
    less(alloc, &high, &low)
}

/// The same of a dummy, in the terms of the caller.
fn dummy_extent(alloc: Global, sides: &CallSides<'_>, b: &Bound) -> Result<Option<Affine>, Memory>
    ensures defined { IfOk result (λ f. f ≡ dummy_extent_is (sides_tree sides.now) (bound_tree b.now)) }
    ensures small { IfOk result (λ f. IfSome f IsSmallForm) }
{
    let high = dummy_high(alloc, sides, &b.high)?;
    let low = dummy_bound(alloc, sides, &b.low)?;
    let own = less(alloc, &high, &low)?;
    in_caller(alloc, sides, &own)
}

fn same_extent(alloc: Global, sides: &CallSides<'_>, a: &Bound, d: &Bound) -> Result<bool, Memory>
    ensures { IfOk result (λ b. b ≡ same_extent_is (sides_tree sides.now) (bound_tree a.now) (bound_tree d.now)) }
{
    let one = actual_extent(alloc, sides, a)?;
    let other = dummy_extent(alloc, sides, d)?;
    Ok(is_zero(&less(alloc, &one, &other)?))
}

/// That the subscripts of a dimension are equally far from their low bounds.
fn aligned_row(
    alloc: Global,
    sides: &CallSides<'_>,
    rank: u32,
    k: u8,
    a: &Bound,
    d: &Bound,
) -> Result<Option<Row>, Memory>
    ensures defined { IfOk result (λ o. o ≡ aligned_row_is (sides_tree sides.now) rank k (bound_tree a.now) (bound_tree d.now)) }
    ensures fits { IfOk result (λ o. IfSome o IsGiven) }
{
    let low = actual_bound(alloc, sides, &a.low)?;
    let one = offset(alloc, Var::Phi(k), &low)?;
    let inner = dummy_bound(alloc, sides, &d.low)?;
    let inner = named_form(alloc, rank, &inner)?;
    let other = offset(alloc, Var::Aux(u32::from(k)), &inner)?;
    equation(alloc, &one, &other)
}

/// Whether the dimension is the last one, or both have the same extent there.
fn may_align(
    alloc: Global,
    sides: &CallSides<'_>,
    a: &Bound,
    d: &Bound,
    more: &[Bound],
) -> Result<bool, Memory>
    ensures { IfOk result (λ b. b ≡ (is_none_left (map bound_tree more.now) || same_extent_is (sides_tree sides.now) (bound_tree a.now) (bound_tree d.now))) }
{
    if more.is_empty() {
        return Ok(true);
    }
    same_extent(alloc, sides, a, d)
}

/// That the subscripts of a dimension are equally far from their low bounds, where it is the last one or both have the same extent there.
fn dimension_row(
    alloc: Global,
    sides: &CallSides<'_>,
    rank: u32,
    k: u8,
    a: &Bound,
    d: &Bound,
    more: &[Bound],
) -> Result<Option<Row>, Memory>
    ensures defined { IfOk result (λ o. o ≡ dimension_row_is (sides_tree sides.now) rank k (bound_tree a.now) (bound_tree d.now) (map bound_tree more.now)) }
    ensures fits { IfOk result (λ o. IfSome o IsGiven) }
{
    if may_align(alloc, sides, a, d, more)? {
        aligned_row(alloc, sides, rank, k, a, d)
    } else {
        Ok(None)
    }
}

/// Rows with one more before them.
#[tactic(auto, using(crate::proofs::Steps::row_lists))]
fn with_first(alloc: Global, row: Row, rest: List<Row>) -> Result<List<Row>, Memory>
    requires row { IsGiven row }
    requires rest { AllRows IsGiven rest }
    ensures defined { IfOk result (λ rs. rs ≡ row ∷ rest) }
    ensures fits { IfOk result (AllRows IsGiven) }
{
    let mut rows = Vec::new(alloc);
    rows.push(row)?;
    let mut others = rest.into_vec();
    rows.append(&mut others)?;
    Ok(List::from_vec(rows))
}

/// A row before others, where there are both.
fn row_before(
    alloc: Global,
    row: Option<Row>,
    rest: Option<List<Row>>,
) -> Result<Option<List<Row>>, Memory>
    requires row { IfSome row IsGiven }
    requires rest { IfSome rest (AllRows IsGiven) }
    ensures defined { IfOk result (λ o. o ≡ row_before_is row rest) }
    ensures fits { IfOk result (λ o. IfSome o (AllRows IsGiven)) }
{
    match row {
        None => Ok(None),
        Some(row) => match rest {
            None => Ok(None),
            Some(rest) => Ok(Some(with_first(alloc, row, rest)?)),
        },
    }
}

/// That subscripts are equally far from their low bounds in each dimension from the k-th on, where both arrays have as many and equal extents in
/// all but the last.
pub fn aligned_rows(
    alloc: Global,
    sides: &CallSides<'_>,
    rank: u32,
    k: u8,
    actual: &[Bound],
    dummy: &[Bound],
) -> Result<Option<List<Row>>, Memory>
    ensures defined { IfOk result (λ o. o ≡ aligned_rows_is (sides_tree sides.now) rank k (map bound_tree actual.now) (map bound_tree dummy.now)) }
    ensures fits { IfOk result (λ o. IfSome o (AllRows IsGiven)) }
{
    match actual {
        [] => match dummy {
            [] => Ok(Some(List::new(alloc))),
            [_, ..] => Ok(None),
        },
        [a, more @ ..] => match dummy {
            [] => Ok(None),
            [d, later @ ..] => {
                let row = dimension_row(alloc, sides, rank, k, a, d, more)?;
                let rest = aligned_rows(alloc, sides, rank, next_dimension(k)?, more, later)?;
                row_before(alloc, row, rest)
            }
        },
    }
}

fn number_in(const_value: ConstantValue) -> Option<i128>
    ensures defined { result ≡ number_in_is const_value }
    ensures small { IfSome result (λ n. unsigned_abs n < 2 ^ 32) }
{
    match const_value {
        ConstantValue::Is(Constant::Int(n)) => Some(i128::from(n)),
        ConstantValue::Is(Constant::Log(_)) | ConstantValue::Faults | ConstantValue::Varies => None,
    }
}

fn high_number(symbols: &Symbols, high: &Option<Expr>) -> Option<i128>
    ensures defined { result ≡ high_number_is (value_in (map symbol_tree symbols.now)) (maybe_tree high.now) }
    ensures small { IfSome result (λ n. unsigned_abs n < 2 ^ 32) }
{
    match high {
        None => None,
        Some(e) => number_in(const_value_of(e, symbols)),
    }
}

fn size_between(low: Option<i128>, high: Option<i128>) -> Option<i128>
    requires low { IfSome low (λ n. unsigned_abs n < 2 ^ 32) }
    requires high { IfSome high (λ n. unsigned_abs n < 2 ^ 32) }
    ensures defined { result ≡ size_between_is low high }
    ensures small { IfSome result (λ n. unsigned_abs n < 2 ^ 62) }
{
    match low {
        None => None,
        Some(l) => match high {
            None => None,
            Some(h) => Some(h - l + 1),
        },
    }
}

/// How many subscripts a dimension with constant bounds has.
pub fn size_of(symbols: &Symbols, b: &Bound) -> Option<i128>
    ensures defined { result ≡ size_of_is (value_in (map symbol_tree symbols.now)) (bound_tree b.now) }
    ensures small { IfSome result (λ n. unsigned_abs n < 2 ^ 62) }
{
    size_between(
        number_in(const_value_of(&b.low, symbols)),
        high_number(symbols, &b.high),
    )
}

/// A sum and n times another, where there are all.
fn sum_with(
    alloc: Global,
    f: &Option<Affine>,
    n: Option<i128>,
    g: &Option<Affine>,
) -> Result<Option<Affine>, Memory>
    requires first { IfSome f.now IsSmallForm }
    requires factor { IfSome n (λ m. unsigned_abs m < 2 ^ 62) }
    requires second { IfSome g.now IsSmallForm }
    ensures defined { IfOk result (λ o. o ≡ sum_with_is f.now n g.now) }
    ensures small { IfOk result (λ o. IfSome o IsSmallForm) }
{
    match n {
        None => Ok(None),
        Some(n) => sum_of(alloc, f, n, g),
    }
}

/// The place in the dimensions from one on, of `own` there and `rest` in those after it, which are `more`; `n` is the size of the dimension.
pub fn before_dimensions(
    alloc: Global,
    own: Option<Affine>,
    n: Option<i128>,
    more: &[Bound],
    rest: &Option<Affine>,
) -> Result<Option<Affine>, Memory>
    requires first { IfSome own IsSmallForm }
    requires factor { IfSome n (λ m. unsigned_abs m < 2 ^ 62) }
    requires second { IfSome rest.now IsSmallForm }
    ensures defined { IfOk result (λ o. o ≡ before_dimensions_is own n (map bound_tree more.now) rest.now) }
    ensures small { IfOk result (λ o. IfSome o IsSmallForm) }
{
    match more {
        [] => Ok(own),
        [_, ..] => sum_with(alloc, &own, n, rest),
    }
}

/// The place in the dimensions of the caller's array from one on.
fn whole_first(
    alloc: Global,
    sides: &CallSides<'_>,
    k: u8,
    b: &Bound,
    more: &[Bound],
    rest: &Option<Affine>,
) -> Result<Option<Affine>, Memory>
    requires { IfSome rest.now IsSmallForm }
    ensures defined { IfOk result (λ o. o ≡ before_dimensions_is (offset_is (Phi k) (actual_bound_is (sides_tree sides.now) (expr_tree b.now.low))) (size_of_is (value_in (map symbol_tree sides.now.caller.now.symbols.now)) (bound_tree b.now)) (map bound_tree more.now) rest.now) }
    ensures small { IfOk result (λ o. IfSome o IsSmallForm) }
{
    let low = actual_bound(alloc, sides, &b.low)?;
    let own = offset(alloc, Var::Phi(k), &low)?;
    let size = size_of(sides.caller.symbols, b);
    before_dimensions(alloc, own, size, more, rest)
}

/// The same, from an element on.
fn element_first(
    alloc: Global,
    sides: &CallSides<'_>,
    k: u8,
    e: &Expr,
    b: &Bound,
    more: &[Bound],
    rest: &Option<Affine>,
) -> Result<Option<Affine>, Memory>
    requires { IfSome rest.now IsSmallForm }
    ensures defined { IfOk result (λ o. o ≡ before_dimensions_is (offset_is (Phi k) (affine_of_is (sides_tree sides.now).caller.scalars (expr_tree e.now))) (size_of_is (value_in (map symbol_tree sides.now.caller.now.symbols.now)) (bound_tree b.now)) (map bound_tree more.now) rest.now) }
    ensures small { IfOk result (λ o. IfSome o IsSmallForm) }
{
    let base = form_in(alloc, sides.caller, e)?;
    let own = offset(alloc, Var::Phi(k), &base)?;
    let size = size_of(sides.caller.symbols, b);
    before_dimensions(alloc, own, size, more, rest)
}

/// The same of the callee's array.
fn dummy_first(
    alloc: Global,
    sides: &CallSides<'_>,
    rank: u32,
    k: u8,
    b: &Bound,
    more: &[Bound],
    rest: &Option<Affine>,
) -> Result<Option<Affine>, Memory>
    requires { IfSome rest.now IsSmallForm }
    ensures defined { IfOk result (λ o. o ≡ before_dimensions_is (offset_is (Aux k) (named_form_is rank (dummy_bound_is (sides_tree sides.now) (expr_tree b.now.low)))) (size_of_is (value_in (map symbol_tree sides.now.callee.now.symbols.now)) (bound_tree b.now)) (map bound_tree more.now) rest.now) }
    ensures small { IfOk result (λ o. IfSome o IsSmallForm) }
{
    let low = dummy_bound(alloc, sides, &b.low)?;
    let low = named_form(alloc, rank, &low)?;
    let own = offset(alloc, Var::Aux(u32::from(k)), &low)?;
    let size = size_of(sides.callee.symbols, b);
    before_dimensions(alloc, own, size, more, rest)
}

/// The place of the element with the subscripts `Phi(k)` .. in the order of elements, from 0 for the first of the array.
pub fn whole_position(
    alloc: Global,
    sides: &CallSides<'_>,
    k: u8,
    bounds: &[Bound],
) -> Result<Option<Affine>, Memory>
    ensures defined { IfOk result (λ o. o ≡ whole_position_is (sides_tree sides.now) k (map bound_tree bounds.now)) }
    ensures small { IfOk result (λ o. IfSome o IsSmallForm) }
{
    match bounds {
        [] => Ok(Some(zero(alloc))),
        [b, more @ ..] => {
            let rest = whole_position(alloc, sides, next_dimension(k)?, more)?;
            whole_first(alloc, sides, k, b, more, &rest)
        }
    }
}

/// The same, from 0 for the element with the subscripts `es`.
#[tactic(auto, using(crate::proofs::Steps::expr_numbers))]
pub fn element_position(
    alloc: Global,
    sides: &CallSides<'_>,
    k: u8,
    es: &[Expr],
    bounds: &[Bound],
) -> Result<Option<Affine>, Memory>
    ensures defined { IfOk result (λ o. o ≡ element_position_is (sides_tree sides.now) k (expr_trees es.now) (map bound_tree bounds.now)) }
    ensures small { IfOk result (λ o. IfSome o IsSmallForm) }
{
    match bounds {
        [] => match es {
            [] => Ok(Some(zero(alloc))),
            [_, ..] => Ok(None),
        },
        [b, more @ ..] => match es {
            [] => Ok(None),
            [e, others @ ..] => {
                let rest = element_position(alloc, sides, next_dimension(k)?, others, more)?;
                element_first(alloc, sides, k, e, b, more, &rest)
            }
        },
    }
}

/// The place of the element of a dummy with the subscripts `Aux(k)` .. in the order of elements, from 0 for the first.
pub fn dummy_position(
    alloc: Global,
    sides: &CallSides<'_>,
    rank: u32,
    k: u8,
    bounds: &[Bound],
) -> Result<Option<Affine>, Memory>
    ensures defined { IfOk result (λ o. o ≡ dummy_position_is (sides_tree sides.now) rank k (map bound_tree bounds.now)) }
    ensures small { IfOk result (λ o. IfSome o IsSmallForm) }
{
    match bounds {
        [] => Ok(Some(zero(alloc))),
        [b, more @ ..] => {
            let rest = dummy_position(alloc, sides, rank, next_dimension(k)?, more)?;
            dummy_first(alloc, sides, rank, k, b, more, &rest)
        }
    }
}

/// The place of the unit `Phi(1)` of a block, from 0 for the unit at an offset.
pub fn block_position(alloc: Global, offset_in_block: u64) -> Result<Option<Affine>, Memory>
    ensures defined { IfOk result (λ o. o ≡ block_position_is offset_in_block) }
    ensures small { IfOk result (λ o. IfSome o IsSmallForm) }
{
    let first = number(alloc, i128::from(offset_in_block) + 1);
    offset(alloc, Var::Phi(1), &first)
}
