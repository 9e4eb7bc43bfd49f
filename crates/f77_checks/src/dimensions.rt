//! The dimensions of arrays (ANSI X3.9-1978 §5.1).
ghost use Rattle.std.specs.Prelude.{◌≡◌, ◌≤◌, IfOk, map, is_some};
ghost use Rattle.std.specs.Option.{option_map};
ghost use Rattle.f77_ast.specs.Plain.{expr_tree};
ghost use Rattle.f77_ast.specs.PlainStmt.{maybe_tree};
ghost use Rattle.f77_ast.specs.Symbols.{bound_tree};
ghost use Rattle.f77_names.specs.Entries.{entry_tree, maybe_shape, shape_tree};
ghost use Rattle.f77_names.specs.Views.{table_tree};
ghost use Rattle.f77_checks.specs.Dimensions.{check_bounds, dim_from, dim_of, dims_in, dims_of, has_bad_bound, is_adjustable, is_bad_bound, is_bad_high, is_bad_shape, is_bad_const_value, is_below, is_int_kind, may_adjust, check_maybe, check_shape, check_shapes, const_value_in};
ghost use Rattle.f77_checks.specs.Sizes.{capped_units, dim_tree, dims_tree, is_above};
ghost use Rattle.f77_checks.specs.Views.{known_dims};

use crate::expressions::check_expr;
use crate::sizes::{Dimensions, Size, is_above};
use f77_ast::{Bound, Constant, ConstantValue, Expr, const_value_of, gives_logical, turns_logical};
use f77_names::{Entry, Kind, NameTable, Shape};
use fx_lists::{Code, List, Refusal, refuse_if};
use std::alloc::{AllocError as Memory, Global};

fn is_int_kind(kind: Kind) -> bool
    ensures { result ≡ is_int_kind kind }
{
    match kind {
        Kind::Int => true,
        Kind::Log | Kind::Real => false,
    }
}

/// An INTEGER scalar that is a PARAMETER, a dummy or in COMMON.
fn may_adjust(table: &NameTable, entry: &Entry) -> bool
    ensures { result ≡ may_adjust (table_tree table.now) (entry_tree entry.now) }
{
    match &entry.shape {
        Some(_) => false,
        None => {
            is_int_kind(table.entry_kind(entry))
                && (entry.parameter || entry.dummy.is_some() || entry.common.is_some())
        }
    }
}

/// An integer expression of constants and such scalars.
#[tactic(auto, using(f77_ast::proofs::Plainly::expr_calls))]
fn is_adjustable(table: &NameTable, e: &Expr) -> bool
    ensures { result ≡ is_adjustable (table_tree table.now) (expr_tree e.now) }
{
    match e {
        Expr::Int(_) => true,
        Expr::Name(name) => match table.names.find(name) {
            None => false,
            Some(entry) => may_adjust(table, entry),
        },
        Expr::Paren(e) => is_adjustable(table, e),
        Expr::Unary(op, e) => !turns_logical(*op) && is_adjustable(table, e),
        Expr::Binary(op, a, b) => {
            !gives_logical(*op) && is_adjustable(table, a) && is_adjustable(table, b)
        }
        Expr::Log(_) | Expr::Element(..) | Expr::Chars(_) => false,
    }
}

fn const_value_in(table: &NameTable, e: &Expr) -> ConstantValue
    ensures { result ≡ const_value_in (table_tree table.now) (expr_tree e.now) }
{
    const_value_of(e, &table.names)
}

fn is_bad_limit(table: &NameTable, dummy: bool, e: &Expr, const_value: ConstantValue) -> bool
    ensures { result ≡ is_bad_const_value (table_tree table.now) dummy (expr_tree e.now) const_value }
{
    match const_value {
        ConstantValue::Is(Constant::Int(_)) => false,
        ConstantValue::Is(Constant::Log(_)) | ConstantValue::Faults => true,
        ConstantValue::Varies => !(dummy && is_adjustable(table, e)),
    }
}

fn is_below(high: ConstantValue, low: ConstantValue) -> bool
    ensures { result ≡ is_below high low }
{
    match (high, low) {
        (ConstantValue::Is(Constant::Int(high)), ConstantValue::Is(Constant::Int(low))) => high
            < low,
        (
            ConstantValue::Is(Constant::Int(_)),
            ConstantValue::Is(Constant::Log(_)) | ConstantValue::Faults | ConstantValue::Varies,
        )
        | (
            ConstantValue::Is(Constant::Log(_)) | ConstantValue::Faults | ConstantValue::Varies,
            _,
        ) => false,
    }
}

fn is_bad_high(table: &NameTable, dummy: bool, last: bool, low: &Expr, high: &Option<Expr>) -> bool
    ensures { result
        ≡ is_bad_high (table_tree table.now) dummy last (expr_tree low.now) (maybe_tree high.now) }
{
    match high {
        None => !(dummy && last),
        Some(high) => {
            let const_value = const_value_in(table, high);
            is_bad_limit(table, dummy, high, const_value)
                || is_below(const_value, const_value_in(table, low))
        }
    }
}

fn is_bad_bound(table: &NameTable, dummy: bool, last: bool, bound: &Bound) -> bool
    ensures { result ≡ is_bad_bound (table_tree table.now) dummy last (bound_tree bound.now) }
{
    let const_value = const_value_in(table, &bound.low);
    is_bad_limit(table, dummy, &bound.low, const_value)
        || is_bad_high(table, dummy, last, &bound.low, &bound.high)
}

#[tactic(auto, using(crate::proofs::SizeLaws::last_bounds))]
fn has_bad_bound(table: &NameTable, dummy: bool, bounds: &[Bound]) -> bool
    ensures { result ≡ has_bad_bound (table_tree table.now) dummy (map bound_tree bounds.now) }
{
    for (place, bound) in bounds.iter().enumerate() {
        let last = place + 1 == bounds.len();
        if is_bad_bound(table, dummy, last, bound) {
            return true;
        }
    }
    false
}

fn size_of(low: ConstantValue, high: ConstantValue) -> Option<Size>
    ensures { option_map dim_tree result ≡ dim_from low high }
{
    match (low, high) {
        (ConstantValue::Is(Constant::Int(low)), ConstantValue::Is(Constant::Int(high))) => Some(
            Size { low, high },
        ),
        (
            ConstantValue::Is(Constant::Int(_)),
            ConstantValue::Is(Constant::Log(_)) | ConstantValue::Faults | ConstantValue::Varies,
        )
        | (
            ConstantValue::Is(Constant::Log(_)) | ConstantValue::Faults | ConstantValue::Varies,
            _,
        ) => None,
    }
}

fn bound_size(table: &NameTable, bound: &Bound) -> Option<Size>
    ensures { option_map dim_tree result ≡ dim_of (table_tree table.now) (bound_tree bound.now) }
{
    match &bound.high {
        None => None,
        Some(high) => size_of(
            const_value_in(table, &bound.low),
            const_value_in(table, high),
        ),
    }
}

/// The units, at most 2^64-1; None where a bound is not constant.
#[tactic(auto, using(crate::proofs::SizeLaws::unit_steps))]
fn units_of(table: &NameTable, bounds: &[Bound]) -> Option<u64>
    ensures { result ≡ capped_units 1 (dims_of (table_tree table.now) (map bound_tree bounds.now)) }
{
    let mut units = 1u64;
    for bound in bounds {
        match bound_size(table, bound) {
            None => return None,
            Some(size) => units = units.saturating_mul(size.units()),
        }
    }
    Some(units)
}

#[tactic(auto, using(crate::proofs::SizeLaws::size_steps))]
fn sizes_of(
    alloc: Global,
    table: &NameTable,
    bounds: &[Bound],
) -> Result<Option<List<Size>>, Memory>
    ensures { IfOk result
        (λ r. option_map dims_tree r ≡ dims_of (table_tree table.now) (map bound_tree bounds.now)) }
{
    let mut sizes = List::new(alloc);
    for bound in bounds {
        match bound_size(table, bound) {
            None => return Ok(None),
            Some(size) => sizes.push(size)?,
        }
    }
    Ok(Some(sizes))
}

/// More than seven bounds, a bad bound, or more than 2147483647 units.
#[tactic(auto, using(crate::proofs::SizeLaws::unit_steps))]
fn is_bad_shape(table: &NameTable, dummy: bool, bounds: &[Bound]) -> bool
    ensures { result ≡ is_bad_shape (table_tree table.now) dummy (map bound_tree bounds.now) }
{
    7 < bounds.len() || has_bad_bound(table, dummy, bounds) || is_above(units_of(table, bounds))
}

/// The dimensions of a name, none for a scalar; None where its bounds are refused or not constant.
pub fn dimensions_of(
    alloc: Global,
    table: &NameTable,
    entry: &Entry,
) -> Result<Option<Dimensions>, Memory>
    ensures { IfOk result
        (λ r. known_dims r ≡ dims_in (table_tree table.now) (entry_tree entry.now)) }
{
    match &entry.shape {
        None => Ok(Some(Dimensions::scalar(alloc))),
        Some(shape) => {
            let bounds = shape.bounds.as_slice();
            if is_bad_shape(table, entry.dummy.is_some(), bounds) {
                return Ok(None);
            }
            match (sizes_of(alloc, table, bounds)?, units_of(table, bounds)) {
                (Some(sizes), Some(units)) => Ok(Some(Dimensions::of(sizes, units))),
                (None, _) | (Some(_), None) => Ok(None),
            }
        }
    }
}

fn check_maybe(
    table: &NameTable,
    e: &Option<Expr>,
    line: u32,
    found: Option<Refusal>,
) -> Option<Refusal>
    ensures { result ≡ check_maybe (table_tree table.now) (maybe_tree e.now) line found }
{
    match e {
        None => found,
        Some(e) => check_expr(table, e, line, found),
    }
}

#[tactic(auto, using(f77_ast::proofs::PlainlyDecl::decl_lists))]
fn check_bounds(
    table: &NameTable,
    bounds: &[Bound],
    line: u32,
    mut found: Option<Refusal>,
) -> Option<Refusal>
    ensures { result ≡ check_bounds (table_tree table.now) (map bound_tree bounds.now) line found }
{
    for bound in bounds {
        found = check_expr(table, &bound.low, line, found);
        found = check_maybe(table, &bound.high, line, found);
    }
    found
}

fn check_shape(
    table: &NameTable,
    dummy: bool,
    shape: &Option<Shape>,
    found: Option<Refusal>,
) -> Option<Refusal>
    ensures { result ≡ check_shape (table_tree table.now) dummy (maybe_shape shape.now) found }
{
    match shape {
        None => found,
        Some(shape) => {
            let bounds = shape.bounds.as_slice();
            let found = check_bounds(table, bounds, shape.line, found);
            let wrong = is_bad_shape(table, dummy, bounds);
            refuse_if(wrong, shape.line, Code::BadDimension, found)
        }
    }
}

/// The first refusal, also of the bounds of all arrays and of the expressions in them.
#[tactic(auto, using(f77_ast::proofs::PlainlyDecl::decl_lists))]
pub fn check_shapes(table: &NameTable, mut found: Option<Refusal>) -> Option<Refusal>
    ensures { result
        ≡ check_shapes (table_tree table.now) (map entry_tree table.now.names) found }
{
    for entry in table.names.as_slice() {
        found = check_shape(table, entry.dummy.is_some(), &entry.shape, found);
    }
    found
}
