//! Units of a block, by the elements of its variables (ANSI X3.9-1978, §5.2.4, §8.3).
ghost use Rattle.std.specs.Prelude.{◌≡◌, ◌^◌, ◌<◌, map, unsigned_abs, IfOk, IfSome};
ghost use Rattle.f77_ast.specs.Plain.{expr_tree};
ghost use Rattle.f77_ast.specs.Constants.{const_value};
ghost use Rattle.f77_ast.specs.Symbols.{bound_tree, symbol_tree, value_in};
ghost use Rattle.affine_forms.specs.Forms.{IsSmallForm};
ghost use Rattle.call_equations.specs.Rows.{constant_form as constant_form_is};
ghost use Rattle.call_equations.specs.Forms.{offset as offset_is};
ghost use Rattle.call_equations.specs.Positions.{size_of as size_of_is, before_dimensions as before_dimensions_is};
ghost use Rattle.region_translation.specs.Units.{subscript as subscript_is, element_place as element_place_is, unit_place as unit_place_is, end_of, meet, units_of as units_of_is, reach_by as reach_by_is, reach as reach_is, reach_each as reach_each_is, are_covered as are_covered_is};

use affine_forms::Affine;
use affine_systems::Var;
use call_equations::{
    before_dimensions, constant_form, next_dimension, number, offset, size_of, sum_of, zero,
};
use f77_ast::{Bound, Symbol, Symbols, const_value_of, units_of as units_taken};
use std::alloc::{AllocError as Memory, Global};

/// The k-th subscript, of the caller's variable or of the callee's.
fn subscript(of_caller: bool, k: u8) -> Var
    ensures { result ≡ subscript_is of_caller k }
{
    if of_caller {
        Var::Aux(u32::from(k))
    } else {
        Var::Phi(k)
    }
}

/// The place in the dimensions from the k-th on, `rest` being that in those after it, which are `more`.
fn place_from(
    alloc: Global,
    symbols: &Symbols,
    of_caller: bool,
    k: u8,
    b: &Bound,
    more: &[Bound],
    rest: &Option<Affine>,
) -> Result<Option<Affine>, Memory>
    requires { IfSome rest.now IsSmallForm }
    ensures defined { IfOk result (λ o. o ≡ before_dimensions_is (offset_is (subscript_is of_caller k) (constant_form_is (const_value (value_in (map symbol_tree symbols.now)) (expr_tree b.now.low)))) (size_of_is (value_in (map symbol_tree symbols.now)) (bound_tree b.now)) (map bound_tree more.now) rest.now) }
    ensures small { IfOk result (λ o. IfSome o IsSmallForm) }
{
    let low = constant_form(alloc, const_value_of(&b.low, symbols));
    let own = offset(alloc, subscript(of_caller, k), &low)?;
    before_dimensions(alloc, own, size_of(symbols, b), more, rest)
}

/// The place of the element with the subscripts from the k-th on in its array, from 0; None where that has no form.
fn element_place(
    alloc: Global,
    symbols: &Symbols,
    of_caller: bool,
    k: u8,
    bounds: &[Bound],
) -> Result<Option<Affine>, Memory>
    ensures defined { IfOk result (λ o. o ≡ element_place_is (value_in (map symbol_tree symbols.now)) of_caller k (map bound_tree bounds.now)) }
    ensures small { IfOk result (λ o. IfSome o IsSmallForm) }
{
    match bounds {
        [] => Ok(Some(zero(alloc))),
        [b, more @ ..] => {
            let rest = element_place(alloc, symbols, of_caller, next_dimension(k)?, more)?;
            place_from(alloc, symbols, of_caller, k, b, more, &rest)
        }
    }
}

/// The unit of the block that an element is, from 1, where `first` units come before its variable; None where that has no form.
pub fn unit_place(
    alloc: Global,
    symbols: &Symbols,
    of_caller: bool,
    first: u64,
    bounds: &[Bound],
) -> Result<Option<Affine>, Memory>
    ensures defined { IfOk result (λ o. o ≡ unit_place_is (value_in (map symbol_tree symbols.now)) of_caller first (map bound_tree bounds.now)) }
    ensures small { IfOk result (λ o. IfSome o IsSmallForm) }
{
    let before = number(alloc, i128::from(first) + 1);
    let place = element_place(alloc, symbols, of_caller, 1, bounds)?;
    sum_of(alloc, &before, 1, &place)
}

/// Units of a block: the first, from 0, and how many.
#[derive(Clone, Copy)]
pub struct Units {
    pub first: u64,
    pub count: u64,
}

/// The unit after the last of them. Err where that is 2^64 or more.
fn end(units: Units) -> Result<u64, Memory>
    ensures { IfOk result (λ n. n ≡ end_of units) }
{
    units.first.checked_add(units.count).ok_or(Memory)
}

/// Whether both have a unit in common.
pub fn units_meet(one: Units, other: Units) -> Result<bool, Memory>
    ensures { IfOk result (λ b. b ≡ meet one other) }
{
    let first = one.first.max(other.first);
    let last = end(one)?.min(end(other)?);
    Ok(first < last)
}

/// The units of a variable of a block. Err where it takes 2^64 or more.
pub fn units_of(symbols: &Symbols, first: u64, symbol: &Symbol) -> Result<Units, Memory>
    ensures { IfOk result (λ u. u ≡ units_of_is (map symbol_tree symbols.now) first (symbol_tree symbol.now)) }
{
    match units_taken(symbols, symbol) {
        None => Err(Memory),
        Some(count) => Ok(Units { first, count }),
    }
}

/// The end of these units, where they begin at a place or before and end behind it; else the place.
fn reach_by(u: Units, at: u64) -> Result<u64, Memory>
    ensures { IfOk result (λ n. n ≡ reach_by_is u at) }
{
    if u.first <= at {
        Ok(at.max(end(u)?))
    } else {
        Ok(at)
    }
}

/// Where units are covered up to a place: to where they are, by those that begin there or before.
fn reach(units: &[Units], at: u64) -> Result<u64, Memory>
    ensures { IfOk result (λ n. n ≡ reach_is units.now at) }
{
    let mut at = at;
    let mut rest = units;
    while let [u, more @ ..] = rest {
        at = reach_by(*u, at)?;
        rest = more;
    }
    Ok(at)
}

/// The same, once for each of them.
fn reach_each(units: &[Units], at: u64) -> Result<u64, Memory>
    ensures { IfOk result (λ n. n ≡ reach_each_is units.now units.now at) }
{
    let mut at = at;
    let mut rest = units;
    while let [_, more @ ..] = rest {
        at = reach(units, at)?;
        rest = more;
    }
    Ok(at)
}

/// Whether each of these units is one of some of the others. Takes time of the square of the number of those.
pub fn are_covered(wanted: Units, units: &[Units]) -> Result<bool, Memory>
    ensures { IfOk result (λ b. b ≡ are_covered_is wanted units.now) }
{
    let last = end(wanted)?;
    let at = reach_each(units, wanted.first)?;
    Ok(last <= at)
}
