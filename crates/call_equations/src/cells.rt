//! What cells of the callee are to the caller where the callee begins.
ghost use Rattle.std.specs.Prelude.{◌≡◌, ◌+◌, suc, map, IfOk, IfSome, Some, option_copied};
ghost use Rattle.affine_systems.specs.Given.{AreSmall};
ghost use Rattle.f77_ast.specs.Plain.{expr_tree};
ghost use Rattle.f77_ast.specs.PlainStmt.{maybe_tree};
ghost use Rattle.f77_ast.specs.Symbols.{symbol_tree};
ghost use Rattle.f77_ast.specs.Shared.{place_at};
ghost use Rattle.f77_ast.specs.declared.symbol.Place.TheVariants.{Dummy};
ghost use Rattle.affine_forms.specs.Forms.{IsSmallForm, affine_of as affine_of_is, cell_form as cell_form_is};
ghost use Rattle.call_translation.specs.Scopes.{scope_tree};
ghost use Rattle.call_equations.specs.Sides.{sides_tree};
ghost use Rattle.call_equations.specs.Cells.{form_at, form_of as form_of_is, var_in_caller as var_in_caller_is, terms_in_caller as terms_in_caller_is, in_caller as in_caller_is, cell_name as cell_name_is, named as named_is, named_terms as named_terms_is, named_form as named_form_is, maybe_form, actual_bound as actual_bound_is, dummy_bound as dummy_bound_is};

use crate::CallSides;
use crate::forms::{number, sum_of, unless_among};
use affine_forms::{Affine, affine_of, var_form};
use affine_systems::{Term, Var};
use call_translation::{CellScope, actual_of, tracked_at};
use f77_ast::{Expr, Place, Symbols};
use std::alloc::{AllocError as Memory, Global};

/// The form of an expression in a module.
pub fn form_in(alloc: Global, scope: &CellScope<'_>, e: &Expr) -> Result<Option<Affine>, Memory>
    ensures defined { IfOk result (λ f. f ≡ affine_of_is (scope_tree scope.now.symbols.now scope.now.tracked.now).scalars (expr_tree e.now)) }
    ensures small { IfOk result (λ f. IfSome f IsSmallForm) }
{
    affine_of(alloc, scope.symbols, scope.tracked, e)
}

fn place_in(symbols: &Symbols, number: u32) -> Option<&Place>
    ensures { option_copied result ≡ place_at (map symbol_tree symbols.now) number }
{
    match symbols.symbol(number) {
        None => None,
        Some(symbol) => Some(&symbol.place),
    }
}

/// The form of a cell, where there is one.
fn cell_form(alloc: Global, cell: Option<u32>) -> Result<Option<Affine>, Memory>
    ensures defined { IfOk result (λ f. f ≡ cell_form_is cell) }
    ensures small { IfOk result (λ f. IfSome f IsSmallForm) }
{
    match cell {
        None => Ok(None),
        Some(cell) => Ok(Some(var_form(alloc, Var::Cell(cell))?)),
    }
}

/// The form of the actual of a dummy.
pub fn actual_form(
    alloc: Global,
    sides: &CallSides<'_>,
    dummy: u32,
) -> Result<Option<Affine>, Memory>
    ensures defined { IfOk result (λ f. f ≡ form_at (sides_tree sides.now) (Some (Dummy dummy))) }
    ensures small { IfOk result (λ f. IfSome f IsSmallForm) }
{
    match actual_of(sides.actuals, dummy) {
        None => Ok(None),
        Some(actual) => form_in(alloc, sides.caller, actual),
    }
}

/// The form over the cells of the caller that the variable of the callee with a number, from 1, has the value of where the callee begins.
pub fn form_of(alloc: Global, sides: &CallSides<'_>, cell: u32) -> Result<Option<Affine>, Memory>
    ensures defined { IfOk result (λ f. f ≡ form_of_is (sides_tree sides.now) cell) }
    ensures small { IfOk result (λ f. IfSome f IsSmallForm) }
{
    match place_in(sides.callee.symbols, cell) {
        None => Ok(None),
        Some(place) => match place {
            Place::Dummy(dummy) => actual_form(alloc, sides, *dummy),
            Place::Block(block, offset) => {
                let found = tracked_at(sides.caller, block, *offset)?;
                cell_form(alloc, found)
            }
            Place::Local(..) | Place::Constant(_) => Ok(None),
        },
    }
}

fn var_in_caller(alloc: Global, sides: &CallSides<'_>, v: Var) -> Result<Option<Affine>, Memory>
    ensures defined { IfOk result (λ f. f ≡ var_in_caller_is (sides_tree sides.now) v) }
    ensures small { IfOk result (λ f. IfSome f IsSmallForm) }
{
    match v {
        Var::Cell(cell) => form_of(alloc, sides, cell),
        Var::Exit(_) | Var::Phi(_) | Var::Aux(_) => Ok(None),
    }
}

/// A form of the callee with each cell as its form in the caller.
pub fn in_caller(
    alloc: Global,
    sides: &CallSides<'_>,
    form: &Option<Affine>,
) -> Result<Option<Affine>, Memory>
    requires { IfSome form.now IsSmallForm }
    ensures defined { IfOk result (λ f. f ≡ in_caller_is (sides_tree sides.now) form.now) }
    ensures small { IfOk result (λ f. IfSome f IsSmallForm) }
{
    match form {
        None => Ok(None),
        Some(form) => terms_in_caller(alloc, sides, form),
    }
}

fn terms_in_caller(
    alloc: Global,
    sides: &CallSides<'_>,
    form: &Affine,
) -> Result<Option<Affine>, Memory>
    requires { IsSmallForm form.now }
    ensures defined { IfOk result (λ f. f ≡ in_caller_is (sides_tree sides.now) (Some form.now)) }
    ensures small { IfOk result (λ f. IfSome f IsSmallForm) }
{
    let mut sum = number(alloc, form.constant);
    let mut rest = form.terms.as_slice();
    while let [t, more @ ..] = rest {
        let own = var_in_caller(alloc, sides, t.var)?;
        sum = sum_of(alloc, &sum, t.factor, &own)?;
        rest = more;
    }
    Ok(sum)
}

/// The name of a cell of the callee, behind those of `rank` subscripts. Err also where that is above 2^32 - 1.
pub fn cell_name(rank: u32, cell: u32) -> Result<Var, Memory>
    ensures { IfOk result (λ v. v ≡ cell_name_is rank cell) }
{
    let first = rank.checked_add(1).ok_or(Memory)?;
    let name = first.checked_add(cell).ok_or(Memory)?;
    Ok(Var::Aux(name))
}

fn named(rank: u32, v: Var) -> Result<Var, Memory>
    ensures { IfOk result (λ w. w ≡ named_is rank v) }
{
    match v {
        Var::Cell(cell) => cell_name(rank, cell),
        Var::Exit(_) | Var::Phi(_) | Var::Aux(_) => Ok(v),
    }
}

fn named_sum(alloc: Global, rank: u32, form: &Affine) -> Result<Option<Affine>, Memory>
    requires { IsSmallForm form.now }
    ensures defined { IfOk result (λ f. f ≡ named_form_is rank (Some form.now)) }
    ensures small { IfOk result (λ f. IfSome f IsSmallForm) }
{
    let mut sum = number(alloc, form.constant);
    let mut rest = form.terms.as_slice();
    while let [t, more @ ..] = rest {
        let own = Some(var_form(alloc, named(rank, t.var)?)?);
        sum = sum_of(alloc, &sum, t.factor, &own)?;
        rest = more;
    }
    Ok(sum)
}

/// A form of the callee with the names of its cells.
pub fn named_form(alloc: Global, rank: u32, form: &Option<Affine>) -> Result<Option<Affine>, Memory>
    requires { IfSome form.now IsSmallForm }
    ensures defined { IfOk result (λ f. f ≡ named_form_is rank form.now) }
    ensures small { IfOk result (λ f. IfSome f IsSmallForm) }
{
    match form {
        None => Ok(None),
        Some(form) => named_sum(alloc, rank, form),
    }
}

/// The form of a bound of the caller's array; none that names a cell which some statement of the caller changes.
pub fn actual_bound(
    alloc: Global,
    sides: &CallSides<'_>,
    e: &Expr,
) -> Result<Option<Affine>, Memory>
    ensures defined { IfOk result (λ f. f ≡ actual_bound_is (sides_tree sides.now) (expr_tree e.now)) }
    ensures small { IfOk result (λ f. IfSome f IsSmallForm) }
{
    let form = form_in(alloc, sides.caller, e)?;
    Ok(unless_among(sides.changed.as_slice(), form))
}

/// The form of a bound of a dummy.
pub fn dummy_bound(alloc: Global, sides: &CallSides<'_>, e: &Expr) -> Result<Option<Affine>, Memory>
    ensures defined { IfOk result (λ f. f ≡ dummy_bound_is (sides_tree sides.now) (expr_tree e.now)) }
    ensures small { IfOk result (λ f. IfSome f IsSmallForm) }
{
    form_in(alloc, sides.callee, e)
}

/// The form of a high bound of the caller's array; none of `*`.
pub fn actual_high(
    alloc: Global,
    sides: &CallSides<'_>,
    high: &Option<Expr>,
) -> Result<Option<Affine>, Memory>
    ensures defined { IfOk result (λ f. f ≡ maybe_form (actual_bound_is (sides_tree sides.now)) (maybe_tree high.now)) }
    ensures small { IfOk result (λ f. IfSome f IsSmallForm) }
{
    match high {
        None => Ok(None),
        Some(e) => actual_bound(alloc, sides, e),
    }
}

/// The form of a high bound of a dummy; none of `*`.
pub fn dummy_high(
    alloc: Global,
    sides: &CallSides<'_>,
    high: &Option<Expr>,
) -> Result<Option<Affine>, Memory>
    ensures defined { IfOk result (λ f. f ≡ maybe_form (dummy_bound_is (sides_tree sides.now)) (maybe_tree high.now)) }
    ensures small { IfOk result (λ f. IfSome f IsSmallForm) }
{
    match high {
        None => Ok(None),
        Some(e) => dummy_bound(alloc, sides, e),
    }
}
