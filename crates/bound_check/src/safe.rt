//! References that cannot leave their array.
ghost use Rattle.std.specs.Prelude.{◌≡◌, map, IfOk, IfSome};
ghost use Rattle.affine_systems.specs.Given.{Fits, IsGiven};
ghost use Rattle.affine_systems.specs.declared.row.Row.{Row as ARow};
ghost use Rattle.f77_ast.specs.Plain.{expr_tree, expr_trees};
ghost use Rattle.f77_ast.specs.PlainStmt.{maybe_tree};
ghost use Rattle.f77_ast.specs.Symbols.{bound_tree};
ghost use Rattle.affine_forms.specs.Forms.{IsSmallForm};
ghost use Rattle.preconditions.specs.call_translation.Scopes.{scope_tree};
ghost use Rattle.bound_check.specs.Safe.{at_most as at_most_is, fits_bound as fits_bound_is, fits_bounds as fits_bounds_is, fixed_bound as fixed_bound_is, gives as gives_is, is_safe as is_safe_is, lies_between as lies_between_is};

use crate::references::bounds_of;
use affine_forms::{Affine, affine_of, at_most_row};
use affine_systems::{Norm, Row, System, normalise};
use call_equations::unless_among;
use f77_ast::{Bound, Expr};
use hull_projection::{entails, refuted};
use preconditions::call_translation::CellScope;
use std::alloc::{AllocError as Memory, Global};

/// What a reference is judged by: the variables of its module that some statement changes, those that its own statement has changed before,
/// and what holds before the statement.
#[derive(Drop)]
pub struct Judging<'a> {
    pub scope: &'a CellScope<'a>,
    pub changed: &'a [u32],
    pub written: &'a [u32],
    pub holds: &'a System,
}

/// Whether refutation shows that a row holds wherever the system does.
fn gives(alloc: Global, holds: &System, row: Row) -> Result<bool, Memory>
    requires system { Fits holds.now }
    requires row { IsGiven row }
    ensures { IfOk result (λ b. b ≡ gives_is holds.now.rows row) }
{
    let mut row = row;
    match normalise(&mut row) {
        Norm::Kept => Ok(entails(alloc, holds, &row)?),
        Norm::True => Ok(true),
        Norm::False | Norm::TooBig => Ok(refuted(alloc, holds)?),
    }
}

/// Whether a form is at most another.
fn at_most(
    alloc: Global,
    holds: &System,
    f: &Option<Affine>,
    g: &Option<Affine>,
) -> Result<bool, Memory>
    requires system { Fits holds.now }
    requires first { IfSome f.now IsSmallForm }
    requires second { IfSome g.now IsSmallForm }
    ensures { IfOk result (λ b. b ≡ at_most_is holds.now.rows f.now g.now) }
{
    let Some(f) = f else {
        return Ok(false);
    };
    let Some(g) = g else {
        return Ok(false);
    };
    let row = at_most_row(alloc, f, g)?;
    Ok(gives(alloc, holds, row)?)
}

/// The form of a bound, where no statement changes a variable of it.
fn fixed_bound(alloc: Global, j: &Judging<'_>, bound: &Expr) -> Result<Option<Affine>, Memory>
    ensures defined { IfOk result (λ f. f ≡ fixed_bound_is (scope_tree j.now.scope.now.symbols.now j.now.scope.now.tracked.now).scalars j.now.changed.now (Some (expr_tree bound.now))) }
    ensures small { IfOk result (λ f. IfSome f IsSmallForm) }
{
    let form = affine_of(alloc, j.scope.symbols, j.scope.tracked, bound)?;
    Ok(unless_among(j.changed, form))
}

fn high_bound(
    alloc: Global,
    j: &Judging<'_>,
    bound: &Option<Expr>,
) -> Result<Option<Affine>, Memory>
    ensures defined { IfOk result (λ f. f ≡ fixed_bound_is (scope_tree j.now.scope.now.symbols.now j.now.scope.now.tracked.now).scalars j.now.changed.now (maybe_tree bound.now)) }
    ensures small { IfOk result (λ f. IfSome f IsSmallForm) }
{
    match bound {
        None => Ok(None),
        Some(bound) => fixed_bound(alloc, j, bound),
    }
}

/// Whether a subscript lies between its bounds.
fn fits_bound(
    alloc: Global,
    j: &Judging<'_>,
    subscript: &Expr,
    bound: &Bound,
) -> Result<bool, Memory>
    requires { Fits j.now.holds.now }
    ensures { IfOk result (λ b. b ≡ fits_bound_is (scope_tree j.now.scope.now.symbols.now j.now.scope.now.tracked.now).scalars j.now.changed.now j.now.written.now j.now.holds.now.rows (expr_tree subscript.now) (bound_tree bound.now)) }
{
    let form = affine_of(alloc, j.scope.symbols, j.scope.tracked, subscript)?;
    let form = unless_among(j.written, form);
    let low = fixed_bound(alloc, j, &bound.low)?;
    if !at_most(alloc, j.holds, &low, &form)? {
        return Ok(false);
    }
    let high = high_bound(alloc, j, &bound.high)?;
    Ok(at_most(alloc, j.holds, &form, &high)?)
}

/// Whether there are as many subscripts as bounds, and each lies between its own.
fn fits_bounds(
    alloc: Global,
    j: &Judging<'_>,
    subscripts: &[Expr],
    bounds: &[Bound],
) -> Result<bool, Memory>
    requires { Fits j.now.holds.now }
    ensures { IfOk result (λ b. b ≡ fits_bounds_is (scope_tree j.now.scope.now.symbols.now j.now.scope.now.tracked.now).scalars j.now.changed.now j.now.written.now j.now.holds.now.rows (expr_trees subscripts.now) (map bound_tree bounds.now)) }
{
    let mut rest = subscripts;
    let mut limits = bounds;
    while let [e, more @ ..] = rest {
        match limits {
            [] => return Ok(false),
            [b, others @ ..] => {
                if !fits_bound(alloc, j, e, b)? {
                    return Ok(false);
                }
                limits = others;
            }
        }
        rest = more;
    }
    Ok(limits.is_empty())
}

/// Whether a reference cannot leave its array.
#[tactic(auto, using(f77_ast::proofs::Plainly::expr_cases))]
pub fn is_safe(alloc: Global, j: &Judging<'_>, e: &Expr) -> Result<bool, Memory>
    requires { Fits j.now.holds.now }
    ensures { IfOk result (λ b. b ≡ is_safe_is (scope_tree j.now.scope.now.symbols.now j.now.scope.now.tracked.now) j.now.changed.now j.now.written.now j.now.holds.now.rows (expr_tree e.now)) }
{
    match e {
        Expr::Element(name, es) => {
            let bounds = bounds_of(j.scope, name);
            Ok(fits_bounds(alloc, j, es.as_slice(), bounds)?)
        }
        Expr::Int(_)
        | Expr::Log(_)
        | Expr::Name(_)
        | Expr::Paren(_)
        | Expr::Unary(..)
        | Expr::Binary(..)
        | Expr::Chars(_) => Ok(false),
    }
}
