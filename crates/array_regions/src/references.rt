//! The regions of scalars and elements that are named.
ghost use Rattle.std.specs.Prelude.{◌≡◌, ◌++◌, map, IfOk, OnOk, option_copied, option_map};
ghost use Rattle.affine_systems.specs.Given.{Fits};
ghost use Rattle.f77_ast.specs.Plain.{expr_tree, expr_trees};
ghost use Rattle.f77_ast.specs.Symbols.{bound_tree, symbol_tree};
ghost use Rattle.f77_ast.specs.Shared.{symbol_at};
ghost use Rattle.transformers.specs.call_translation.Scopes.{scope_tree};
ghost use Rattle.region_translation.specs.region_sets.Regions.{RegionFits};
ghost use Rattle.region_translation.specs.region_sets.Sets.{SetFits};
ghost use Rattle.array_regions.specs.References.{is_constant as is_constant_is, scalar as scalar_is, scalar_at, whole, elements as elements_is, array_at, element_at, element, named};

use affine_forms::no_rows;
use affine_systems::System;
use f77_ast::{Bound, Expr, Place, Symbols, Variable};
use fx_lists::{List, Text};
use region_translation::call_equations::{all_affine, rows_of};
use region_translation::region_sets::{Access, Region, RegionSet, push_region};
use std::alloc::{AllocError as Memory, Global};
use tracked_cells::has_bounds;
use transformers::call_translation::CellScope;
use transformers::transformer_algebra::of_rows;

/// Whether a name stands for a constant.
fn is_constant(place: &Place) -> bool
    ensures { result ≡ is_constant_is place.now }
{
    match place {
        Place::Constant(_) => true,
        Place::Local(..) | Place::Dummy(_) | Place::Block(..) => false,
    }
}

/// A region of one system.
fn one_piece(
    alloc: Global,
    access: Access,
    number: u32,
    exact: bool,
    system: System,
) -> Result<Region, Memory>
    requires { Fits system }
    ensures defined { IfOk result (λ r. r ≡ elements_is access number exact system) }
    ensures fits { IfOk result RegionFits }
{
    let weak = system.weak;
    let mut pieces = List::new(alloc);
    pieces.push(system)?;
    Ok(Region {
        variable: Variable::Own(number),
        kind: access,
        exact: exact && !weak,
        pieces,
    })
}

/// The exact region of a scalar variable, the symbol with a number, from 1, without a condition.
pub fn scalar(alloc: Global, access: Access, number: u32) -> Result<Region, Memory>
    ensures defined { IfOk result (λ r. r ≡ scalar_is access number) }
    ensures fits { IfOk result RegionFits }
{
    one_piece(alloc, access, number, true, no_rows(alloc))
}

/// Adds all of the variable of a number; nothing of a constant.
#[tactic(auto, using(crate::proofs::NameLaws::scalars_at))]
fn push_scalar_at(
    alloc: Global,
    out: &mut RegionSet,
    symbols: &Symbols,
    access: Access,
    number: u32,
) -> Result<(), Memory>
    requires { SetFits out.old }
    ensures added { OnOk result (out.new ≡ out.old ++ scalar_at access number (symbol_at (map symbol_tree symbols.now) number)) }
    ensures fits { OnOk result (SetFits out.new) }
{
    match symbols.symbol(number) {
        None => Ok(()),
        Some(symbol) => {
            if is_constant(&symbol.place) {
                return Ok(());
            }
            push_region(out, scalar(alloc, access, number)?)?;
            Ok(())
        }
    }
}

/// Adds all of the variable of a name; nothing of a constant.
#[tactic(auto, using(crate::proofs::Fitting::fitting))]
fn push_whole(
    alloc: Global,
    out: &mut RegionSet,
    scope: &CellScope<'_>,
    access: Access,
    name: &Text,
) -> Result<(), Memory>
    requires { SetFits out.old }
    ensures added { OnOk result (out.new ≡ out.old ++ whole (scope_tree scope.now.symbols.now scope.now.tracked.now) access name.now) }
    ensures fits { OnOk result (SetFits out.new) }
{
    match scope.symbols.number(name) {
        None => Ok(()),
        Some(number) => push_scalar_at(alloc, out, scope.symbols, access, number),
    }
}

/// The elements with these subscripts. Memory also behind 254 dimensions.
fn elements(
    alloc: Global,
    scope: &CellScope<'_>,
    access: Access,
    number: u32,
    es: &List<Expr>,
    bounds: &List<Bound>,
) -> Result<Region, Memory>
    ensures defined { IfOk result (λ r. r ≡ array_at (scope_tree scope.now.symbols.now scope.now.tracked.now) access number (expr_trees es.now) (map bound_tree bounds.now)) }
    ensures fits { IfOk result RegionFits }
{
    let exact = all_affine(alloc, scope, es, bounds)?;
    let system = of_rows(alloc, rows_of(alloc, scope, es, bounds)?)?;
    one_piece(alloc, access, number, exact, system)
}

/// Adds the element of an array by its number; nothing where it is none.
#[tactic(auto, using(crate::proofs::NameLaws::elements_at))]
fn push_element_at(
    alloc: Global,
    out: &mut RegionSet,
    scope: &CellScope<'_>,
    access: Access,
    number: u32,
    es: &List<Expr>,
) -> Result<(), Memory>
    requires { SetFits out.old }
    ensures added { OnOk result (out.new ≡ out.old ++ element_at (scope_tree scope.now.symbols.now scope.now.tracked.now) access number (expr_trees es.now) (symbol_at (map symbol_tree scope.now.symbols.now) number)) }
    ensures fits { OnOk result (SetFits out.new) }
{
    match scope.symbols.symbol(number) {
        None => Ok(()),
        Some(symbol) => {
            if !has_bounds(symbol) {
                return Ok(());
            }
            let r = elements(alloc, scope, access, number, es, &symbol.bounds)?;
            push_region(out, r)?;
            Ok(())
        }
    }
}

/// Appends the region of an element of the array with a name; nothing where the name is of no array, as that of an intrinsic function. It is
/// exact where all subscripts are affine and no row is lost. Err also where the array has more than 254 dimensions.
#[tactic(auto, using(crate::proofs::Fitting::fitting))]
pub fn push_element(
    alloc: Global,
    out: &mut RegionSet,
    scope: &CellScope<'_>,
    access: Access,
    name: &Text,
    es: &List<Expr>,
) -> Result<(), Memory>
    requires { SetFits out.old }
    ensures added { OnOk result (out.new ≡ out.old ++ element (scope_tree scope.now.symbols.now scope.now.tracked.now) access name.now (expr_trees es.now)) }
    ensures fits { OnOk result (SetFits out.new) }
{
    match scope.symbols.number(name) {
        None => Ok(()),
        Some(number) => push_element_at(alloc, out, scope, access, number, es),
    }
}

/// Appends the region of what an expression names: a variable, by its name alone, or an element of an array. Nothing for a constant and other
/// expressions.
#[tactic(auto, using(f77_ast::proofs::Plainly::expr_appends))]
pub fn push_named(
    alloc: Global,
    out: &mut RegionSet,
    scope: &CellScope<'_>,
    access: Access,
    e: &Expr,
) -> Result<(), Memory>
    requires { SetFits out.old }
    ensures added { OnOk result (out.new ≡ out.old ++ named (expr_tree e.now) (scope_tree scope.now.symbols.now scope.now.tracked.now) access) }
    ensures fits { OnOk result (SetFits out.new) }
{
    match e {
        Expr::Name(name) => push_whole(alloc, out, scope, access, name),
        Expr::Element(name, es) => push_element(alloc, out, scope, access, name, es),
        Expr::Int(_)
        | Expr::Log(_)
        | Expr::Paren(_)
        | Expr::Unary(..)
        | Expr::Binary(..)
        | Expr::Chars(_) => Ok(()),
    }
}
