//! The equations for each kind of variable of the callee.
ghost use Rattle.std.specs.Prelude.{◌≡◌, true, map, length, IfOk, IfSome};
ghost use Rattle.affine_systems.specs.Given.{IsGiven};
ghost use Rattle.affine_systems.specs.Rows.{AllRows};
ghost use Rattle.f77_ast.specs.Plain.{expr_tree, expr_trees};
ghost use Rattle.f77_ast.specs.Trees as tree;
ghost use Rattle.f77_ast.specs.Symbols.{bound_tree, symbol_tree};
ghost use Rattle.f77_ast.specs.Shared.{symbol_at};
ghost use Rattle.f77_ast.specs.declared.variable.Variable.TheVariants.{Own};
ghost use Rattle.call_translation.specs.Actuals.{actual_of as actual_of_is};
ghost use Rattle.call_equations.specs.Sides.{sides_tree};
ghost use Rattle.call_equations.specs.Links.{LinkFits, link as link_is, same_elements as same_elements_is, scalar_link as scalar_link_is, element_link as element_link_is, by_position as by_position_is, whole_by_position as whole_by_position_is, array_link as array_link_is, bounds_unless_lines as bounds_unless_lines_is, actual_bounds as actual_bounds_is, rest_link as rest_link_is, variable_link as variable_link_is, subscripts_link as subscripts_link_is, is_constant as is_constant_is, variable_of as variable_of_is, variable_at as variable_at_is, element_of as element_of_is, element_at as element_at_is, expr_link as expr_link_is, actual_link as actual_link_is, by_unit as by_unit_is, block_link as block_link_is, common_link as common_link_is, if_saved as if_saved_is, place_link as place_link_is, link_of as link_of_is};

use crate::CallSides;
use crate::forms::equation;
use crate::link::Link;
use crate::positions::{
    aligned_rows, block_position, dummy_position, element_position, whole_position,
};
use crate::rows::{all_affine, bounds_rows, rows_of};
use affine_systems::Row;
use call_translation::actual_of;
use effects::first_like;
use f77_ast::{Bound, Expr, Place, Symbol, Variable, copy_variable};
use fx_lists::{List, Text};
use std::alloc::{AllocError as Memory, Global};
use tracked_cells::has_bounds;

/// The same elements with the same subscripts.
fn same_elements(alloc: Global, variable: Variable) -> Link
    ensures defined { result ≡ same_elements_is variable }
    ensures fits { LinkFits result }
{
    Link {
        variable,
        rank: 0,
        moved: false,
        rows: List::new(alloc),
        exact: true,
    }
}

fn moved(number: u32, rank: u32, rows: Vec<Row>, exact: bool) -> Link
    requires { AllRows IsGiven rows.items }
    ensures defined { result ≡ link_is (Own number) rank true rows.items exact }
    ensures fits { LinkFits result }
{
    Link {
        variable: Variable::Own(number),
        rank,
        moved: true,
        rows: List::from_vec(rows),
        exact,
    }
}

/// The number of dimensions.
pub fn rank_of(bounds: &[Bound]) -> Result<u32, Memory>
    ensures { IfOk result (λ n. n ≡ length (map bound_tree bounds.now)) }
{
    u32::try_from(bounds.len()).map_err(|_| Memory)
}

/// The element with these subscripts, for a scalar.
fn element_link(
    alloc: Global,
    sides: &CallSides<'_>,
    number: u32,
    es: &List<Expr>,
    bounds: &List<Bound>,
) -> Result<Link, Memory>
    ensures defined { IfOk result (λ l. l ≡ element_link_is (sides_tree sides.now) number (expr_trees es.now) (map bound_tree bounds.now)) }
    ensures fits { IfOk result LinkFits }
{
    let exact = all_affine(alloc, sides.caller, es, bounds)?;
    let rows = rows_of(alloc, sides.caller, es, bounds)?;
    Ok(moved(number, 0, rows, exact))
}

/// Equal places and these rows; within the constant bounds where the places have no forms.
#[tactic(auto, using(crate::proofs::Steps::row_lists))]
fn by_position(
    alloc: Global,
    number: u32,
    rank: u32,
    row: Option<Row>,
    mut more: Vec<Row>,
    bounds: Vec<Row>,
) -> Result<Link, Memory>
    requires row { IfSome row IsGiven }
    requires more { AllRows IsGiven more.items }
    requires bounds { AllRows IsGiven bounds.items }
    ensures defined { IfOk result (λ l. l ≡ by_position_is number rank row more.items bounds.items) }
    ensures fits { IfOk result LinkFits }
{
    match row {
        None => Ok(moved(number, rank, bounds, false)),
        Some(row) => {
            let mut rows = Vec::new(alloc);
            rows.push(row)?;
            rows.append(&mut more)?;
            Ok(moved(number, rank, rows, true))
        }
    }
}

fn actual_bounds(alloc: Global, sides: &CallSides<'_>, actual: &[Bound]) -> Result<Vec<Row>, Memory>
    ensures defined { IfOk result (λ rs. rs.items ≡ actual_bounds_is (sides_tree sides.now) (map bound_tree actual.now)) }
    ensures fits { IfOk result (λ rs. AllRows IsGiven rs.items) }
{
    bounds_rows(alloc, sides.caller.symbols, actual)
}

/// A whole array, by the places of its elements.
fn whole_by_position(
    alloc: Global,
    sides: &CallSides<'_>,
    number: u32,
    actual: &[Bound],
    dummy: &[Bound],
) -> Result<Link, Memory>
    ensures defined { IfOk result (λ l. l ≡ whole_by_position_is (sides_tree sides.now) number (map bound_tree actual.now) (map bound_tree dummy.now)) }
    ensures fits { IfOk result LinkFits }
{
    let rank = rank_of(dummy)?;
    let one = whole_position(alloc, sides, 1, actual)?;
    let other = dummy_position(alloc, sides, rank, 1, dummy)?;
    let row = equation(alloc, &one, &other)?;
    let more = actual_bounds(alloc, sides, actual)?;
    let bounds = actual_bounds(alloc, sides, actual)?;
    by_position(alloc, number, rank, row, more, bounds)
}

/// An array whose actual is a whole array: dimension by dimension, or by the places of elements.
fn array_link(
    alloc: Global,
    sides: &CallSides<'_>,
    number: u32,
    actual: &[Bound],
    dummy: &[Bound],
) -> Result<Link, Memory>
    ensures defined { IfOk result (λ l. l ≡ array_link_is (sides_tree sides.now) number (map bound_tree actual.now) (map bound_tree dummy.now)) }
    ensures fits { IfOk result LinkFits }
{
    let rank = rank_of(dummy)?;
    match aligned_rows(alloc, sides, rank, 1, actual, dummy)? {
        None => whole_by_position(alloc, sides, number, actual, dummy),
        Some(rows) => Ok(moved(number, rank, rows.into_vec(), true)),
    }
}

/// The constant bounds of an array, unless that and the dummy have one dimension.
fn bounds_unless_lines(
    alloc: Global,
    sides: &CallSides<'_>,
    actual: &[Bound],
    dummy: &[Bound],
) -> Result<Vec<Row>, Memory>
    ensures defined { IfOk result (λ rs. rs.items ≡ bounds_unless_lines_is (actual_bounds_is (sides_tree sides.now) (map bound_tree actual.now)) (map bound_tree actual.now) (map bound_tree dummy.now)) }
    ensures fits { IfOk result (λ rs. AllRows IsGiven rs.items) }
{
    match actual {
        [] => actual_bounds(alloc, sides, actual),
        [_] => match dummy {
            [] => actual_bounds(alloc, sides, actual),
            [_] => Ok(Vec::new(alloc)),
            [_, _, ..] => actual_bounds(alloc, sides, actual),
        },
        [_, _, ..] => actual_bounds(alloc, sides, actual),
    }
}

/// An array whose actual is an element, where it begins.
fn rest_link(
    alloc: Global,
    sides: &CallSides<'_>,
    number: u32,
    es: &List<Expr>,
    actual: &[Bound],
    dummy: &[Bound],
) -> Result<Link, Memory>
    ensures defined { IfOk result (λ l. l ≡ rest_link_is (sides_tree sides.now) number (expr_trees es.now) (map bound_tree actual.now) (map bound_tree dummy.now)) }
    ensures fits { IfOk result LinkFits }
{
    let rank = rank_of(dummy)?;
    let one = element_position(alloc, sides, 1, es.as_slice(), actual)?;
    let other = dummy_position(alloc, sides, rank, 1, dummy)?;
    let row = equation(alloc, &one, &other)?;
    let more = bounds_unless_lines(alloc, sides, actual, dummy)?;
    let bounds = actual_bounds(alloc, sides, actual)?;
    by_position(alloc, number, rank, row, more, bounds)
}

/// A dummy whose actual is the variable of a number.
fn variable_link(
    alloc: Global,
    sides: &CallSides<'_>,
    number: u32,
    actual: &[Bound],
    dummy: &[Bound],
) -> Result<Link, Memory>
    ensures defined { IfOk result (λ l. l ≡ variable_link_is (sides_tree sides.now) number (map bound_tree actual.now) (map bound_tree dummy.now)) }
    ensures fits { IfOk result LinkFits }
{
    match dummy {
        [] => Ok(moved(number, 0, Vec::new(alloc), true)),
        [_, ..] => array_link(alloc, sides, number, actual, dummy),
    }
}

/// A dummy whose actual is an element of the array of a number.
fn subscripts_link(
    alloc: Global,
    sides: &CallSides<'_>,
    number: u32,
    es: &List<Expr>,
    actual: &List<Bound>,
    dummy: &[Bound],
) -> Result<Link, Memory>
    ensures defined { IfOk result (λ l. l ≡ subscripts_link_is (sides_tree sides.now) number (expr_trees es.now) (map bound_tree actual.now) (map bound_tree dummy.now)) }
    ensures fits { IfOk result LinkFits }
{
    match dummy {
        [] => element_link(alloc, sides, number, es, actual),
        [_, ..] => rest_link(alloc, sides, number, es, actual.as_slice(), dummy),
    }
}

/// Whether a name stands for a constant.
fn is_constant(place: &Place) -> bool
    ensures { result ≡ is_constant_is place.now }
{
    match place {
        Place::Constant(_) => true,
        Place::Local(..) | Place::Dummy(_) | Place::Block(..) => false,
    }
}

fn variable_at(
    alloc: Global,
    sides: &CallSides<'_>,
    dummy: &[Bound],
    number: u32,
) -> Result<Option<Link>, Memory>
    ensures defined { IfOk result (λ o. o ≡ variable_at_is (sides_tree sides.now) (map bound_tree dummy.now) number (symbol_at (map symbol_tree sides.now.caller.now.symbols.now) number)) }
    ensures fits { IfOk result (λ o. IfSome o LinkFits) }
{
    match sides.caller.symbols.symbol(number) {
        None => Ok(None),
        Some(symbol) => {
            if is_constant(&symbol.place) {
                return Ok(None);
            }
            let l = variable_link(alloc, sides, number, symbol.bounds.as_slice(), dummy)?;
            Ok(Some(l))
        }
    }
}

fn element_at(
    alloc: Global,
    sides: &CallSides<'_>,
    dummy: &[Bound],
    es: &List<Expr>,
    number: u32,
) -> Result<Option<Link>, Memory>
    ensures defined { IfOk result (λ o. o ≡ element_at_is (sides_tree sides.now) (map bound_tree dummy.now) (expr_trees es.now) number (symbol_at (map symbol_tree sides.now.caller.now.symbols.now) number)) }
    ensures fits { IfOk result (λ o. IfSome o LinkFits) }
{
    match sides.caller.symbols.symbol(number) {
        None => Ok(None),
        Some(symbol) => {
            if !has_bounds(symbol) {
                return Ok(None);
            }
            let l = subscripts_link(alloc, sides, number, es, &symbol.bounds, dummy)?;
            Ok(Some(l))
        }
    }
}

fn name_link(
    alloc: Global,
    sides: &CallSides<'_>,
    dummy: &[Bound],
    name: &Text,
) -> Result<Option<Link>, Memory>
    ensures defined { IfOk result (λ o. o ≡ expr_link_is (sides_tree sides.now) (map bound_tree dummy.now) (tree.name name.now)) }
    ensures fits { IfOk result (λ o. IfSome o LinkFits) }
{
    match sides.caller.symbols.number(name) {
        None => Ok(None),
        Some(number) => variable_at(alloc, sides, dummy, number),
    }
}

fn subscripted_link(
    alloc: Global,
    sides: &CallSides<'_>,
    dummy: &[Bound],
    name: &Text,
    es: &List<Expr>,
) -> Result<Option<Link>, Memory>
    ensures defined { IfOk result (λ o. o ≡ expr_link_is (sides_tree sides.now) (map bound_tree dummy.now) (tree.element name.now (expr_trees es.now))) }
    ensures fits { IfOk result (λ o. IfSome o LinkFits) }
{
    match sides.caller.symbols.number(name) {
        None => Ok(None),
        Some(number) => element_at(alloc, sides, dummy, es, number),
    }
}

/// A dummy with these bounds and this actual; None where that is an expression, which has a unit of its own.
#[tactic(auto, using(f77_ast::proofs::Plainly::expr_cases))]
fn expr_link(
    alloc: Global,
    sides: &CallSides<'_>,
    dummy: &[Bound],
    e: &Expr,
) -> Result<Option<Link>, Memory>
    ensures defined { IfOk result (λ o. o ≡ expr_link_is (sides_tree sides.now) (map bound_tree dummy.now) (expr_tree e.now)) }
    ensures fits { IfOk result (λ o. IfSome o LinkFits) }
{
    match e {
        Expr::Name(name) => name_link(alloc, sides, dummy, name),
        Expr::Element(name, es) => subscripted_link(alloc, sides, dummy, name, es),
        Expr::Int(_)
        | Expr::Log(_)
        | Expr::Paren(_)
        | Expr::Unary(..)
        | Expr::Binary(..)
        | Expr::Chars(_) => Ok(None),
    }
}

fn dummy_link(
    alloc: Global,
    sides: &CallSides<'_>,
    dummy: &[Bound],
    number: u32,
) -> Result<Option<Link>, Memory>
    ensures defined { IfOk result (λ o. o ≡ actual_link_is (sides_tree sides.now) (map bound_tree dummy.now) (actual_of_is (expr_trees sides.now.actuals.now) number)) }
    ensures fits { IfOk result (λ o. IfSome o LinkFits) }
{
    match actual_of(sides.actuals, number) {
        None => Ok(None),
        Some(actual) => expr_link(alloc, sides, dummy, actual),
    }
}

/// The units of a block at which a variable lies.
fn block_link(
    alloc: Global,
    sides: &CallSides<'_>,
    block: &Text,
    offset: u64,
    bounds: &[Bound],
) -> Result<Link, Memory>
    ensures defined { IfOk result (λ l. l ≡ block_link_is (sides_tree sides.now) block.now offset (map bound_tree bounds.now)) }
    ensures fits { IfOk result LinkFits }
{
    let rank = rank_of(bounds)?;
    let one = block_position(alloc, offset)?;
    let other = dummy_position(alloc, sides, rank, 1, bounds)?;
    let mut rows = List::new(alloc);
    let mut exact = false;
    if let Some(row) = equation(alloc, &one, &other)? {
        rows.push(row)?;
        exact = true;
    }
    Ok(Link {
        variable: Variable::Block(block.clone()?),
        rank,
        moved: true,
        rows,
        exact,
    })
}

/// The first variable of the caller like a variable of a block, or the block.
fn common_link(
    alloc: Global,
    sides: &CallSides<'_>,
    block: &Text,
    offset: u64,
    symbol: &Symbol,
) -> Result<Link, Memory>
    ensures defined { IfOk result (λ l. l ≡ common_link_is (sides_tree sides.now) block.now offset (symbol_tree symbol.now)) }
    ensures fits { IfOk result LinkFits }
{
    match first_like(
        sides.caller.symbols,
        block,
        offset,
        sides.callee.symbols,
        symbol,
    )? {
        None => block_link(alloc, sides, block, offset, symbol.bounds.as_slice()),
        Some(number) => Ok(same_elements(alloc, Variable::Own(number))),
    }
}

/// A local, where it is saved.
fn if_saved(alloc: Global, sides: &CallSides<'_>, symbol: &Symbol) -> Result<Option<Link>, Memory>
    ensures defined { IfOk result (λ o. o ≡ if_saved_is (sides_tree sides.now) (symbol_tree symbol.now)) }
    ensures fits { IfOk result (λ o. IfSome o LinkFits) }
{
    if symbol.saved {
        let variable = Variable::Saved(sides.name.clone()?, symbol.name.clone()?);
        Ok(Some(same_elements(alloc, variable)))
    } else {
        Ok(None)
    }
}

fn symbol_link(
    alloc: Global,
    sides: &CallSides<'_>,
    symbol: &Symbol,
) -> Result<Option<Link>, Memory>
    ensures defined { IfOk result (λ o. o ≡ place_link_is (sides_tree sides.now) (symbol_tree symbol.now) symbol.now.place) }
    ensures fits { IfOk result (λ o. IfSome o LinkFits) }
{
    match &symbol.place {
        Place::Local(..) => if_saved(alloc, sides, symbol),
        Place::Dummy(number) => dummy_link(alloc, sides, symbol.bounds.as_slice(), *number),
        Place::Block(block, offset) => {
            let l = common_link(alloc, sides, block, *offset, symbol)?;
            Ok(Some(l))
        }
        Place::Constant(_) => Ok(None),
    }
}

/// The equations for a variable of the callee; None of an expression's unit, and of a local that is not saved.
pub fn link_of(alloc: Global, sides: &CallSides<'_>, v: &Variable) -> Result<Option<Link>, Memory>
    ensures defined { IfOk result (λ o. o ≡ link_of_is (sides_tree sides.now) v.now) }
    ensures fits { IfOk result (λ o. IfSome o LinkFits) }
{
    match v {
        Variable::Own(number) => match sides.callee.symbols.symbol(*number) {
            None => Ok(None),
            Some(symbol) => symbol_link(alloc, sides, symbol),
        },
        Variable::Block(_) | Variable::Saved(..) => Ok(Some(same_elements(
            alloc,
            copy_variable(v)?,
        ))),
    }
}
