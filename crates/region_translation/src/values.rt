//! What the scalar dummies are where the callee begins (ANSI X3.9-1978, §15.9.3).
ghost use Rattle.std.specs.Prelude.{◌≡◌, ◌++◌, map, option_to_list, IfOk, IfSome, OnOk};
ghost use Rattle.affine_systems.specs.Given.{IsGiven};
ghost use Rattle.affine_systems.specs.Rows.{AllRows};
ghost use Rattle.f77_ast.specs.Symbols.{symbol_tree};
ghost use Rattle.f77_ast.specs.Shared.{symbol_at};
ghost use Rattle.affine_forms.specs.Forms.{IsSmallForm};
ghost use Rattle.call_equations.specs.Sides.{sides_tree};
ghost use Rattle.region_translation.specs.Values.{with_cells as with_cells_is, dummy_row as dummy_row_is, symbol_row as symbol_row_is, value_rows as value_rows_is, is_dummy_place as is_dummy_place_is, is_scalar_dummy as is_scalar_dummy_is, goes_away as goes_away_is, going_away as going_away_is};

use affine_forms::{Affine, var_form};
use affine_systems::{Row, Var};
use call_equations::{CallSides, actual_form, equation, named_form};
use call_translation::next_number;
use f77_ast::{Place, Symbol, Symbols};
use fx_lists::List;
use std::alloc::{AllocError as Memory, Global};
use tracked_cells::is_int_scalar;

/// A form that names a cell, or none.
fn with_cells(f: Option<Affine>) -> Option<Affine>
    requires { IfSome f IsSmallForm }
    ensures defined { result ≡ with_cells_is f }
    ensures small { IfSome result IsSmallForm }
{
    match f {
        None => None,
        Some(f) => { if f.terms.is_empty() { None } else { Some(f) } }
    }
}

/// That a scalar dummy has the value of its actual, whose cells have the names behind those of `rank` subscripts.
fn dummy_row(
    alloc: Global,
    sides: &CallSides<'_>,
    rank: u32,
    number: u32,
    dummy: u32,
) -> Result<Option<Row>, Memory>
    ensures defined { IfOk result (λ o. o ≡ dummy_row_is (sides_tree sides.now) rank number dummy) }
    ensures fits { IfOk result (λ o. IfSome o IsGiven) }
{
    let form = with_cells(actual_form(alloc, sides, dummy)?);
    let named = named_form(alloc, rank, &form)?;
    let own = Some(var_form(alloc, Var::Cell(number))?);
    equation(alloc, &own, &named)
}

fn symbol_row(
    alloc: Global,
    sides: &CallSides<'_>,
    rank: u32,
    number: u32,
    symbol: &Symbol,
) -> Result<Option<Row>, Memory>
    ensures defined { IfOk result (λ o. o ≡ symbol_row_is (sides_tree sides.now) rank number (symbol_tree symbol.now)) }
    ensures fits { IfOk result (λ o. IfSome o IsGiven) }
{
    if !is_int_scalar(symbol) {
        return Ok(None);
    }
    match symbol.place {
        Place::Dummy(dummy) => dummy_row(alloc, sides, rank, number, dummy),
        Place::Local(..) | Place::Block(..) | Place::Constant(_) => Ok(None),
    }
}

/// Adds what a symbol is.
#[tactic(auto, using(crate::proofs::CalleeSteps::rows))]
fn push_symbol(
    alloc: Global,
    out: &mut Vec<Row>,
    sides: &CallSides<'_>,
    rank: u32,
    number: u32,
    symbol: &Symbol,
) -> Result<(), Memory>
    requires { AllRows IsGiven out.old.items }
    ensures added { OnOk result (out.new.items ≡ out.old.items ++ option_to_list (symbol_row_is (sides_tree sides.now) rank number (symbol_tree symbol.now))) }
    ensures fits { OnOk result (AllRows IsGiven out.new.items) }
{
    match symbol_row(alloc, sides, rank, number, symbol)? {
        None => Ok(()),
        Some(row) => {
            out.push(row)?;
            Ok(())
        }
    }
}

/// What the scalar dummies are, one row for each whose actual has a form with a cell.
#[tactic(auto, using(crate::proofs::CalleeSteps::rows))]
pub fn value_rows(alloc: Global, sides: &CallSides<'_>, rank: u32) -> Result<Vec<Row>, Memory>
    ensures defined { IfOk result (λ rs. rs.items ≡ value_rows_is (sides_tree sides.now) rank) }
    ensures fits { IfOk result (λ rs. AllRows IsGiven rs.items) }
{
    let mut out = Vec::new(alloc);
    let mut number = 0u32;
    let mut rest = sides.callee.symbols.as_slice();
    while let [symbol, more @ ..] = rest {
        number = next_number(number)?;
        push_symbol(alloc, &mut out, sides, rank, number, symbol)?;
        rest = more;
    }
    Ok(out)
}

fn is_dummy_place(place: &Place) -> bool
    ensures { result ≡ is_dummy_place_is place.now }
{
    match place {
        Place::Dummy(_) => true,
        Place::Local(..) | Place::Block(..) | Place::Constant(_) => false,
    }
}

fn is_scalar_dummy(symbols: &Symbols, cell: u32) -> bool
    ensures { result ≡ is_scalar_dummy_is (symbol_at (map symbol_tree symbols.now) cell) }
{
    match symbols.symbol(cell) {
        None => false,
        Some(symbol) => is_int_scalar(symbol) && is_dummy_place(&symbol.place),
    }
}

fn goes_away(sides: &CallSides<'_>, v: Var) -> bool
    ensures { result ≡ goes_away_is (sides_tree sides.now) v }
{
    match v {
        Var::Cell(cell) => !is_scalar_dummy(sides.callee.symbols, cell),
        Var::Exit(_) | Var::Phi(_) => false,
        Var::Aux(_) => true,
    }
}

/// Those that are neither subscripts nor scalar dummies of the callee.
#[tactic(auto, using(crate::proofs::CalleeSteps::lists))]
pub fn going_away(alloc: Global, sides: &CallSides<'_>, vars: &[Var]) -> Result<List<Var>, Memory>
    ensures { IfOk result (λ vs. vs ≡ going_away_is (sides_tree sides.now) vars.now) }
{
    let mut out = List::new(alloc);
    let mut rest = vars;
    while let [v, more @ ..] = rest {
        if goes_away(sides, *v) {
            out.push(*v)?;
        }
        rest = more;
    }
    Ok(out)
}
