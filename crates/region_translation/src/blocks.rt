//! Variables of the callee that have units of a block (ANSI X3.9-1978, §8.3).
ghost use Rattle.std.specs.Prelude.{◌≡◌, ◌++◌, ◌&&◌, map, bytes_eq, IfOk, IfSome, OnOk};
ghost use Rattle.f77_ast.specs.Symbols.{symbol_tree};
ghost use Rattle.f77_ast.specs.declared.symbol.Place.TheVariants.{Block as AtBlock};
ghost use Rattle.f77_ast.specs.declared.variable.Variable.TheVariants.{Block as Whole};
ghost use Rattle.affine_forms.specs.Forms.{IsSmallForm};
ghost use Rattle.call_equations.specs.Sides.{sides_tree};
ghost use Rattle.region_translation.specs.Units.{meet, units_of as units_of_is, size_in};
ghost use Rattle.region_translation.specs.Links.{LinkFits, AllLinksFit, is_number as is_number_is, is_like as is_like_is, common_link as common_link_is, in_block, common_links, place_units, all_units as all_units_is, block_rest, block_links, own_common, callee_links};

use crate::links::{CalleeLink, by_row, same_link};
use crate::units::{Units, are_covered, unit_place, units_meet, units_of};
use affine_forms::{Affine, var_form};
use affine_systems::Var;
use call_equations::{CallSides, equation};
use call_graph::{Block, Graph};
use call_translation::next_number;
use effects::first_like;
use f77_ast::{Place, Symbol, Symbols, Variable};
use fx_lists::Text;
use std::alloc::{AllocError as Memory, Global};

/// Units of a block that a variable of the caller has, and the unit of its element.
#[derive(Drop)]
struct Stretch<'a> {
    block: &'a Text,
    units: Units,
    place: Option<Affine>,
}

fn is_number(number: u32, found: Option<u32>) -> bool
    ensures { result ≡ is_number_is number found }
{
    match found {
        None => false,
        Some(other) => number == other,
    }
}

/// Whether a variable of the callee is this one of the caller.
fn is_like(
    sides: &CallSides<'_>,
    v: &Variable,
    block: &Text,
    first: u64,
    symbol: &Symbol,
) -> Result<bool, Memory>
    ensures { IfOk result (λ b. b ≡ is_like_is (sides_tree sides.now) v.now block.now first (symbol_tree symbol.now)) }
{
    match v {
        Variable::Own(number) => {
            let own = sides.caller.symbols;
            let found = first_like(own, block, first, sides.callee.symbols, symbol)?;
            Ok(is_number(*number, found))
        }
        Variable::Block(_) | Variable::Saved(..) => Ok(false),
    }
}

/// A variable of the callee that has some of the units.
fn common_link(
    alloc: Global,
    sides: &CallSides<'_>,
    v: &Variable,
    given: &Stretch<'_>,
    number: u32,
    first: u64,
    symbol: &Symbol,
) -> Result<CalleeLink, Memory>
    requires { IfSome given.now.place IsSmallForm }
    ensures defined { IfOk result (λ l. l ≡ common_link_is (sides_tree sides.now) v.now given.now.place number given.now.block.now first (symbol_tree symbol.now)) }
    ensures fits { IfOk result LinkFits }
{
    if is_like(sides, v, given.block, first, symbol)? {
        return Ok(same_link(alloc, Variable::Own(number)));
    }
    let own = sides.callee.symbols;
    let place = unit_place(alloc, own, false, first, symbol.bounds.as_slice())?;
    let row = equation(alloc, &given.place, &place)?;
    by_row(alloc, Variable::Own(number), row)
}

/// Whether a variable of the callee that lies in a block has some of the units.
fn is_in(
    sides: &CallSides<'_>,
    given: &Stretch<'_>,
    block: &Text,
    first: u64,
    symbol: &Symbol,
) -> Result<bool, Memory>
    ensures { IfOk result (λ b. b ≡ (bytes_eq block.now given.now.block.now && meet (units_of_is (map symbol_tree sides.now.callee.now.symbols.now) first (symbol_tree symbol.now)) given.now.units)) }
{
    if *block == *given.block {
        units_meet(units_of(sides.callee.symbols, first, symbol)?, given.units)
    } else {
        Ok(false)
    }
}

/// Adds a symbol of the callee, where it has some of the units.
#[tactic(auto, using(crate::proofs::CalleeSteps::links))]
fn push_common(
    alloc: Global,
    out: &mut Vec<CalleeLink>,
    sides: &CallSides<'_>,
    v: &Variable,
    given: &Stretch<'_>,
    number: u32,
    symbol: &Symbol,
) -> Result<(), Memory>
    requires out { AllLinksFit out.old.items }
    requires place { IfSome given.now.place IsSmallForm }
    ensures added { OnOk result (out.new.items ≡ out.old.items ++ in_block (sides_tree sides.now) v.now given.now.block.now given.now.units given.now.place number (symbol_tree symbol.now) symbol.now.place) }
    ensures fits { OnOk result (AllLinksFit out.new.items) }
{
    match &symbol.place {
        Place::Block(block, first) => {
            if is_in(sides, given, block, *first, symbol)? {
                out.push(common_link(alloc, sides, v, given, number, *first, symbol)?)?;
            }
            Ok(())
        }
        Place::Local(..) | Place::Dummy(_) | Place::Constant(_) => Ok(()),
    }
}

/// Adds the variables of the callee that have some of the units.
#[tactic(auto, using(crate::proofs::CalleeSteps::links))]
fn push_commons(
    alloc: Global,
    out: &mut Vec<CalleeLink>,
    sides: &CallSides<'_>,
    v: &Variable,
    given: &Stretch<'_>,
) -> Result<(), Memory>
    requires out { AllLinksFit out.old.items }
    requires place { IfSome given.now.place IsSmallForm }
    ensures added { OnOk result (out.new.items ≡ out.old.items ++ common_links (sides_tree sides.now) v.now given.now.block.now given.now.units given.now.place 0 (sides_tree sides.now).callee.symbols) }
    ensures fits { OnOk result (AllLinksFit out.new.items) }
{
    let mut number = 0u32;
    let mut rest = sides.callee.symbols.as_slice();
    while let [symbol, more @ ..] = rest {
        number = next_number(number)?;
        push_common(alloc, out, sides, v, given, number, symbol)?;
        rest = more;
    }
    Ok(())
}

/// Adds the units of a symbol, where it lies in the block.
#[tactic(auto, using(crate::proofs::CalleeSteps::lists))]
fn push_units(
    out: &mut Vec<Units>,
    symbols: &Symbols,
    block: &Text,
    symbol: &Symbol,
) -> Result<(), Memory>
    ensures { OnOk result (out.new.items ≡ out.old.items ++ place_units (map symbol_tree symbols.now) block.now (symbol_tree symbol.now) symbol.now.place) }
{
    match &symbol.place {
        Place::Block(other, first) => {
            if *other == *block {
                out.push(units_of(symbols, *first, symbol)?)?;
            }
            Ok(())
        }
        Place::Local(..) | Place::Dummy(_) | Place::Constant(_) => Ok(()),
    }
}

/// The units of the variables of a block.
#[tactic(auto, using(crate::proofs::CalleeSteps::lists))]
fn all_units(alloc: Global, symbols: &Symbols, block: &Text) -> Result<Vec<Units>, Memory>
    ensures { IfOk result (λ us. us.items ≡ all_units_is (map symbol_tree symbols.now) block.now (map symbol_tree symbols.now)) }
{
    let mut all = Vec::new(alloc);
    let mut rest = symbols.as_slice();
    while let [symbol, more @ ..] = rest {
        push_units(&mut all, symbols, block, symbol)?;
        rest = more;
    }
    Ok(all)
}

/// Adds the block, where no variable of the callee has some of the units.
#[tactic(auto, using(crate::proofs::CalleeSteps::links))]
fn push_rest(
    alloc: Global,
    out: &mut Vec<CalleeLink>,
    sides: &CallSides<'_>,
    given: &Stretch<'_>,
    whole: CalleeLink,
) -> Result<(), Memory>
    requires out { AllLinksFit out.old.items }
    requires whole { LinkFits whole }
    ensures added { OnOk result (out.new.items ≡ out.old.items ++ block_rest (sides_tree sides.now) given.now.block.now given.now.units whole) }
    ensures fits { OnOk result (AllLinksFit out.new.items) }
{
    let taken = all_units(alloc, sides.callee.symbols, given.block)?;
    if are_covered(given.units, taken.as_slice())? {
        return Ok(());
    }
    out.push(whole)?;
    Ok(())
}

/// Adds the variables of the callee that have some of the units, and `whole`, where no one has one of them.
#[tactic(auto, using(crate::proofs::CalleeSteps::links))]
fn push_all(
    alloc: Global,
    out: &mut Vec<CalleeLink>,
    sides: &CallSides<'_>,
    v: &Variable,
    given: &Stretch<'_>,
    whole: CalleeLink,
) -> Result<(), Memory>
    requires out { AllLinksFit out.old.items }
    requires place { IfSome given.now.place IsSmallForm }
    requires whole { LinkFits whole }
    ensures added { OnOk result (out.new.items ≡ out.old.items ++ block_links (sides_tree sides.now) v.now given.now.block.now given.now.units given.now.place whole) }
    ensures fits { OnOk result (AllLinksFit out.new.items) }
{
    push_commons(alloc, out, sides, v, given)?;
    push_rest(alloc, out, sides, given, whole)
}

/// Adds the variables that have units of a variable of a block of the caller, which begins at `first`.
fn push_in_block(
    alloc: Global,
    out: &mut Vec<CalleeLink>,
    sides: &CallSides<'_>,
    v: &Variable,
    symbol: &Symbol,
    block: &Text,
    first: u64,
) -> Result<(), Memory>
    requires { AllLinksFit out.old.items }
    ensures added { OnOk result (out.new.items ≡ out.old.items ++ own_common (sides_tree sides.now) v.now (symbol_tree symbol.now) (AtBlock block.now first)) }
    ensures fits { OnOk result (AllLinksFit out.new.items) }
{
    let symbols = sides.caller.symbols;
    let units = units_of(symbols, first, symbol)?;
    let place = unit_place(alloc, symbols, true, first, symbol.bounds.as_slice())?;
    let unit = Some(var_form(alloc, Var::Phi(1))?);
    let row = equation(alloc, &unit, &place)?;
    let whole = by_row(alloc, Variable::Block(block.clone()?), row)?;
    let given = Stretch {
        block,
        units,
        place,
    };
    push_all(alloc, out, sides, v, &given, whole)
}

/// Adds the variables that have units of a variable of a block of the caller.
#[tactic(auto, using(crate::proofs::CalleeSteps::links))]
pub fn push_own_common(
    alloc: Global,
    out: &mut Vec<CalleeLink>,
    sides: &CallSides<'_>,
    v: &Variable,
    symbol: &Symbol,
) -> Result<(), Memory>
    requires { AllLinksFit out.old.items }
    ensures added { OnOk result (out.new.items ≡ out.old.items ++ own_common (sides_tree sides.now) v.now (symbol_tree symbol.now) symbol.now.place) }
    ensures fits { OnOk result (AllLinksFit out.new.items) }
{
    match &symbol.place {
        Place::Block(block, first) => { push_in_block(alloc, out, sides, v, symbol, block, *first) }
        Place::Local(..) | Place::Dummy(_) | Place::Constant(_) => Ok(()),
    }
}

/// The units of a block among these; 0 where it is none of them. Each is looked at.
fn block_size(blocks: &[Block], name: &Text) -> u64
    ensures { result ≡ size_in blocks.now name.now }
{
    let mut rest = blocks;
    while let [block, more @ ..] = rest {
        if block.name == *name {
            return block.size;
        }
        rest = more;
    }
    0
}

/// Adds the variables that have units of a block.
pub fn push_block(
    alloc: Global,
    out: &mut Vec<CalleeLink>,
    graph: &Graph,
    sides: &CallSides<'_>,
    block: &Text,
) -> Result<(), Memory>
    requires { AllLinksFit out.old.items }
    ensures added { OnOk result (out.new.items ≡ out.old.items ++ callee_links (size_in graph.now.blocks) (sides_tree sides.now) (Whole block.now)) }
    ensures fits { OnOk result (AllLinksFit out.new.items) }
{
    let v = Variable::Block(block.clone()?);
    let whole = same_link(alloc, Variable::Block(block.clone()?));
    let count = block_size(graph.blocks.as_slice(), block);
    let given = Stretch {
        block,
        units: Units { first: 0, count },
        place: Some(var_form(alloc, Var::Aux(1))?),
    };
    push_all(alloc, out, sides, &v, &given, whole)
}
