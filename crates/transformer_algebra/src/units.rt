//! Lists of units of blocks.
ghost use Rattle.std.specs.Prelude.{◌≡◌, IfOk, OnOk};
ghost use Rattle.transformer_algebra.specs.Units.{unit_cmp, with_unit as with_unit_is, with_units as with_units_is, joined_units as joined_units_is};

use f77_ast::Unit;
use fx_lists::List;
use std::alloc::{AllocError as Memory, Global};
use std::cmp::Ordering;

/// By the names of the blocks, byte by byte, then by offset.
fn order(one: &Unit, other: &Unit) -> Ordering
    ensures { result ≡ unit_cmp one.now other.now }
{
    one.block
        .as_slice()
        .cmp(other.block.as_slice())
        .then(one.offset.cmp(&other.offset))
}

/// A copy of a unit, with the name of its block.
pub fn copy_unit(unit: &Unit) -> Result<Unit, Memory>
    ensures { IfOk result (λ u. u ≡ unit.now) }
{
    Ok(Unit {
        block: unit.block.clone()?,
        offset: unit.offset,
    })
}

/// Copies of units, in order.
pub fn copy_units(alloc: Global, units: &[Unit]) -> Result<List<Unit>, Memory>
    ensures { IfOk result (λ us. us ≡ units.now) }
{
    let mut out = Vec::new(alloc);
    for unit in units {
        out.push(copy_unit(unit)?)?;
    }
    Ok(List::from_vec(out))
}

#[tactic(auto, using(crate::proofs::ArmSteps::unit_loop))]
/// Puts a unit into ordered ones, unless it is there.
fn add_unit(out: &mut Vec<Unit>, unit: &Unit) -> Result<(), Memory>
    ensures { OnOk result (out.new.items ≡ with_unit_is unit.now out.old.items) }
{
    for i in 0..out.len() {
        match order(unit, &out[i]) {
            Ordering::Less => {
                out.insert(i, copy_unit(unit)?)?;
                return Ok(());
            }
            Ordering::Equal => return Ok(()),
            Ordering::Greater => {}
        }
    }
    out.push(copy_unit(unit)?)?;
    Ok(())
}

#[tactic(auto, using(crate::proofs::ArmSteps::units_loop))]
fn add_units(out: &mut Vec<Unit>, units: &[Unit]) -> Result<(), Memory>
    ensures { OnOk result (out.new.items ≡ with_units_is out.old.items units.now) }
{
    for unit in units {
        add_unit(out, unit)?;
    }
    Ok(())
}

/// The units of both lists, by the names of the blocks, byte by byte, and then by offset, each once. Each is looked up
/// in the result: quadratic in their number.
pub fn joined_units(alloc: Global, one: &[Unit], other: &[Unit]) -> Result<List<Unit>, Memory>
    ensures { IfOk result (λ us. us ≡ joined_units_is one.now other.now) }
{
    let mut out = Vec::new(alloc);
    add_units(&mut out, one)?;
    add_units(&mut out, other)?;
    Ok(List::from_vec(out))
}
