//! The units that some module makes not analysable.
ghost use Rattle.std.specs.Prelude.{◌≡◌, ◌++◌, map, IfOk};
ghost use Rattle.f77_ast.specs.Symbols.{symbol_tree};
ghost use Rattle.tracked_cells.specs.Scalars.{key_unit, keyed};
ghost use Rattle.tracked_cells.specs.Untracked.{some_untracks, begin_of, untrackable, one_untrackable};

use crate::names::Names;
use crate::scalars::UnitKey;
use crate::standing::untracks;
use f77_ast::{Place, Symbols, Unit};
use fx_lists::{List, Text};
use std::alloc::{AllocError as Memory, Global};

/// Whether some module, of those with these names in their EQUIVALENCEs and these tables, untracks the unit at which a place
/// begins.
fn some_untracks(names: &List<Names>, tables: &List<Symbols>, at: &Place) -> bool
    ensures { result ≡ some_untracks names.now (map (map symbol_tree) tables.now) at.now }
{
    let mut rest = names.as_slice();
    let mut others = tables.as_slice();
    while let [own, more @ ..] = rest {
        match others {
            [] => return false,
            [table, later @ ..] => {
                if untracks(own, table, at) {
                    return true;
                }
                others = later;
            }
        }
        rest = more;
    }
    false
}

fn place_of(alloc: Global, key: &UnitKey) -> Result<Place, Memory>
    ensures { IfOk result (λ at. at ≡ begin_of (key_unit key.now)) }
{
    let (block, offset) = key;
    Ok(Place::Block(Text::from_bytes(alloc, block.as_slice())?, *offset))
}

fn unit_of(alloc: Global, key: &UnitKey) -> Result<Unit, Memory>
    ensures { IfOk result (λ unit. unit ≡ key_unit key.now) }
{
    let (block, offset) = key;
    Ok(Unit {
        block: Text::from_bytes(alloc, block.as_slice())?,
        offset: *offset,
    })
}

/// Adds a unit that some module untracks.
fn add_untrackable(
    found: &mut List<Unit>,
    alloc: Global,
    names: &List<Names>,
    tables: &List<Symbols>,
    key: &UnitKey,
) -> Result<(), Memory>
    ensures { IfOk result (λ _. found.new ≡ found.old ++ one_untrackable names.now (map (map symbol_tree) tables.now) (key_unit key.now)) }
{
    let at = place_of(alloc, key)?;
    if some_untracks(names, tables, &at) {
        found.push(unit_of(alloc, key)?)
    } else {
        Ok(())
    }
}

/// The units among these, in the same order, that `untracks` says of some module, where the lists have for each module the names
/// in its EQUIVALENCE statements and its symbols. Takes time of the number of units times that of all symbols.
pub fn untrackable(
    alloc: Global,
    names: &List<Names>,
    tables: &List<Symbols>,
    keys: &[UnitKey],
) -> Result<List<Unit>, Memory>
    ensures { IfOk result (λ units. units ≡ untrackable names.now (map (map symbol_tree) tables.now) (keyed keys.now)) }
{
    let mut found = List::new(alloc);
    let mut rest = keys;
    while let [key, more @ ..] = rest {
        add_untrackable(&mut found, alloc, names, tables, key)?;
        rest = more;
    }
    Ok(found)
}
