//! Groups that move, and the lowest offsets in groups.
ghost use Rattle.std.specs.Prelude.{◌≡◌, ℕ, IfSome, IfOk, OnOk, None, nat_eq};
ghost use Rattle.std.specs.Bool.{OnTrue};
ghost use Rattle.std.specs.HashMap.{get};
ghost use Rattle.storage_data.specs.declared.offset_node.Home.TheVariants.{Own};
ghost use Rattle.storage_data.specs.OffsetNodes.{all_moved, begins_before, lowest_from, lower, move_offset_node, with_low};

use crate::{Home, OffsetNode};
use std::alloc::{AllocError as Memory, Global};
use std::collections::HashMap;

/// A variable whose group goes to another one, its offset higher by the shift; None where that leaves 64 bits.
fn move_offset_node(offset_node: OffsetNode, from: Home, to: Home, shift: i64) -> Option<OffsetNode>
    ensures { IfSome result (λ s. s ≡ move_offset_node from to shift offset_node) }
{
    if !offset_node.home.is_same(from) {
        return Some(offset_node);
    }
    Some(OffsetNode {
        home: to,
        offset: offset_node.offset.checked_add(shift)?,
    })
}

/// Moves all variables of a group to another one, with offsets higher by the shift, and returns whether these stay in 64 bits.
/// Where they do not, only some variables are moved. Linear in the number of all variables.
pub fn move_group(offset_nodes: &mut [OffsetNode], from: Home, to: Home, shift: i64) -> bool
    ensures { OnTrue result (offset_nodes.new ≡ all_moved from to shift offset_nodes.old) }
{
    for at in 0..offset_nodes.len() {
        match move_offset_node(offset_nodes[at], from, to, shift) {
            None => return false,
            Some(offset_node) => offset_nodes[at] = offset_node,
        }
    }
    true
}

/// Whether some variable of a group has a negative offset. Linear in the number of all variables.
pub fn begins_before(offset_nodes: &[OffsetNode], home: Home) -> bool
    ensures { result ≡ begins_before offset_nodes.now home }
{
    for offset_node in offset_nodes {
        if offset_node.home.is_same(home) && offset_node.offset < 0 {
            return true;
        }
    }
    false
}

fn lower(low: Option<i64>, offset: i64) -> i64
    ensures { result ≡ lower low offset }
{
    match low {
        None => offset,
        Some(low) => low.min(offset),
    }
}

fn note_low(lows: &mut HashMap<u32, i64>, offset_node: OffsetNode) -> Result<(), Memory>
    ensures { OnOk result
        ((n : ℕ) → get nat_eq lows.new n ≡ with_low (Own n) (get nat_eq lows.old n) offset_node) }
{
    if let Home::Own(number) = offset_node.home {
        let low = lower(lows.get(&number).copied(), offset_node.offset);
        lows.insert(number, low).map_err(|_| Memory)?;
    }
    Ok(())
}

/// The lowest offset in each group that began with a variable, by the number of that variable. A group without variables has
/// none, and groups of blocks are left out.
pub fn lows(alloc: Global, offset_nodes: &[OffsetNode]) -> Result<HashMap<u32, i64>, Memory>
    ensures { IfOk result (λ m. (n : ℕ) → get nat_eq m n ≡ lowest_from None (Own n) offset_nodes.now) }
{
    let mut lows = HashMap::new(alloc);
    for offset_node in offset_nodes {
        note_low(&mut lows, *offset_node)?;
    }
    Ok(lows)
}
