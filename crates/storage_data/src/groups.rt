//! Groups of variables, and joins of groups.
ghost use Rattle.std.specs.Prelude.{◌≡◌, ℕ, None, IfSome, IfOk, slice_get, slice_set, nat_eq};
ghost use Rattle.std.specs.HashMap.{get};
ghost use Rattle.storage_data.specs.declared.offset_node.Home.TheVariants.{Own};
ghost use Rattle.storage_data.specs.OffsetNodes.{alone_from, begins_before, joined, joined_at, lowest_from, Yields};

use crate::moves::{begins_before, lows, move_group};
use crate::{Home, OffsetNode};
use std::alloc::{AllocError as Memory, Global};
use std::collections::HashMap;
use std::marker::Model;

/// The offset node of each variable, by its number from 0. A look-up takes constant time, and a join of two groups time linear in the
/// number of all variables.
#[derive(Drop)]
pub struct Groups {
    offset_nodes: Vec<OffsetNode>,
}

impl Model for Groups {
    ghost use Rattle.std.specs.Prelude.{List};
    ghost use Rattle.storage_data.specs.declared.offset_node.OffsetNode.{OffsetNode};

    ghost Value = { List OffsetNode };

    ghost view = { λ g. g.offset_nodes.items };
}

impl Groups {
    /// So many variables, each at offset 0 of a group of its own, which has the number of the variable.
    #[tactic(auto, using(crate::proofs::AloneLaws::alone_next))]
    pub fn singletons(alloc: Global, count: u32) -> Result<Groups, Memory>
        ensures { IfOk result (λ g. g ≡ alone_from 0 count) }
    {
        let mut offset_nodes = Vec::new(alloc);
        for number in 0..count {
            offset_nodes.push(OffsetNode {
                home: Home::Own(number),
                offset: 0,
            })?;
        }
        Ok(Groups { offset_nodes })
    }

    /// The offset nodes of all variables, by their numbers. Takes no memory.
    pub fn as_slice(&self) -> &[OffsetNode]
        ensures { result.now ≡ self.now }
    {
        self.offset_nodes.as_slice()
    }

    /// The offset node of a variable, by its number from 0; None past the last variable.
    pub fn offset_node(&self, variable: usize) -> Option<OffsetNode>
        ensures { result ≡ slice_get self.now variable }
    {
        self.offset_nodes.get(variable).copied()
    }

    /// Gives one variable a new offset node; the others of its group keep theirs. Does nothing past the last variable.
    pub fn put(&mut self, variable: usize, offset_node: OffsetNode)
        ensures { self.new ≡ slice_set self.old variable offset_node }
    {
        if variable < self.offset_nodes.len() {
            self.offset_nodes[variable] = offset_node;
        }
    }

    /// Whether some variable of a group has a negative offset. Linear in the number of all variables.
    pub fn begins_before(&self, home: Home) -> bool
        ensures { result ≡ begins_before self.now home }
    {
        begins_before(self.offset_nodes.as_slice(), home)
    }

    /// The lowest offset in each group that began with a variable, by the number of that variable. A group without variables
    /// has none, and groups of blocks are left out. Linear in the number of all variables.
    pub fn lows(&self, alloc: Global) -> Result<HashMap<u32, i64>, Memory>
        ensures { IfOk result (λ m. (n : ℕ) → get nat_eq m n ≡ lowest_from None (Own n) self.now) }
    {
        lows(alloc, self.offset_nodes.as_slice())
    }

    /// The second group begins at this unit of the first.
    fn join_at(&mut self, a: OffsetNode, b: OffsetNode, shift: i64) -> Option<bool>
        ensures { IfSome result (Yields self.new (joined_at self.old a b shift)) }
    {
        if a.home.is_same(b.home) {
            return Some(shift != 0);
        }
        if !b.home.is_block() {
            return move_group(&mut self.offset_nodes, b.home, a.home, shift).then_some(false);
        }
        if a.home.is_block() {
            return Some(true);
        }
        let back = shift.checked_neg()?;
        move_group(&mut self.offset_nodes, a.home, b.home, back).then_some(false)
    }

    /// Makes unit p of variable m and unit q of variable n one unit, each counted from the first unit of its variable. The
    /// answer is whether this contradicts earlier joins or joins two blocks: then nothing is changed, nor where m or n is no
    /// variable. Of two groups that of a block keeps its offsets, else the group of m does. None where an offset leaves 64
    /// bits: then the groups are of no further use.
    pub fn join(&mut self, m: usize, p: i64, n: usize, q: i64) -> Option<bool>
        ensures { IfSome result (Yields self.new (joined self.old m p n q)) }
    {
        let (a, b) = match (self.offset_node(m), self.offset_node(n)) {
            (Some(a), Some(b)) => (a, b),
            _ => return Some(false),
        };
        let first = a.offset.checked_add(p)?;
        let second = b.offset.checked_add(q)?;
        self.join_at(a, b, first.checked_sub(second)?)
    }
}
