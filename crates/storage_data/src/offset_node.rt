//! The offset node of a variable: its group, and its offset there.
ghost use Rattle.std.specs.Prelude.{◌≡◌};
ghost use Rattle.storage_data.specs.OffsetNodes.{is_block, same_home};

/// The name of a group.
#[derive(Clone, Copy, PartialEq, Eq)]
pub enum Home {
    /// The group of a block, by the number of the block, from 0.
    Block(u32),
    /// A group without a block, by the number of the variable that it began with, from 0.
    Own(u32),
}

/// A group, and the offset of the first unit of the variable from unit 0 of the group, in units; it may be negative.
#[derive(Clone, Copy, PartialEq, Eq)]
pub struct OffsetNode {
    pub home: Home,
    pub offset: i64,
}

impl Home {
    /// Whether this is the group of a block.
    pub fn is_block(self) -> bool
        ensures { result ≡ is_block self }
    {
        match self {
            Home::Block(_) => true,
            Home::Own(_) => false,
        }
    }

    /// Whether both are one group: equal numbers, and both of blocks or neither.
    pub fn is_same(self, other: Home) -> bool
        ensures { result ≡ same_home self other }
    {
        match (self, other) {
            (Home::Block(a), Home::Block(b)) => a == b,
            (Home::Own(m), Home::Own(n)) => m == n,
            (Home::Block(_), Home::Own(_)) | (Home::Own(_), Home::Block(_)) => false,
        }
    }
}
