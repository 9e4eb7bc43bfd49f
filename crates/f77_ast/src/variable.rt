//! Variables as analyses name them, and units of blocks.
use fx_lists::Text;

/// A variable as the analyses of a module name it.
#[derive(PartialEq, Eq, Drop)]
pub enum Variable {
    /// A symbol of the module, by its number, from 1.
    Own(u32),
    /// A COMMON block, the blank one with the empty name.
    Block(Text),
    /// A saved local of another module, by the names of the module and of the local.
    Saved(Text, Text),
}

/// A storage unit of a COMMON block, counted from 0.
#[derive(PartialEq, Eq, Drop)]
pub struct Unit {
    pub block: Text,
    pub offset: u64,
}
