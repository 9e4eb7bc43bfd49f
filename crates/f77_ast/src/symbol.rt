//! What is known of a declared name.
use crate::{Expr, Scalar};
use fx_lists::{List, Text};

/// A dimension; without `high` its upper bound is `*`.
#[derive(Debug, PartialEq, Eq, Drop)]
pub struct Bound {
    pub low: Expr,
    pub high: Option<Expr>,
}

/// The storage location of a name.
#[derive(PartialEq, Eq, Drop)]
pub enum Place {
    /// A storage group, numbered from 1 in the order of the first symbols of the groups, and the offset in units from its
    /// first unit, from 0.
    Local(u32, u64),
    /// The number of a dummy argument, from 1.
    Dummy(u32),
    /// A COMMON block, the blank one with the empty name, and the offset in units from its first unit, from 0.
    Block(Text, u64),
    /// The value of a PARAMETER; of a LOGICAL one 1 is true and 0 is false.
    Constant(i64),
}

/// `count` units of a variable that DATA gives one value (ANSI X3.9-1978 §9), from the unit `offset` of the variable on, from 0.
/// Of a LOGICAL value 1 is true and 0 is false.
#[derive(Clone, Copy, PartialEq, Eq)]
pub struct InitialRun {
    pub offset: u64,
    pub count: u64,
    pub value: i64,
}

/// A name with its type, its bounds, the first dimension first and none for a scalar, and its place.
#[derive(PartialEq, Eq, Drop)]
pub struct Symbol {
    pub name: Text,
    pub scalar: Scalar,
    pub bounds: List<Bound>,
    pub place: Place,
    /// Whether it is a local of a storage group that has a variable in SAVE or DATA.
    pub saved: bool,
    /// By ascending offsets, each run as long as the value stays the same.
    pub initial: List<InitialRun>,
}
