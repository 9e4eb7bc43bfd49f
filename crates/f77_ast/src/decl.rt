//! Specification statements (ANSI X3.9-1978 §8, and §9 for DATA).
use crate::Expr;
use fx_lists::{List, Text};

/// The type of a variable or a PARAMETER: INTEGER or LOGICAL (ANSI X3.9-1978 §4).
#[derive(Clone, Copy, Debug, PartialEq, Eq)]
pub enum Scalar {
    Int,
    Log,
}

/// A specification statement, one variant for each form. All lists are in the order of the text.
#[derive(PartialEq, Eq, Drop)]
pub enum Decl {
    /// The parts of IMPLICIT (§8.5); None is IMPLICIT NONE.
    Implicit(Option<List<ImplicitPart>>),
    /// INTEGER with its names (§8.4).
    Integer(List<Entity>),
    /// LOGICAL with its names (§8.4).
    Logical(List<Entity>),
    /// DIMENSION with its arrays (§8.1).
    Dimension(List<Entity>),
    /// The names of PARAMETER with their values (§8.6).
    Parameter(List<Setting>),
    /// The blocks of COMMON with their members (§8.3). One block may be there several times.
    Common(List<CommonPart>),
    /// The groups of EQUIVALENCE, each a list of names and array elements (§8.2).
    Equivalence(List<List<Expr>>),
    /// The items of SAVE (§8.9), none for a SAVE alone.
    Save(List<SaveItem>),
    /// The groups of DATA (§9).
    Data(List<DataGroup>),
}

/// A type and the ranges of first letters that it is for.
#[derive(PartialEq, Eq, Drop)]
pub struct ImplicitPart {
    pub scalar: Scalar,
    pub ranges: List<Letters>,
}

/// A range of letters from `first` to `last`, both included, as ASCII codes of capitals. For one letter alone both are equal.
#[derive(Clone, Copy, PartialEq, Eq)]
pub struct Letters {
    pub first: u8,
    pub last: u8,
}

/// A name with the bounds that the statement gives it, the first dimension first. There are no bounds for a scalar, or where
/// another statement has them.
#[derive(PartialEq, Eq, Drop)]
pub struct Entity {
    pub name: Text,
    pub bounds: List<Extent>,
}

/// A dimension declarator as it is written (§5.1.1): without `low` the lower bound is 1, without `high` the upper one is `*`.
#[derive(PartialEq, Eq, Drop)]
pub struct Extent {
    pub low: Option<Expr>,
    pub high: Option<Expr>,
}

/// A name of PARAMETER and the expression of its value (§8.6).
#[derive(PartialEq, Eq, Drop)]
pub struct Setting {
    pub name: Text,
    pub value: Expr,
}

/// A block of a COMMON statement by its name, empty for the blank one, and the members that the statement gives it,
/// in the order of their units (§8.3).
#[derive(PartialEq, Eq, Drop)]
pub struct CommonPart {
    pub block: Text,
    pub members: List<Entity>,
}

/// An item of SAVE (§8.9).
#[derive(PartialEq, Eq, Drop)]
pub enum SaveItem {
    /// A variable or an array.
    Name(Text),
    /// A COMMON block, by its name without slashes.
    Block(Text),
}

/// Names and array elements of a DATA statement, and the values between the slashes after them, each in the order of the text.
#[derive(PartialEq, Eq, Drop)]
pub struct DataGroup {
    pub targets: List<Expr>,
    pub values: List<DataValue>,
}

/// A value of DATA, and the repeat count before it; None where none is written, which counts as 1.
#[derive(PartialEq, Eq, Drop)]
pub struct DataValue {
    pub repeat: Option<u32>,
    pub value: Expr,
}
