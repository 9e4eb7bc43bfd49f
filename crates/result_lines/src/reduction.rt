//! Loops that run in parallel with reduction variables.
use fx_lists::List;

/// How the iterations of a loop accumulate in a reduction variable.
#[derive(Clone, Copy, Debug, PartialEq, Eq)]
pub enum ReduceOp {
    Sum,
    Max,
    Min,
    And,
    Or,
}

/// A reduction variable: the number of its symbol, and its operator.
#[derive(Clone, Copy, Debug, PartialEq, Eq)]
pub struct Part {
    pub cell: u32,
    pub op: ReduceOp,
}

/// What the directive of a loop with reduction variables says: the symbols of which iterations have copies, and the reduction variables, each
/// in the order of their numbers.
#[derive(Debug, PartialEq, Eq, Drop)]
pub struct Reduction {
    pub private: List<u32>,
    pub parts: List<Part>,
}
