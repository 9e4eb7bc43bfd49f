//! Elimination of a variable from rows: by an equal row, or by pairs of lower and upper rows; and lone variables of rows that tidying leaves as they are.
#![tactic(auto)]

mod calls;
mod closed;
mod elimination;
mod lone;
mod pairing;

pub use calls::eliminate;
pub use elimination::eliminate_item;
pub use lone::without_lone;
