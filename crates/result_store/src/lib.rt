//! The values that were seen of the results of a program, and what is kept of them.
#![tactic(auto)]

mod copies;
mod forms;
mod item;
mod memo_cell;
mod results;
mod row;
mod same;
mod stamps;
mod store;
mod typed;
mod value;

pub use copies::Copied;
pub use item::{Item, Kept, Stamped};
pub use memo_cell::MemoCell;
pub use results::{
    same_effects, same_marks, same_preconditions, same_region_sets, same_transformers,
};
pub use row::Row;
pub use same::same_value;
pub use store::Store;
pub use value::Value;
