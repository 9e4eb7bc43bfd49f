//! Affine forms of INTEGER expressions over tracked cells, and what LOGICAL expressions say of them.
#![tactic(auto)]

mod affine;
mod cells;
mod comparisons;
mod conditions;
mod forms;
mod laws;
mod rows;
mod systems;

pub use affine::Affine;
pub use cells::{cell_of, is_cell};
pub use conditions::{Condition, condition_of};
pub use forms::{affine_of, limit, plus};
pub use laws::{conditions_hold, forms_hold};
pub use rows::{at_most_row, below_row, same_row, var_form};
pub use systems::{false_row, infeasible, no_rows};
