//! The comment lines that say the results of a module.
#![tactic(auto)]

mod claim_lines;
mod directive;
mod lines;
mod loop_marks;
mod obstacle;
mod reduction;
mod reduction_marks;
mod set_lines;
mod show;
mod shown;
mod spots;
mod statement;

pub use claim_lines::scalar_lines;
pub use lines::{PrintedResults, reduced_lines, result_lines};
pub use loop_marks::mark_lines;
pub use reduction::{Part, ReduceOp, Reduction};
pub use reduction_marks::loop_lines;
pub use set_lines::region_lines;
pub use show::Show;
pub use spots::{LineSpot, line_spots};
