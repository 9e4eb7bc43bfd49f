//! Rows over whole numbers: normal form, tidying, and what these keep of the integer points.
#![tactic(auto)]

mod calls;
mod facing;
mod false_rows;
pub mod items;
mod normal;
mod order;
mod pivots;
mod places;
mod row;
mod rows;
mod sorting;
mod systems;
pub mod terms;
mod tidying;

pub use calls::{meet, push_row, rename, substitute, tidy};
pub use normal::normalise;
pub use row::{Elim, Norm, Row, Rows, System, Term, Terms, Var, Vars};
