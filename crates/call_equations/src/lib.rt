//! The equations between the subscripts and cells of a called module and those of the module that calls it.
#![tactic(auto)]

mod cells;
mod equations;
mod forms;
mod link;
mod positions;
mod rows;
mod sides;

pub use cells::{actual_form, cell_name, form_of, named_form};
pub use equations::{link_of, rank_of};
pub use forms::{equation, number, offset, sum_of, unless_among, zero};
pub use link::Link;
pub use positions::{before_dimensions, size_of};
pub use rows::{all_affine, constant_form, next_dimension, rows_of};
pub use sides::{CallSides, changed_cells, entry_cells};
