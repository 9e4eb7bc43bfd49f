//! Results of a module out of their compact text, with no JSON value in between, and whether they fit the module.
#![tactic(auto)]

mod check;
mod check_names;
mod check_regions;
mod check_rows;
mod check_values;
mod cursor;
mod take;
mod take_marks;
mod take_names;
mod take_rows;
mod take_values;

pub use check::{Check, check_list};
pub use check_values::stored_fits;
pub use cursor::Cursor;
pub use take::{Take, take_list};
pub use take_values::take_stored;
