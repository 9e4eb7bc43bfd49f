//! How rows and systems are written.
#![tactic(auto)]

mod laws;
mod text;

pub use laws::{
    fitting_systems_are_ordered, precondition_lines_read_back, rows_compare_sides,
    systems_read_back, transformer_lines_read_back,
};
pub use text::{precondition_line, system_text, transformer_line};
