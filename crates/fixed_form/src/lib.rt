//! Fixed form: the statements and comments of a text, or the first line that breaks the form.
#![tactic(auto)]

mod cards;
mod cut;
mod fault;
mod label;
mod line;
mod progress;
mod read;
mod source;
mod strip;
mod text_lines;

pub use line::{Line, Lines, ReadRefusal};
pub use read::statements;
pub use source::{Piece, pieces};
pub use text_lines::{first_line, without_returns};
