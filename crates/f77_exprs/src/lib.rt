//! The grammar of expressions: the tree at the front of a stripped statement.
#![tactic(auto)]

mod at;
mod build;
mod constants;
mod expr;
mod laws;
mod names;
mod numbers;
mod operators;
mod parse_error;

pub use at::{Cursor, Notes, before};
pub use build::unary;
pub use constants::{constant, constant_at};
pub use expr::{expression, variable};
pub use laws::{depth_is_enough, grammar_has_no_depth};
pub use names::name_at;
pub use numbers::{digit_first, label_at, literal, number, number_first, skip_digits};
pub use parse_error::{ParseError, Reading};
