//! The written text of trees: expressions, statements, and the lines that carry them.
#![tactic(auto)]

mod added;
mod blocks;
mod decl;
mod expr;
mod form;
mod here;
mod layout;
mod module;
mod page;
mod statement;

pub use added::Added;
pub use decl::write_decl;
pub use expr::{write_chars, write_expr, write_exprs};
pub use layout::write_lines;
pub use module::plain;
pub use statement::write_statement;
