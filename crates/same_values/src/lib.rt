//! Whether two values of an analysis are equal, and copies of values.
#![tactic(auto)]

mod copies;
mod decl_forms;
mod decls;
mod exprs;
mod forms;
mod graphs;
mod modules;
mod parts;
mod stmt_forms;
mod stmts;
mod tables;

pub use copies::{copy_graph, copy_places};
pub use exprs::same_exprs;
pub use graphs::{same_graph, same_places};
pub use modules::same_module;
pub use tables::same_symbols;
