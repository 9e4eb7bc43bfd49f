//! What statements and modules do to tracked cells, through calls.
#![tactic(auto)]

mod jumps;
mod lists;
mod loops;
mod modules;
mod simple;
mod statement;
mod whiles;

pub use call_translation;
pub use call_translation::transformer_algebra;
pub use jumps::{Sought, any_has, early_return, is_end, is_unstructured, returns_early, stmt_has};
pub use lists::{copy_transformer, each_at, list_at, list_transformer, transformer_at, value_at};
pub use loops::loop_parts;
pub use modules::transformers;
pub use whiles::{While, while_in, while_iteration};
