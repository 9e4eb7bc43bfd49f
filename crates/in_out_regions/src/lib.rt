//! IN regions: which elements a piece of code reads before it writes them.
#![tactic(auto)]

mod calls;
mod context;
mod earlier;
mod kinds;
mod lists;
mod loop_rows;
mod loops;
mod modules;
mod simple;
mod statement;
mod writes;

pub use array_regions;
pub use array_regions::{
    call_equations, call_translation, effects, region_sets, region_translation,
    transformer_algebra, transformers,
};
pub use earlier::is_one_step;
pub use kinds::is_write;
pub use lists::{before_rest, list_in, push_unwritten};
pub use loop_rows::{beyond_row, stays, within_row};
pub use modules::in_regions;
