//! Transformers: what statements do to the tracked cells, one after the other, in a choice, and in a loop.
#![tactic(auto)]

mod adding;
mod applying;
mod arms;
mod cells;
mod fresh;
mod halves;
mod iterations;
mod laws;
mod loop_conditions;
mod loop_iterations;
mod loop_parts;
mod loop_rows;
mod naming;
mod pushing;
mod renaming;
mod renaming_laws;
mod sequence;
mod transformer;
mod units;

pub use applying::{apply, without};
pub use arms::{complete, one_of};
pub use cells::{has, joined_cells, others};
pub use fresh::fresh_over;
pub use iterations::iterate;
pub use laws::{loop_rules_hold, rules_hold};
pub use loop_conditions::{after_loop, at_iteration, before_iterations};
pub use loop_iterations::{iteration, loop_transformer, some_iterations, zero_iterations};
pub use loop_parts::{LoopParts, next, start};
pub use loop_rows::{beyond_last, guard, inside, unguard};
pub use naming::{Naming, replacement};
pub use pushing::{of_rows, push_rows};
pub use renaming::{rename_all, renamed_row};
pub use renaming_laws::renaming_keeps_points;
pub use sequence::then;
pub use transformer::{Transformer, assign, forgotten, identity_transformer, nowhere, test};
pub use units::joined_units;
