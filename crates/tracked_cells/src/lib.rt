//! Which variables are tracked cells: INTEGER scalars whose unit only they reach.
#![tactic(auto)]

mod cells;
mod equivalences;
mod laws;
mod names;
mod scalars;
mod standing;
mod untrackable;
mod untracked;

pub use cells::{is_untracked, tracked_flags};
pub use laws::tracked_units_are_plain;
pub use names::Names;
pub use standing::{has_bounds, is_int_scalar, reaches};
pub use untracked::untracked_of;
