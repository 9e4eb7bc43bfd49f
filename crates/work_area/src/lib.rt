//! A work area: a system in reserved memory, and elimination there, which takes no memory.
#![tactic(auto)]

mod columns;
mod combining;
mod facing;
mod filling;
mod forming;
mod marking;
mod normal;
mod noting;
mod order;
mod pairing;
mod pivots;
mod refuting;
mod slot;
mod sorting;
mod substitution;
mod tables;
mod tidying;
mod work;

pub use columns::{note_rows, note_terms};
pub use combining::{factor, occurs, put_combined};
pub use facing::face_all;
pub use filling::{Filled, add, begin, finish};
pub use forming::form_front;
pub use pivots::{cancel_all, find_pivot, take_out, take_pivot_front};
pub use slot::Slot;
pub use sorting::{any_false, arrange_front};
pub use work::{Loaded, Work, eliminate_in, refuted_in, tidy_in};
