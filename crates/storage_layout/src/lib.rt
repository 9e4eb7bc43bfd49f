//! The table of symbols of a module, or its first refusal.
#![tactic(auto)]

mod answer;
mod blocks;
mod equivalences;
mod laws;
mod layout;
mod numbering;
mod refusal;
mod table;

pub use answer::{place, symbols};
pub use laws::{equivalences_coincide, members_lie_in_a_row};
pub use refusal::LayoutRefusal;
