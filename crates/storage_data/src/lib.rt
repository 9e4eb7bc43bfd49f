//! The units of names and items, and the initial values that DATA gives them.
#![tactic(auto)]

mod deals;
mod group_laws;
mod groups;
mod initials;
mod items;
mod laws;
mod moves;
mod numbers;
mod offset_node;
mod positions;
mod runs;
mod stretches;
mod targets;
mod units;
mod values;

pub use deals::Piece;
pub use group_laws::{
    blocks_stay, blocks_take_groups, coincident_units_stay, joined_units_coincide,
    joins_keep_compact, lowest_is_least, lowest_is_reached,
};
pub use groups::Groups;
pub use initials::Filled;
pub use items::{check_items, item_name, item_position};
pub use laws::{first_element_has_number_zero, next_element_has_next_number};
pub use numbers::{as_count, as_number, as_offset, sum};
pub use offset_node::{Home, OffsetNode};
pub use runs::initial_of;
pub use stretches::Stretch;
pub use units::units_of;
