//! JSON values by their shapes: what is written as one, and what is read out of one.
#![tactic(auto)]

mod decode;
mod decode_error;
mod distinct;
mod encode;
mod names;
mod plain;
mod put;
mod put_plain;
mod put_rows;
mod reduced;
mod rows;
mod scope;
mod shapes;
mod systems;
mod terms;

pub use decode::{Decode, decode_each, field, list_at, list_field};
pub use decode_error::DecodeError;
pub use distinct::are_distinct;
pub use encode::{Encode, list_value, text_value};
pub use names::{cell_at, is_block, number_at, variable_at};
pub use plain::{flag_at, number_below, offset_at, text_at, whole_at};
pub use put::{Put, put_list};
pub use put_plain::{put_flag, put_number, put_value, put_whole};
pub use put_rows::{Numbers, put_system};
pub use reduced::rows_fit;
pub use scope::Scope;
pub use shapes::{has_members, items_of, member, pair, triple, word};
pub use systems::is_small_system;
pub use terms::terms_ascend;
