//! Results of a module as JSON, and back.
#![tactic(auto)]

mod at_transformers;
mod effect_lists;
mod laws;
mod marks;
mod names;
mod put;
mod ranges;
mod read;
mod regions;
mod scope;
mod sizes;
mod statements;
mod stored;
mod variables;
mod words;

pub use laws::{
    fits_is_small, fits_is_taken, read_fits, written_is_flat, written_is_read, written_is_whole,
};
pub use names::{Names, Numbers, numbers_in};
pub use put::{put_stored, value_text};
pub use ranges::numbers_fit;
pub use read::stored_at;
pub use regions::{are_apart, are_few};
pub use sizes::is_small_value;
pub use stored::{StoredValue, kind_of};
