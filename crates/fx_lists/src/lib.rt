//! Lists and texts that contracts see as the lists of what they hold.
#![tactic(auto)]

mod code;
mod list;
mod refusal;
mod text;

pub use code::Code;
pub use list::List;
pub use refusal::{Refusal, earliest, refuse_if};
pub use text::Text;
