//! From the statements of a text to its modules.
#![tactic(auto)]

mod building;
mod elaboration;
mod ends;
mod functions;
mod hidden;
mod known;
mod names;
mod numbers;
mod plain;
mod progress;
mod read;
mod references;
mod refusal;
mod role;
mod standing;
mod statement;

pub use f77_forms::{Form, FormId, TABLE, form_of};
pub use read::{ModuleTrees, parse};
pub use refusal::ParseRefusal;
