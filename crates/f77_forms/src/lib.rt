//! Which form of statement a stripped statement has.
#![tactic(auto)]

mod choice;
mod form;
mod longest;
mod outline;
mod refused;
mod words;

pub use choice::{form_of, profile_form, refused_keyword};
pub use form::{Form, FormId, TABLE, profile};
pub use refused::{REFUSED, Refused};
