//! Projection, refutation, entailment, cleaning, hull, difference and closure of systems of rows.
#![tactic(auto)]

mod cleaning;
mod closing;
mod difference;
mod eliminations;
mod entailment;
mod fresh;
mod hulls;
mod iterations;
mod lifting;
mod parts;
mod points;
mod projection;
mod refutation;
mod variables;

pub use cleaning::clean;
pub use closing::closure;
pub use difference::{apart, minus};
pub use entailment::entails;
pub use hulls::hull;
pub use parts::Minus;
pub use projection::{Shadow, project, project_owned};
pub use refutation::refuted;
pub use variables::{add_rows, add_var};
