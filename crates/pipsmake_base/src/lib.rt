//! Kept bases: a database that goes on from stored results, which of these are not what is defined, and what is saved of a database.
#![tactic(auto)]

mod keep;
mod laws;
mod loading;
mod made;
mod modules;
mod need;
mod plain;
mod results;
mod saving;
mod see;
mod source;
mod staleness;
mod stored;

pub use base_text;
pub use laws::{
    answers_stay_current, bases_are_modules, making_stays_current, sessions_begin_current,
};
pub use laws_stored;
pub use loading::load;
pub use loop_marker;
pub use loop_marker::{module_phases, out_regions, privatizer};
pub use pipsmake_db;
pub use pipsmake_db::{
    base_values, laws_database, pipsmake_meaning, pipsmake_rules, result_lines, session_texts,
};
pub use saving::save;
pub use staleness::first_stale;
