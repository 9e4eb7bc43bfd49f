//! The database of a session: the present texts, and results that are kept and made again where they are out of date; and what a session answers to a script of commands.
#![tactic(auto)]

mod asked;
mod bring;
mod command;
mod db;
mod fresh;
mod kept;
mod laws;
mod linked;
mod make;
mod print;
mod refusal;
mod refuse;
mod script;
mod show;
mod stamps;
mod stored;
mod texts;
mod walked;

pub use base_values;
pub use call_equations;
pub use command::answer_command;
pub use db::{Db, Shown};
pub use fresh::copy_key;
pub use kept::KeptModule;
pub use laws::{
    answers_are_unique, each_print_is_the_program, small_session_is_answered, texts_stay_modules,
};
pub use laws_database;
pub use linked::{Linked, Links};
pub use print::{Prints, print_all};
pub use refusal::DbRefusal;
pub use result_lines;
pub use result_making;
pub use result_store;
pub use script::answer_script;
pub use session_texts;
pub use session_texts::{pipsmake_meaning, pipsmake_rules, roundtrip_programs};
pub use stored::stored_of;
