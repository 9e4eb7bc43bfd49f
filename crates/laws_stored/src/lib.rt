//! Each result of a program fits the module that it belongs to, and so its written value is read again.
#![tactic(auto)]

mod laws;

pub use laws::{
    defined_results_are_read_again, defined_results_fit, short_texts_are_counted, tables_have_names,
};
