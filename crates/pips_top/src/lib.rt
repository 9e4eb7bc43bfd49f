//! All that the program does, over a store and two sinks.
#![tactic(auto)]

mod base;
mod counts;
mod example_laws;
mod job;
mod kept;
mod laws;
mod make;
mod over;
mod program;
mod reading;
mod reduced;
mod reply;
mod results;
mod sample;
mod session;
mod status;
mod top;
mod wanted;
mod written;

pub use example_laws::{
    function_is_analysed_so, function_is_private_so, function_is_read_so,
    references_are_checked_so, sum_is_reduced_so, text_runs_so, wrong_claim_fails,
};
pub use sample::sample_program;
pub use status::Status;
pub use top::run;
