//! The analyses of every accepted program hold in its runs.
#![tactic(auto)]

mod accepted_laws;
mod actual_laws;
mod analysis_laws;
mod call_laws;
mod call_program_laws;
mod evaluation_laws;
mod jump_laws;
mod laws;
mod main_laws;
mod region_program_laws;
mod rule_laws;
mod scalar_laws;
mod statement_laws;

pub use accepted_laws::read_regions_hold;
pub use actual_laws::{actuals_offer, dummies_begin};
pub use analysis_laws::{
    analyses_are_whole, analyses_follow, read_analyses_hold, whole_analyses_hold,
};
pub use call_laws::{analysed_programs_hold, modules_meet_hypotheses};
pub use call_program_laws::program_holds;
pub use evaluation_laws::{shown_stay, targets_lie, values_stay};
pub use jump_laws::jumps_stay_inside;
pub use laws::claims_are_on_units;
pub use main_laws::main_holds;
pub use region_program_laws::program_regions_hold;
pub use rule_laws::{call_rules_hold, entry_rules_hold};
pub use scalar_laws::{
    accepted_data_stays_in_locals, integers_fit, logicals_are_truths, mains_are_alone, names_agree,
    read_mains_hold,
};
pub use statement_laws::{
    assignments_are_shown, logical_ifs_are_shown, prints_are_shown, reads_are_shown,
};
