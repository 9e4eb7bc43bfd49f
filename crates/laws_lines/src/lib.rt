//! What is written of the analyses of tracked cells is read as what they found.
#![tactic(auto)]

mod in_laws;
mod laws;
mod mark_laws;
mod out_laws;
mod region_laws;
mod region_text_laws;

pub use in_laws::{all_in_lines_pass, in_lines_mean_regions, ins_are_over_places};
pub use laws::{
    analyses_are_over_cells, analyses_are_read_back, names_are_distinct, names_are_words,
};
pub use mark_laws::{
    claims_read_back, directives_read_back, loop_lines_are_passed_over, marks_read_back,
    obstacles_are_no_directives, reading_is_unique, reductions_read_back, texts_are_written_again,
};
pub use out_laws::{all_out_lines_pass, out_lines_mean_regions, outs_are_over_places};
pub use region_laws::{
    all_region_lines_pass, indexes_are_symbols, region_lines_mean_regions, regions_are_over_places,
    regions_are_readable,
};
pub use region_text_laws::{
    added_lines_read_back, fitting_regions_are_ordered, one_system_lines_read_back,
    region_lines_are_passed_over, region_lines_read_back,
};
