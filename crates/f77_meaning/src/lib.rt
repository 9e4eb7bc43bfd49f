//! What the modules of a program mean together: a run of a program that was read.
#![tactic(auto)]

mod laws;

pub use laws::{
    actuals_suit, areas_are_known, cells_are_alone, common_cells_are_alone, common_cells_are_cells,
    common_is_of_blocks, linked_calls_fit, linked_have_blocks, modules_are_known, names_meet,
    offsets_fit, others_begin_unset, own_units_apart, own_units_begin_unset, shared_by_table,
    straight_runs_agree, temporaries_are_recognisable, units_differ,
    variables_occupy_their_storage,
};
