//! Programs that are read are such as laws on runs ask.
#![tactic(auto)]

mod calls;
mod cells;
mod data_units;
mod effect_laws;
mod laws;
mod layout_laws;
mod owners;
mod scopes;
mod table_laws;

pub use calls::{
    actuals_lend, call_graph_is_acyclic, callee_dummies_avoid_callee_storage, calls_are_listed,
    calls_are_read, calls_fit, common_is_shared, common_names_are_common, dummies_are_tracked,
    dummies_off_locals, expressions_keep_off, own_of_called, places_are_bound,
    reachability_is_transitive, scalars_lie, shared_cells_are_locked, variables_keep_off,
};
pub use cells::{
    cells_are_scalars, cells_begin_with_data, cells_have_places, cells_stand_alone,
    data_lies_in_variables, locals_stay_inside, lost_units_are_local, names_tell_modules,
    own_units_are_no_names, own_units_differ,
};
pub use data_units::data_stays_in_locals;
pub use effect_laws::{all_effects_hold, effects_are_of_runs, summaries_are_made};
pub use laws::{
    all_are_of_programs, effects_are_of_programs, modules_are_read, numbers_go_up,
    numbers_stand_once, programs_are_linked,
};
pub use layout_laws::{
    accepted_layouts_fit, blocks_have_a_chain, columns_come_first, common_follows_the_text,
    data_fills_in_order, ends_are_bounded, equivalenced_items_share, first_element_is_first,
    layouts_are_refused_where_none_fits, others_begin_undefined, sharing_has_a_chain,
};
pub use owners::{
    below_is_owned, called_owns_below, called_owns_no_expression, expressions_are_below,
    owned_is_in_no_block, owned_is_private, variables_are_hidden, variables_lie,
};
pub use roundtrip_programs;
pub use scopes::{
    cells_are_found, cells_have_flags, common_scalars_are_tracked_together,
    data_initialises_scalars, flags_tell_cells, found_is_cell,
};
pub use storage_data;
pub use table_laws::{
    bodies_are_shaped, constants_are_scalars, dummies_come_first, dummies_stand_alone,
};
