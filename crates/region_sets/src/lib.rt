//! Regions: which elements of arrays may be read and written, and which of them certainly are.
#![tactic(auto)]

mod any_order;
mod composing;
mod list;
mod live;
mod living;
mod loop_rows;
mod loops;
mod moving;
mod naming;
mod putting;
mod range;
mod region;
mod sets;
mod site;
mod subtracting;
mod text;
mod trimming;
mod uniting;
mod within;

pub use any_order::{all_sets, in_any_order, numbers, push_forgetting, set_at};
pub use composing::compose;
pub use list::{list_regions, push_composed};
pub use live::{none_is_refuted, regions_are_few};
pub use living::trim_after;
pub use loops::over_loop;
pub use moving::push_settled;
pub use naming::{has_none, named_cells};
pub use putting::put_row;
pub use range::Range;
pub use region::{
    Access, Region, RegionList, RegionSet, copy_region, push_copies, push_system, remade, with_flag,
};
pub use sets::{
    push_region, push_regions, same_pieces, trimmed_regions, unite_all, unite_owned, unite_settled,
};
pub use site::SiteOut;
pub use subtracting::{subtract, subtract_known};
pub use text::{put_variable, region_line, region_text};
pub use trimming::{Trimmed, trim, trimmed_to};
pub use uniting::unite;
