//! Each result of each module of a program: transformers and preconditions of analysed scalars, then READ, WRITE, IN and OUT regions.
#![tactic(auto)]

mod callees;
mod callees_first;
mod callers;
mod callers_first;
mod found;
mod handing;
mod holds;
mod in_phases;
mod out_phases;
mod out_site;
mod out_walk;
mod program;
mod region_phases;
mod scalar_walk;

pub use callees::Callee;
pub use callees_first::{effects_from, ins_from, regions_from, transformers_from};
pub use callers::{CallerHolds, CallerOuts};
pub use callers_first::{outs_from, preconditions_from};
pub use found::Found;
pub use handing::used_at;
pub use holds::{Analysis, analyses};
pub use in_phases::{ModuleIns, all_ins};
pub use out_phases::{ModuleOuts, all_outs};
pub use out_site::OutSite;
pub use out_walk::{OutCaller, add_list as add_out_list};
pub use region_phases::{ModuleRegions, all_regions};
pub use scalar_walk::{Caller, add_list};
