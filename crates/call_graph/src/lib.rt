//! The links of modules: whom they call, in which order they come, and which COMMON blocks they have.
#![tactic(auto)]

mod actuals;
mod blocks;
mod callees;
mod calls;
mod carriers;
mod graph;
mod laws;
mod links;
mod modules;
mod order;
mod recursion;
mod refusal;
mod view;
mod visible;

pub use graph::{Block, Edge, Graph};
pub use laws::{linked_in_order, orders_are_bottom_up, orders_are_whole};
pub use links::link;
pub use modules::MOST_MODULES;
pub use refusal::LinkRefusal;
pub use view::View;
pub use visible::{is_local, is_visible_to_callers};
