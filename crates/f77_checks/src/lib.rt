//! The types and shapes of expressions and statements, the values of PARAMETER names, and the dimensions of arrays.
#![tactic(auto)]

mod dimensions;
mod expressions;
mod parameters;
mod sizes;
mod sort;
mod statements;
mod targets;

pub use dimensions::{check_shapes, dimensions_of};
pub use expressions::{check_element, check_expr, check_subscripts};
pub use parameters::{decl_line, parameters_valued};
pub use sizes::{Dimensions, Size};
pub use sort::{Sort, sort_of};
pub use statements::check_list;
