//! The trees of a program, and the meaning of its runs.
#![tactic(auto)]

mod arithmetic;
mod const_value;
mod constant;
mod copy;
mod decl;
mod effect_set;
mod expr;
mod marks;
mod module;
mod name_index;
mod names;
mod operators;
mod ordering;
mod overlap;
mod places;
mod results;
mod shape;
mod stmt;
mod storages;
mod summaries;
mod symbol;
mod symbols;
mod units;
mod variable;
mod variables;

pub use const_value::{const_value_of, gives_logical, joins_logical, turns_logical};
pub use constant::{Constant, ConstantValue, Constants};
pub use copy::{copy_expr, copy_exprs};
pub use decl::{
    CommonPart, DataGroup, DataValue, Decl, Entity, Extent, ImplicitPart, Letters, SaveItem,
    Scalar, Setting,
};
pub use effect_set::{EffectSet, copy_effect, unite};
pub use expr::{BinaryOp, Expr, UnaryOp};
pub use marks::{Kinds, Mark, Private, Reason};
pub use module::{FunctionForm, Module};
pub use name_index::NameIndex;
pub use names::names_of;
pub use ordering::{order, same_variable};
pub use overlap::{overlaps, sharing_is_of_units};
pub use places::{Parsed, Part, Places, Spot};
pub use results::{At, Results};
pub use shape::{Shape, is_return, shape_of};
pub use stmt::{Arm, Loop, Stmt, StmtId, What};
pub use storages::{sizes_are_reached, units_are_apart, units_lie_within};
pub use summaries::{Summaries, Summary, copy_symbols};
pub use symbol::{Bound, InitialRun, Place, Symbol};
pub use symbols::{Symbols, unit_of};
pub use units::{has_more, units_of};
pub use variable::{Unit, Variable};
pub use variables::{copy_variable, union};
