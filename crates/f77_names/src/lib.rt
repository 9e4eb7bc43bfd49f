//! The names of a module: what its statements say of them, and their types.
#![tactic(auto)]

mod appear;
mod declare;
mod entry;
mod functions;
mod kinds;
mod lines;
mod names;
mod reference;
mod table;

pub use entry::{Entry, Shape, Word};
pub use functions::Function;
pub use kinds::{Kind, Kinds};
pub use lines::{LineTable, Sited};
pub use names::Names;
pub use table::{NameTable, table_of};
