//! What is said of loops.
use crate::Variable;
use fx_lists::List;

/// The kinds of dependence of a later iteration on an earlier one, at a storage unit.
#[derive(Clone, Copy, PartialEq, Eq)]
pub enum Kinds {
    /// Flow dependence: the earlier one writes the unit, the later one reads it.
    WriteRead,
    /// Anti-dependence: the earlier one reads the unit, the later one writes it.
    ReadWrite,
    /// Output dependence: both write the unit.
    WriteWrite,
}

/// Whether each iteration may have its own copy of a variable; if not, the first reason, in the order of the variants.
#[derive(Clone, Copy, PartialEq, Eq)]
pub enum Private {
    Yes,
    /// Its name does not allow it.
    Name,
    /// A later iteration reads what an earlier one wrote.
    Carried,
    /// What is written is read after the loop.
    Live,
}

/// Why a loop is serial.
#[derive(PartialEq, Eq, Drop)]
pub enum Reason {
    /// Control may leave its body.
    Jump,
    /// It reads input or prints.
    InputOutput,
    /// Its step is no constant.
    Step,
    /// Its DO variable is needed afterwards, or is not its own.
    Index,
    /// Iterations depend on each other through a variable: the kinds of dependence, and whether each may have its own copy of it.
    Carries(Variable, List<Kinds>, Private),
}

/// Whether the iterations of a loop may be executed at the same time.
#[derive(PartialEq, Eq, Drop)]
pub enum Mark {
    /// They may, each with its own copies of the variables with these numbers, from 1.
    Parallel(List<u32>),
    /// They may not, for this reason.
    Serial(Reason),
}
