//! The graph of a program.
use f77_ast::{StmtId, Unit};
use fx_lists::{List, Text};

/// A CALL: the name of the calling module, the number of the statement there, from 1, and the name of the called module.
#[derive(PartialEq, Eq, Drop)]
pub struct Edge {
    pub caller: Text,
    pub at: StmtId,
    pub callee: Text,
}

/// A COMMON block with the largest size that a module gives it, in units.
#[derive(PartialEq, Eq, Drop)]
pub struct Block {
    pub name: Text,
    pub size: u64,
}

/// The names of the modules, each after those that it calls; the CALLs in the order of the callers in the text, then of the
/// statements; the blocks in the order of their names; and, by block and offset, the units at which some module has an INTEGER
/// scalar and which are not tracked.
#[derive(PartialEq, Eq, Drop)]
pub struct Graph {
    pub order: List<Text>,
    pub edges: List<Edge>,
    pub blocks: List<Block>,
    pub untracked: List<Unit>,
}
