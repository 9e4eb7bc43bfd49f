//! The results of an analysis.
use crate::StmtId;
use fx_lists::List;

/// What an analysis says of one statement, by the number of the statement in its module, from 1.
#[derive(Debug, PartialEq, Eq, Drop)]
pub struct At<T> {
    pub id: StmtId,
    pub value: T,
}

/// What an analysis says of each executable statement of a module, in the order of the text, and of the module as its callers
/// see it.
#[derive(PartialEq, Eq, Drop)]
pub struct Results<T> {
    pub at: List<At<T>>,
    pub summary: T,
}
