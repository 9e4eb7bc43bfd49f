//! Lines of the statements of a module, and the comments before them.
use crate::{Module, StmtId};
use fx_lists::{List, Text};

/// A statement of a module as it is read: its PROGRAM or SUBROUTINE; a specification, by its place in `decls` from 0; an
/// executable statement; an ELSE IF, by its place among the arms from 0; an ELSE; the END IF or END DO that was read; END.
#[derive(Clone, Copy, PartialEq, Eq)]
pub enum Part {
    Title,
    Decl(u32),
    Stmt(StmtId),
    ElseIf(StmtId, u32),
    Else(StmtId),
    Close(StmtId),
    End,
}

/// A statement with the number of its first line in the text, from 1, and the comments before it in the order of the text.
#[derive(PartialEq, Eq, Drop)]
pub struct Spot {
    pub part: Part,
    pub first: u32,
    pub comments: List<Text>,
}

/// The statements of a module in the order of the text. `closing` has, in the last module, the comments after its END;
/// in the others it is empty.
#[derive(PartialEq, Eq, Drop)]
pub struct Places {
    pub spots: List<Spot>,
    pub closing: List<Text>,
}

/// A module and the lines of its statements.
#[derive(PartialEq, Eq, Drop)]
pub struct Parsed {
    pub module: Module,
    pub places: Places,
}
