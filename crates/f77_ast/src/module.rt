//! Modules: a main program or a subroutine (ANSI X3.9-1978 §14, §15.6).
use crate::{Decl, Stmt, StmtId};
use fx_lists::{List, Text};

/// How the type of a function is given: by its name, as that of a variable, or by the FUNCTION statement (§15.5.1).
#[derive(Clone, Copy, Debug, PartialEq, Eq)]
pub enum FunctionForm {
    /// FUNCTION without a type.
    Plain,
    /// INTEGER FUNCTION.
    Integer,
    /// LOGICAL FUNCTION.
    Logical,
}

/// A main program or a subroutine; a function is a subroutine whose last dummy is its result. All lists are in the order of the text.
#[derive(PartialEq, Eq, Drop)]
pub struct Module {
    /// That of PROGRAM or SUBROUTINE, and MAIN for a main program without PROGRAM.
    pub name: Text,
    /// Whether it is a main program.
    pub main: bool,
    /// Whether it has a PROGRAM statement.
    pub titled: bool,
    /// The dummy arguments, none for a main program.
    pub dummies: List<Text>,
    pub decls: List<Decl>,
    /// The executable statements; those inside IF and DO are below theirs.
    pub body: List<Stmt>,
    /// The form of its FUNCTION statement, for a function.
    pub function: Option<FunctionForm>,
    /// The block IFs that stand for an assignment of the value of a function.
    pub references: List<StmtId>,
    /// The block IFs that stand for a DO WHILE.
    pub whiles: List<StmtId>,
}
