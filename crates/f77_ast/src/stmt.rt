//! Executable statements (ANSI X3.9-1978 §7.1).
use crate::Expr;
use fx_lists::{List, Text};

/// The number of an executable statement in its module, from 1, in the order of the text.
pub type StmtId = u32;

/// An executable statement, with its label, 1 to 99999, where it has one.
#[cycle(stmt)]
#[derive(Debug, PartialEq, Eq, Drop)]
pub struct Stmt {
    pub id: StmtId,
    pub label: Option<u32>,
    pub what: What,
}

/// What a statement does. Labels are numbers, as in `Stmt::label`; lists are in the order of the text.
#[cycle(stmt)]
#[derive(Debug, PartialEq, Eq, Drop)]
pub enum What {
    /// The variable or array element, and the value (§10.1, §10.2).
    Assign(Expr, Expr),
    /// The parts of a block IF, an ELSE IF being a further one, and the statements of its ELSE (§11.6 to §11.9).
    If(List<Arm>, Option<List<Stmt>>),
    /// The test, and the statement that it guards (§11.5).
    LogicalIf(Expr, Box<Stmt>),
    /// A DO (§11.10).
    Do(Loop),
    /// The name of the subroutine, and the actual arguments (§15.6).
    Call(Text, List<Expr>),
    /// The label (§11.1).
    Goto(u32),
    Continue,
    Return,
    /// The text as it is written: digits, or a character constant with its apostrophes (§11.12).
    Stop(Option<Text>),
    /// The items of a PRINT or a WRITE (§12.8).
    Print(List<Expr>),
    /// The names and array elements that a READ sets (§12.8).
    Read(List<Expr>),
}

/// A part of a block IF, from IF or ELSE IF on: its test and its statements.
#[cycle(stmt)]
#[derive(Debug, PartialEq, Eq, Drop)]
pub struct Arm {
    pub test: Expr,
    pub body: List<Stmt>,
}

/// A DO with its body. `index` is the DO variable; a step that is not written is None, and counts as 1 (§11.10).
#[cycle(stmt)]
#[derive(Debug, PartialEq, Eq, Drop)]
pub struct Loop {
    pub index: Text,
    pub first: Expr,
    pub last: Expr,
    pub step: Option<Expr>,
    pub body: List<Stmt>,
}
