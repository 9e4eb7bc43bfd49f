//! A statement by itself, before it has a place in a module.
use f77_ast::{Decl, Expr, FunctionForm, What};
use fx_lists::{List, Text};

/// A DO without its body: the label of its last statement where it has one, the DO variable, and the values (ANSI X3.9-1978
/// §11.10). A step that is not written is None.
#[derive(PartialEq, Eq, Drop)]
pub struct DoHead {
    pub label: Option<u32>,
    pub index: Text,
    pub first: Expr,
    pub last: Expr,
    pub step: Option<Expr>,
}

/// A statement by itself. What begins, divides or ends a module or a block has a variant of its own, and every other
/// executable statement is `Simple`.
#[derive(PartialEq, Eq, Drop)]
pub enum Phrase {
    /// The name.
    Program(Text),
    /// The name and the dummies.
    Subroutine(Text, List<Text>),
    /// How its type is given, the name and the dummies, without the result.
    Function(FunctionForm, Text, List<Text>),
    Decl(Decl),
    Simple(What),
    /// The test, and what the statement after it does.
    LogicalIf(Expr, What),
    /// The test.
    BlockIf(Expr),
    /// The test.
    ElseIf(Expr),
    Else,
    EndIf,
    Do(DoHead),
    /// The label of the last statement of a DO WHILE where it has one, and the test.
    While(Option<u32>, Expr),
    EndDo,
    End,
}
