//! Expressions (ANSI X3.9-1978 §6).
use fx_lists::{List, Text};

/// An operator before its operand.
#[derive(Clone, Copy, Debug, PartialEq, Eq)]
pub enum UnaryOp {
    Plus,
    Minus,
    Not,
}

/// An operator between its operands: arithmetic (§6.1), relational (§6.3) or logical (§6.4).
#[derive(Clone, Copy, Debug, PartialEq, Eq)]
pub enum BinaryOp {
    Add,
    Sub,
    Mul,
    Div,
    Pow,
    Eq,
    Ne,
    Lt,
    Le,
    Gt,
    Ge,
    And,
    Or,
    Eqv,
    Neqv,
}

/// An expression as it is written: parentheses are kept, and nothing is known of the names.
#[derive(Debug, PartialEq, Eq, Drop)]
pub enum Expr {
    Int(i32),
    Log(bool),
    /// A name without subscripts: a variable, a PARAMETER or a whole array.
    Name(Text),
    /// A name with subscripts, or an intrinsic function with its arguments, in the order of the text.
    Element(Text, List<Expr>),
    Paren(Box<Expr>),
    Unary(UnaryOp, Box<Expr>),
    Binary(BinaryOp, Box<Expr>, Box<Expr>),
    /// The text of a character constant without the apostrophes around it, two inside being one.
    Chars(Text),
}
