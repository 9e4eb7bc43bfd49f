//! How the operators are written.
ghost use Rattle.std.specs.Prelude.{◌≡◌};
ghost use Rattle.f77_ast.specs.Operators.{unary_word, binary_word};

use crate::{BinaryOp, UnaryOp};

impl UnaryOp {
    /// The operator as it is written, in capitals, `.NOT.` with its points.
    pub fn word(self) -> &'static [u8]
        ensures { result.now ≡ unary_word self }
    {
        match self {
            UnaryOp::Plus => b"+",
            UnaryOp::Minus => b"-",
            UnaryOp::Not => b".NOT.",
        }
    }
}

impl BinaryOp {
    /// The operator as it is written, in capitals, relational and logical ones with their points.
    pub fn word(self) -> &'static [u8]
        ensures { result.now ≡ binary_word self }
    {
        match self {
            BinaryOp::Add => b"+",
            BinaryOp::Sub => b"-",
            BinaryOp::Mul => b"*",
            BinaryOp::Div => b"/",
            BinaryOp::Pow => b"**",
            BinaryOp::Eq => b".EQ.",
            BinaryOp::Ne => b".NE.",
            BinaryOp::Lt => b".LT.",
            BinaryOp::Le => b".LE.",
            BinaryOp::Gt => b".GT.",
            BinaryOp::Ge => b".GE.",
            BinaryOp::And => b".AND.",
            BinaryOp::Or => b".OR.",
            BinaryOp::Eqv => b".EQV.",
            BinaryOp::Neqv => b".NEQV.",
        }
    }
}
