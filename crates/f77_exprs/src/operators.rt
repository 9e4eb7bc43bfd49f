//! The operators of each level (ANSI X3.9-1978 §6.5).
ghost use Rattle.std.specs.Prelude.{◌≡◌, ℕ, option_map};
ghost use Rattle.f77_exprs.specs.State.{state};
ghost use Rattle.f77_exprs.specs.Operators.{one_of};

use crate::Cursor;
use f77_ast::BinaryOp;

/// The levels whose operators group from the left, the one that binds least first.
#[derive(Clone, Copy)]
pub enum Level {
    Equivalence,
    Disjunction,
    Conjunction,
    Sum,
    Product,
}

/// The relational operators.
pub const RELATIONS: [BinaryOp; 6] = [
    BinaryOp::Eq,
    BinaryOp::Ne,
    BinaryOp::Lt,
    BinaryOp::Le,
    BinaryOp::Gt,
    BinaryOp::Ge,
];

/// The binary operators that are written between points.
pub const DOTTED: [BinaryOp; 10] = [
    BinaryOp::Eq,
    BinaryOp::Ne,
    BinaryOp::Lt,
    BinaryOp::Le,
    BinaryOp::Gt,
    BinaryOp::Ge,
    BinaryOp::And,
    BinaryOp::Or,
    BinaryOp::Eqv,
    BinaryOp::Neqv,
];

impl Level {
    ghost use Rattle.f77_exprs.specs.Grammar.{operators_of};

    /// The operators of the level.
    pub fn operators(self) -> &'static [BinaryOp]
        ensures { result.now ≡ operators_of self }
    {
        match self {
            Level::Equivalence => &[BinaryOp::Eqv, BinaryOp::Neqv],
            Level::Disjunction => &[BinaryOp::Or],
            Level::Conjunction => &[BinaryOp::And],
            Level::Sum => &[BinaryOp::Add, BinaryOp::Sub],
            Level::Product => &[BinaryOp::Mul, BinaryOp::Div],
        }
    }
}

/// The first of these operators with which the rest begins, and what follows it; None where it begins with none.
pub fn one_of<'a>(ops: &[BinaryOp], at: Cursor<'a>) -> Option<(BinaryOp, Cursor<'a>)>
    ensures { option_map (λ x. (x.0, state x.1)) result ≡ one_of ops.now (state at.entry) }
{
    for op in ops {
        if let Some(rest) = at.parse_word(op.word()) {
            return Some((*op, rest));
        }
    }
    None
}
