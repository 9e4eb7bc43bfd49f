//! Operators on INTEGER numbers of 32 bits (ANSI X3.9-1978 §6.1, §6.3, §6.4). None is an overflow or a division by zero. A LOGICAL
//! operand is true where it is not 0, and a LOGICAL result is 1 or 0.
ghost use Rattle.std.specs.Prelude.{◌≡◌};
ghost use Rattle.f77_ast.specs.Numbers.{binary_number, is_true, power, quotient, unary_number};
ghost use Rattle.f77_ast.specs.Store.{truth};

use crate::{BinaryOp, UnaryOp};

fn truth(b: bool) -> Option<i32>
    ensures { result ≡ Some (truth b) }
{
    Some(if b { 1 } else { 0 })
}

/// What a unary operator gives for a number; None on overflow.
pub fn unary_number(op: UnaryOp, n: i32) -> Option<i32>
    ensures { result ≡ unary_number op n }
{
    match op {
        UnaryOp::Plus => Some(n),
        UnaryOp::Minus => n.checked_neg(),
        UnaryOp::Not => truth(n == 0),
    }
}

/// Rounded toward zero (§6.1.5).
fn quotient(m: i32, n: i32) -> Option<i32>
    ensures { result ≡ quotient m n }
{
    m.checked_div(n)
}

/// A negative power is one over the positive one, which may overflow first.
fn power(m: i32, n: i32) -> Option<i32>
    ensures { result ≡ power m n }
{
    let raised = m.checked_pow(n.unsigned_abs())?;
    if n < 0 {
        quotient(1, raised)
    } else {
        Some(raised)
    }
}

/// What a binary operator gives for two numbers; None on overflow and for a zero divisor.
pub fn binary_number(op: BinaryOp, m: i32, n: i32) -> Option<i32>
    ensures { result ≡ binary_number op m n }
{
    match op {
        BinaryOp::Add => m.checked_add(n),
        BinaryOp::Sub => m.checked_sub(n),
        BinaryOp::Mul => m.checked_mul(n),
        BinaryOp::Div => quotient(m, n),
        BinaryOp::Pow => power(m, n),
        BinaryOp::Eq => truth(m == n),
        BinaryOp::Ne => truth(m != n),
        BinaryOp::Lt => truth(m < n),
        BinaryOp::Le => truth(m <= n),
        BinaryOp::Gt => truth(m > n),
        BinaryOp::Ge => truth(m >= n),
        BinaryOp::And => truth(m != 0 && n != 0),
        BinaryOp::Or => truth(m != 0 || n != 0),
        BinaryOp::Eqv => truth((m != 0) == (n != 0)),
        BinaryOp::Neqv => truth((m != 0) != (n != 0)),
    }
}
