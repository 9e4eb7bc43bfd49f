//! Values of constants and of constant expressions.
ghost use Rattle.std.specs.Prelude.{◌≡◌};
ghost use Rattle.f77_ast.specs.Constants.{is_logical, number_of};

use fx_lists::Text;

/// The value of a constant.
#[derive(Clone, Copy, Debug, PartialEq, Eq)]
pub enum Constant {
    Int(i32),
    Log(bool),
}

/// The value of an expression in which only constants are known: a constant; a fault, such as an overflow, a zero divisor or an
/// operand of the wrong type; or none, as it is no constant expression.
#[derive(Clone, Copy, PartialEq, Eq)]
pub enum ConstantValue {
    Is(Constant),
    Faults,
    Varies,
}

/// The names that have constant values.
pub trait Constants {
    ghost use Rattle.std.specs.Prelude.{◌≡◌, List, ℕ, Option};
    ghost use Rattle.f77_ast.specs.declared.constant.Constant.{Constant};

    ghost value_in: { Self → List ℕ → Option Constant };

    /// The value of a name; None where the name has no constant value. Takes no memory.
    fn value(&self, name: &Text) -> Option<Constant>
        ensures { result ≡ value_in self.now name.now };
}

impl Constant {
    /// Whether it is LOGICAL.
    pub fn is_logical(self) -> bool
        ensures { result ≡ is_logical self }
    {
        match self {
            Constant::Int(_) => false,
            Constant::Log(_) => true,
        }
    }

    /// The number of an INTEGER constant; of a LOGICAL one 1 is true and 0 is false.
    pub fn number(self) -> i32
        ensures { result ≡ number_of self }
    {
        match self {
            Constant::Int(n) => n,
            Constant::Log(true) => 1,
            Constant::Log(false) => 0,
        }
    }
}
