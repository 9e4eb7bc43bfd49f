//! Why a statement is refused.
ghost use Rattle.std.specs.Prelude.{◌≡◌};

use f77_forms::Refused;
use fx_lists::Code;

/// Why a statement is refused, in the order in which the causes are reported.
#[derive(Clone, Copy, Debug, PartialEq, Eq)]
pub enum Cause {
    /// No form fits, or the text is outside the grammar of its form.
    Syntax,
    /// The statement has a keyword of the language that the profile leaves out.
    OutOfProfile(Refused),
    /// A number has a decimal point or an exponent.
    RealConstant,
    /// A literal, a label or a repeat count is past 2147483647.
    NumberTooBig,
    /// A name has more than 31 characters.
    NameTooLong,
}

/// Why there is no tree: a cause in the text, or lack of memory.
#[derive(Debug, PartialEq, Eq, Drop)]
pub enum Refusal {
    Because(Cause),
    Memory,
}

impl Cause {
    ghost use Rattle.f77_statements.specs.Causes.{code_of};

    /// The code by which it is reported.
    pub fn code(self) -> Code
        ensures { result ≡ code_of self }
    {
        match self {
            Cause::Syntax => Code::Syntax,
            Cause::OutOfProfile(_) => Code::OutOfProfile,
            Cause::RealConstant => Code::RealConstant,
            Cause::NumberTooBig => Code::NumberTooBig,
            Cause::NameTooLong => Code::NameTooLong,
        }
    }
}
