//! The keywords of statements that the profile leaves out.

ghost use Rattle.std.specs.Prelude.{◌≡◌};
ghost use Rattle.f77_forms.specs.Refused.{refused_word, has_other_control, is_refused_before, is_indirect};
ghost use Rattle.f77_forms.specs.declared.refused.Refused.TheVariants.{OtherPrint, OtherWrite, OtherRead};

use crate::words::{begins, is_letter};

/// A kind of statement that the profile leaves out.
#[derive(Clone, Copy, Debug, PartialEq, Eq)]
pub enum Refused {
    Real,
    DoublePrecision,
    Complex,
    Character,
    Format,
    Open,
    Close,
    Inquire,
    Rewind,
    Backspace,
    EndFile,
    Entry,
    BlockData,
    External,
    Intrinsic,
    Assign,
    Pause,
    /// GO TO before a letter or a parenthesis: assigned or computed.
    OtherGoto,
    /// PRINT with another control part than `*`.
    OtherPrint,
    /// WRITE with another control part than `(*,*)` or `(6,*)`.
    OtherWrite,
    /// READ with another control part than `*`, `(*,*)` or `(5,*)`.
    OtherRead,
    /// IF with labels after the parentheses.
    ArithmeticIf,
}

/// Those that are known by their keyword and what follows it: all but the arithmetic IF.
pub const REFUSED: [Refused; 21] = [
    Refused::Real,
    Refused::DoublePrecision,
    Refused::Complex,
    Refused::Character,
    Refused::Format,
    Refused::Open,
    Refused::Close,
    Refused::Inquire,
    Refused::Rewind,
    Refused::Backspace,
    Refused::EndFile,
    Refused::Entry,
    Refused::BlockData,
    Refused::External,
    Refused::Intrinsic,
    Refused::Assign,
    Refused::Pause,
    Refused::OtherGoto,
    Refused::OtherPrint,
    Refused::OtherWrite,
    Refused::OtherRead,
];

fn is_indirect(rest: &[u8]) -> bool
    ensures { result ≡ is_indirect rest.now }
{
    match rest {
        [] => false,
        [c, ..] => *c == b'(' || is_letter(*c),
    }
}

fn prints_otherwise(rest: &[u8]) -> bool
    ensures { result ≡ is_refused_before OtherPrint rest.now }
{
    !rest.is_empty() && !begins(b"*", rest)
}

fn writes_otherwise(rest: &[u8]) -> bool
    ensures { result ≡ is_refused_before OtherWrite rest.now }
{
    !rest.is_empty() && !begins(b"(*,*)", rest) && !begins(b"(6,*)", rest)
}

fn reads_otherwise(rest: &[u8]) -> bool
    ensures { result ≡ is_refused_before OtherRead rest.now }
{
    !rest.is_empty() && !begins(b"*", rest) && !begins(b"(*,*)", rest) && !begins(b"(5,*)", rest)
}

impl Refused {
    /// The keyword, in capitals and without blanks.
    pub fn keyword(self) -> &'static str
        ensures { result.now ≡ refused_word self }
    {
        match self {
            Refused::Real => "REAL",
            Refused::DoublePrecision => "DOUBLEPRECISION",
            Refused::Complex => "COMPLEX",
            Refused::Character => "CHARACTER",
            Refused::Format => "FORMAT",
            Refused::Open => "OPEN",
            Refused::Close => "CLOSE",
            Refused::Inquire => "INQUIRE",
            Refused::Rewind => "REWIND",
            Refused::Backspace => "BACKSPACE",
            Refused::EndFile => "ENDFILE",
            Refused::Entry => "ENTRY",
            Refused::BlockData => "BLOCKDATA",
            Refused::External => "EXTERNAL",
            Refused::Intrinsic => "INTRINSIC",
            Refused::Assign => "ASSIGN",
            Refused::Pause => "PAUSE",
            Refused::OtherGoto => "GOTO",
            Refused::OtherPrint => "PRINT",
            Refused::OtherWrite => "WRITE",
            Refused::OtherRead => "READ",
            Refused::ArithmeticIf => "IF",
        }
    }

    /// Whether the keyword is refused before the text `rest`; never for the arithmetic IF, which is not known by its keyword.
    pub fn is_refused_before(self, rest: &[u8]) -> bool
        ensures { result ≡ is_refused_before self rest.now }
    {
        match self {
            Refused::OtherGoto => is_indirect(rest),
            Refused::OtherPrint => prints_otherwise(rest),
            Refused::OtherWrite => writes_otherwise(rest),
            Refused::OtherRead => reads_otherwise(rest),
            Refused::Real
            | Refused::DoublePrecision
            | Refused::Complex
            | Refused::Character
            | Refused::Format
            | Refused::Open
            | Refused::Close
            | Refused::Inquire
            | Refused::Rewind
            | Refused::Backspace
            | Refused::EndFile
            | Refused::Entry
            | Refused::BlockData
            | Refused::External
            | Refused::Intrinsic
            | Refused::Assign
            | Refused::Pause => true,
            Refused::ArithmeticIf => false,
        }
    }
}
