//! The codes of refusals: for each its number and its name, as they are reported.
ghost use Rattle.std.specs.Prelude.{◌≡◌};
ghost use Rattle.fx_lists.specs.Refusals.{code_numbered, name_of, number_of};

/// Why a text is refused, in the order of the numbers. Lines have 1 to 6, statements 10 to 14, the structure of a module 15 to
/// 23, its symbols 30 to 41, and the links of modules 50 to 57.
#[derive(Clone, Copy, Debug, PartialEq, Eq)]
pub enum Code {
    /// A byte in columns 1 to 72 of a statement line that is neither printable ASCII nor a tab.
    NonAscii,
    /// A tab outside a character constant.
    Tab,
    /// Columns 1 to 5 hold neither a label nor blanks, or on a continuation line anything but blanks (ANSI X3.9-1978,
    /// §3.2 and §3.4).
    BadLabelField,
    /// A continuation line before the first initial line.
    ContinuationFirst,
    /// A twentieth continuation line (ANSI X3.9-1978, §3.3).
    TooManyContinuations,
    /// The last statement is not END.
    NoEnd,
    /// No form fits, or the text is outside the grammar of its form.
    Syntax,
    /// A keyword of the language that the profile leaves out.
    OutOfProfile,
    /// A number with a decimal point or an exponent.
    RealConstant,
    /// A literal, label or repeat count past 2147483647.
    NumberTooBig,
    /// A name of more than 31 characters.
    NameTooLong,
    /// A DO without its end in its block.
    UnclosedDo,
    /// A block IF without END IF in its block.
    UnclosedIf,
    /// A part without its opening, a second ELSE, a heading that is not first, a specification after an executable statement,
    /// or a RETURN in a main program.
    StrayPart,
    /// A labelled DO ends at a statement that may not end one (ANSI X3.9-1978, §11.10).
    BadTerminal,
    /// Two executable statements have one label (ANSI X3.9-1978, §3.4).
    LabelTwice,
    /// A GO TO to a label of no executable statement.
    LabelMissing,
    /// A GO TO to a statement in a list that does not contain the GO TO (ANSI X3.9-1978, §11.6 to §11.10).
    JumpIntoBlock,
    /// The executable statement after the last that a module may have.
    TooManyStatements,
    /// Blocks or parentheses too deep in one another.
    TooDeep,
    /// A name whose type comes out REAL.
    RealName,
    /// A second type or second bounds for a name, or a dummy that is listed twice.
    DeclaredTwice,
    /// More than seven bounds; `*` that is not last or not of a dummy; a bound that is no integer expression, or not
    /// constant and not of a dummy; a high bound below the low one; more than 2147483647 storage units (ANSI X3.9-1978,
    /// §5.1).
    BadDimension,
    /// A PARAMETER value that is not constant, is of another type, or faults (ANSI X3.9-1978, §8.6).
    BadParameter,
    /// A name twice in COMMON, or a dummy or PARAMETER name there (ANSI X3.9-1978, §8.3).
    CommonTwice,
    /// An EQUIVALENCE that contradicts another or a COMMON, names a dummy or PARAMETER, or has no constant subscript
    /// within bounds (ANSI X3.9-1978, §8.2).
    EquivalenceClash,
    /// An EQUIVALENCE by which a common block would begin before its first storage unit.
    EquivalenceExtendsBack,
    /// DATA with another number or type of values, on a dummy, COMMON or PARAMETER name, without constant subscripts
    /// within bounds, or a second time for a storage unit (ANSI X3.9-1978, §9).
    InitialMismatch,
    /// Another number of subscripts than of bounds, or of arguments than the function takes.
    SubscriptCount,
    /// An operand, test, subscript, assignment, DO part or argument of the wrong type, or characters outside PRINT and STOP.
    TypeMismatch,
    /// A PARAMETER or function is assigned, read into, or a DO variable.
    AssignToConstant,
    /// Subscripts on a name that is no array, or an array without subscripts outside CALL, DATA and EQUIVALENCE.
    NotAnArray,
    /// No main program.
    NoMain,
    /// A second main program.
    TwoMains,
    /// A second module of one name.
    ModuleTwice,
    /// A CALL of a name that is no subroutine.
    NoSuchModule,
    /// A CALL with another number of arguments.
    ArgumentCount,
    /// An argument of another type, a scalar or an expression for an array, or a whole array for a scalar.
    ArgumentType,
    /// The first CALL that is on a cycle of calls.
    Recursion,
    /// More modules than a program may have.
    TooManyModules,
}

impl Code {
    /// The number by which it is reported, from 1 to 57; the variants are in the order of their numbers.
    pub fn number(self) -> u32
        ensures { result ≡ number_of self }
    {
        match self {
            Code::NonAscii => 1,
            Code::Tab => 2,
            Code::BadLabelField => 3,
            Code::ContinuationFirst => 4,
            Code::TooManyContinuations => 5,
            Code::NoEnd => 6,
            Code::Syntax => 10,
            Code::OutOfProfile => 11,
            Code::RealConstant => 12,
            Code::NumberTooBig => 13,
            Code::NameTooLong => 14,
            Code::UnclosedDo => 15,
            Code::UnclosedIf => 16,
            Code::StrayPart => 17,
            Code::BadTerminal => 18,
            Code::LabelTwice => 19,
            Code::LabelMissing => 20,
            Code::JumpIntoBlock => 21,
            Code::TooManyStatements => 22,
            Code::TooDeep => 23,
            Code::RealName => 30,
            Code::DeclaredTwice => 31,
            Code::BadDimension => 32,
            Code::BadParameter => 33,
            Code::CommonTwice => 34,
            Code::EquivalenceClash => 35,
            Code::EquivalenceExtendsBack => 36,
            Code::InitialMismatch => 37,
            Code::SubscriptCount => 38,
            Code::TypeMismatch => 39,
            Code::AssignToConstant => 40,
            Code::NotAnArray => 41,
            Code::NoMain => 50,
            Code::TwoMains => 51,
            Code::ModuleTwice => 52,
            Code::NoSuchModule => 53,
            Code::ArgumentCount => 54,
            Code::ArgumentType => 55,
            Code::Recursion => 56,
            Code::TooManyModules => 57,
        }
    }

    /// The name by which it is reported, in ASCII, which is that of its variant.
    pub fn name(self) -> &'static str
        ensures { result.now ≡ name_of self }
    {
        match self {
            Code::NonAscii => "NonAscii",
            Code::Tab => "Tab",
            Code::BadLabelField => "BadLabelField",
            Code::ContinuationFirst => "ContinuationFirst",
            Code::TooManyContinuations => "TooManyContinuations",
            Code::NoEnd => "NoEnd",
            Code::Syntax => "Syntax",
            Code::OutOfProfile => "OutOfProfile",
            Code::RealConstant => "RealConstant",
            Code::NumberTooBig => "NumberTooBig",
            Code::NameTooLong => "NameTooLong",
            Code::UnclosedDo => "UnclosedDo",
            Code::UnclosedIf => "UnclosedIf",
            Code::StrayPart => "StrayPart",
            Code::BadTerminal => "BadTerminal",
            Code::LabelTwice => "LabelTwice",
            Code::LabelMissing => "LabelMissing",
            Code::JumpIntoBlock => "JumpIntoBlock",
            Code::TooManyStatements => "TooManyStatements",
            Code::TooDeep => "TooDeep",
            Code::RealName => "RealName",
            Code::DeclaredTwice => "DeclaredTwice",
            Code::BadDimension => "BadDimension",
            Code::BadParameter => "BadParameter",
            Code::CommonTwice => "CommonTwice",
            Code::EquivalenceClash => "EquivalenceClash",
            Code::EquivalenceExtendsBack => "EquivalenceExtendsBack",
            Code::InitialMismatch => "InitialMismatch",
            Code::SubscriptCount => "SubscriptCount",
            Code::TypeMismatch => "TypeMismatch",
            Code::AssignToConstant => "AssignToConstant",
            Code::NotAnArray => "NotAnArray",
            Code::NoMain => "NoMain",
            Code::TwoMains => "TwoMains",
            Code::ModuleTwice => "ModuleTwice",
            Code::NoSuchModule => "NoSuchModule",
            Code::ArgumentCount => "ArgumentCount",
            Code::ArgumentType => "ArgumentType",
            Code::Recursion => "Recursion",
            Code::TooManyModules => "TooManyModules",
        }
    }

    /// The code with a number. None where no code has it.
    pub fn with_number(number: u32) -> Option<Code>
        ensures { result ≡ code_numbered number }
    {
        Some(match number {
            1 => Code::NonAscii,
            2 => Code::Tab,
            3 => Code::BadLabelField,
            4 => Code::ContinuationFirst,
            5 => Code::TooManyContinuations,
            6 => Code::NoEnd,
            10 => Code::Syntax,
            11 => Code::OutOfProfile,
            12 => Code::RealConstant,
            13 => Code::NumberTooBig,
            14 => Code::NameTooLong,
            15 => Code::UnclosedDo,
            16 => Code::UnclosedIf,
            17 => Code::StrayPart,
            18 => Code::BadTerminal,
            19 => Code::LabelTwice,
            20 => Code::LabelMissing,
            21 => Code::JumpIntoBlock,
            22 => Code::TooManyStatements,
            23 => Code::TooDeep,
            30 => Code::RealName,
            31 => Code::DeclaredTwice,
            32 => Code::BadDimension,
            33 => Code::BadParameter,
            34 => Code::CommonTwice,
            35 => Code::EquivalenceClash,
            36 => Code::EquivalenceExtendsBack,
            37 => Code::InitialMismatch,
            38 => Code::SubscriptCount,
            39 => Code::TypeMismatch,
            40 => Code::AssignToConstant,
            41 => Code::NotAnArray,
            50 => Code::NoMain,
            51 => Code::TwoMains,
            52 => Code::ModuleTwice,
            53 => Code::NoSuchModule,
            54 => Code::ArgumentCount,
            55 => Code::ArgumentType,
            56 => Code::Recursion,
            57 => Code::TooManyModules,
            _ => return None,
        })
    }
}
