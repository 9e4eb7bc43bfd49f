//! The forms of statement, and the table of their keywords.

ghost use Rattle.std.specs.Prelude.{◌≡◌, IsTrue};
ghost use Rattle.f77_forms.specs.Choice.{entries, no_word_twice};
ghost use Rattle.f77_forms.specs.Profile.{profile};

/// A form of statement of the profile: one of ANSI X3.9-1978 §7, or DO WHILE or END DO.
#[derive(Clone, Copy, PartialEq, Eq)]
pub enum FormId {
    Program,
    Subroutine,
    Function,
    IntegerFunction,
    LogicalFunction,
    Implicit,
    Integer,
    Logical,
    Dimension,
    Parameter,
    Common,
    Equivalence,
    Save,
    Data,
    Assignment,
    LogicalIf,
    BlockIf,
    ElseIf,
    Else,
    EndIf,
    Do,
    DoWhile,
    EndDo,
    Continue,
    Return,
    End,
    Goto,
    Call,
    Stop,
    Print,
    Write,
    Read,
}

/// A keyword, in capitals and without blanks, and the form that it begins. A form that is chosen otherwise has the empty keyword.
#[derive(Clone, Copy)]
pub struct Form {
    pub keyword: &'static str,
    pub id: FormId,
}

macro_rules! forms {
    ($($keyword:literal = $id:ident),* $(,)?) => {
        [$(Form { keyword: $keyword, id: FormId::$id }),*]
    };
}

/// The forms of the profile, each once.
pub const TABLE: [Form; 32] = forms![
    "PROGRAM" = Program,
    "SUBROUTINE" = Subroutine,
    "FUNCTION" = Function,
    "INTEGERFUNCTION" = IntegerFunction,
    "LOGICALFUNCTION" = LogicalFunction,
    "IMPLICIT" = Implicit,
    "INTEGER" = Integer,
    "LOGICAL" = Logical,
    "DIMENSION" = Dimension,
    "PARAMETER" = Parameter,
    "COMMON" = Common,
    "EQUIVALENCE" = Equivalence,
    "SAVE" = Save,
    "DATA" = Data,
    "" = Assignment,
    "" = LogicalIf,
    "" = BlockIf,
    "ELSEIF" = ElseIf,
    "ELSE" = Else,
    "ENDIF" = EndIf,
    "" = Do,
    "" = DoWhile,
    "ENDDO" = EndDo,
    "CONTINUE" = Continue,
    "RETURN" = Return,
    "END" = End,
    "GOTO" = Goto,
    "CALL" = Call,
    "STOP" = Stop,
    "PRINT" = Print,
    "WRITE" = Write,
    "READ" = Read,
];

/// `TABLE` as a slice; no keyword but the empty one is there twice.
pub fn profile() -> &'static [Form]
    ensures defined { entries result.now ≡ profile }
    ensures unique { IsTrue (no_word_twice (entries result.now)) }
{
    &TABLE
}
