//! What the structure of a module needs of a statement.
ghost use Rattle.std.specs.Prelude.{◌≡◌, ◌≤◌};
ghost use Rattle.f77_structure.specs.Marks.{statements_in, label_in, returns_in};

/// What an executable statement does that opens, divides or ends no block.
#[derive(Clone, Copy, Debug, PartialEq, Eq)]
pub enum Action {
    /// The label that it goes to.
    Goto(u32),
    Return,
    Stop,
    Other,
}

/// The part that a statement has in its module.
#[derive(Clone, Copy, Debug, PartialEq, Eq)]
pub enum Role {
    Program,
    Subroutine,
    Specification,
    Plain(Action),
    /// What the statement after the test does.
    LogicalIf(Action),
    BlockIf,
    ElseIf,
    Else,
    EndIf,
    /// The label of its last statement, where it has one.
    Do(Option<u32>),
    EndDo,
    End,
}

/// A statement as far as the structure of its module needs it.
#[derive(Clone, Copy, PartialEq, Eq)]
pub struct Mark {
    /// The number of its first line in the text, from 1.
    pub line: u32,
    pub label: Option<u32>,
    pub role: Role,
    /// Whether more than 64 of its parentheses are open at once.
    pub deep: bool,
}

/// How many executable statements a statement makes, 0 to 2: a logical IF makes two, and a label of END IF, END DO and END makes
/// a CONTINUE.
pub fn statements_in(mark: Mark) -> usize
    ensures defined { result ≡ statements_in mark }
    ensures few { result ≤ 2 }
{
    match mark.role {
        Role::Plain(_) | Role::BlockIf | Role::Do(_) => 1,
        Role::LogicalIf(_) => 2,
        Role::EndIf | Role::EndDo | Role::End => { if mark.label.is_some() { 1 } else { 0 } }
        Role::Program | Role::Subroutine | Role::Specification | Role::ElseIf | Role::Else => 0,
    }
}

/// The label of a statement that makes an executable statement; None for the others, whose labels do not count.
pub fn label_in(mark: Mark) -> Option<u32>
    ensures { result ≡ label_in mark }
{
    match mark.role {
        Role::Plain(_)
        | Role::LogicalIf(_)
        | Role::BlockIf
        | Role::Do(_)
        | Role::EndIf
        | Role::EndDo
        | Role::End => mark.label,
        Role::Program | Role::Subroutine | Role::Specification | Role::ElseIf | Role::Else => None,
    }
}

/// Whether a statement is a RETURN, or a logical IF with one.
pub fn returns_in(role: Role) -> bool
    ensures { result ≡ returns_in role }
{
    match role {
        Role::Plain(action) | Role::LogicalIf(action) => match action {
            Action::Return => true,
            Action::Goto(_) | Action::Stop | Action::Other => false,
        },
        Role::Program
        | Role::Subroutine
        | Role::Specification
        | Role::BlockIf
        | Role::ElseIf
        | Role::Else
        | Role::EndIf
        | Role::Do(_)
        | Role::EndDo
        | Role::End => false,
    }
}
