//! Commands, and the lines that give them.
ghost use Rattle.std.specs.Prelude.{◌≡◌, IfOk};
ghost use Rattle.session_texts.specs.Commands.{heading, of_one, of_two, of_three, line_of};

use crate::words::count_of;
use fx_lists::Text;
use std::alloc::AllocError as Memory;

/// A command of a script, with its words in capitals.
#[derive(Drop)]
pub enum Command {
    /// The text of some modules, in which each line ends with LF.
    Source(Text),
    /// The name of a module that goes.
    Drop(Text),
    /// The kind and the name of a result that is made.
    Make(Text, Text),
    /// The kind and the name of a result that is shown.
    Show(Text, Text),
    /// All modules are printed.
    Print,
    /// A line that is no command.
    Bad,
    /// A source that has fewer lines than it says. It is the last command.
    Short,
}

/// What a line of a script says.
#[derive(Drop)]
pub enum Line {
    /// Nothing.
    Blank,
    /// That so many lines of source follow.
    Heading(u32),
    /// A command, without further lines.
    Whole(Command),
}

/// The line before a source of so many lines, or a line that is no command.
fn heading(count: Option<u32>) -> Line
    ensures { result ≡ heading count }
{
    match count {
        None => Line::Whole(Command::Bad),
        Some(count) => Line::Heading(count),
    }
}

fn of_one(a: &Text) -> Line
    ensures { result ≡ of_one a.now }
{
    if a.as_slice() == b"PRINT".as_slice() {
        Line::Whole(Command::Print)
    } else {
        Line::Whole(Command::Bad)
    }
}

fn of_two(a: &Text, b: &Text) -> Result<Line, Memory>
    ensures { IfOk result (λ line. line ≡ of_two a.now b.now) }
{
    if a.as_slice() == b"SOURCE".as_slice() {
        Ok(heading(count_of(b.as_slice())))
    } else if a.as_slice() == b"DROP".as_slice() {
        Ok(Line::Whole(Command::Drop(b.clone()?)))
    } else {
        Ok(Line::Whole(Command::Bad))
    }
}

fn of_three(a: &Text, b: &Text, c: &Text) -> Result<Line, Memory>
    ensures { IfOk result (λ line. line ≡ of_three a.now b.now c.now) }
{
    if a.as_slice() == b"MAKE".as_slice() {
        Ok(Line::Whole(Command::Make(b.clone()?, c.clone()?)))
    } else if a.as_slice() == b"SHOW".as_slice() {
        Ok(Line::Whole(Command::Show(b.clone()?, c.clone()?)))
    } else {
        Ok(Line::Whole(Command::Bad))
    }
}

/// What a line of these words says.
pub fn line_of(words: &[Text]) -> Result<Line, Memory>
    ensures { IfOk result (λ line. line ≡ line_of words.now) }
{
    match words {
        [] => Ok(Line::Blank),
        [a] => Ok(of_one(a)),
        [a, b] => of_two(a, b),
        [a, b, c] => of_three(a, b, c),
        [_, _, _, _, ..] => Ok(Line::Whole(Command::Bad)),
    }
}
