//! The commands of a script.
ghost use Rattle.std.specs.Prelude.{◌≡◌, [], ◌∷◌, ◌++◌, ◌≤◌, ◌<◌, length, take, drop, option_to_list, IfOk, OnOk, MatchOption};
ghost use Rattle.session_texts.specs.Words.{words_of};
ghost use Rattle.session_texts.specs.Commands.{line_of, source_text, commands_after, commands_of, AreWithin};

use crate::command::{Command, Line, line_of};
use crate::lines::Lines;
use crate::words::words_of;
use fx_lists::{List, Text};
use std::alloc::{AllocError as Memory, Global};

/// Takes the next lines, so many of them, as a text in which each ends with LF. None where there are fewer, and then all are taken.
fn take_source(alloc: Global, lines: &mut Lines<'_>, count: u32) -> Result<Option<Text>, Memory>
    ensures taken { IfOk result (λ taken. MatchOption taken (lines.new ≡ []) (λ text. (text ≡ source_text (take count lines.old)) × (lines.new ≡ drop count lines.old))) }
    ensures enough { IfOk result (λ taken. MatchOption taken (length lines.old < count) (λ text. count ≤ length lines.old)) }
{
    let mut text = Text::new(alloc);
    let mut left = count;
    while left > 0 {
        let Some(line) = lines.next_line() else {
            return Ok(None);
        };
        text.append(line)?;
        text.push(b'\n')?;
        left -= 1;
    }
    Ok(Some(text))
}

/// What a line of a script says.
fn said_by(alloc: Global, line: &[u8]) -> Result<Line, Memory>
    ensures { IfOk result (λ said. said ≡ line_of (words_of line.now)) }
{
    let words = words_of(alloc, line)?;
    line_of(words.as_slice())
}

/// The command that begins with a line; takes the lines of its source. None where the line is blank.
fn command_at(alloc: Global, line: &[u8], lines: &mut Lines<'_>) -> Result<Option<Command>, Memory>
    ensures found { IfOk result (λ found. commands_after 0 (line.now ∷ lines.old) ≡ option_to_list found ++ commands_after 0 lines.new) }
    ensures fewer { OnOk result (length lines.new ≤ length lines.old) }
{
    match said_by(alloc, line)? {
        Line::Blank => Ok(None),
        Line::Whole(command) => Ok(Some(command)),
        Line::Heading(count) => match take_source(alloc, lines, count)? {
            Some(text) => Ok(Some(Command::Source(text))),
            None => Ok(Some(Command::Short)),
        },
    }
}

/// The commands of a script, in order. Blank lines are passed over. Where a source has fewer lines than it says, the last command is
/// `Short`. Err is want of memory. Takes time in proportion to the script.
#[tactic(auto, unfolding(crate::specs::Commands::commands_of))]
pub fn commands(alloc: Global, script: &Text) -> Result<List<Command>, Memory>
    ensures defined { IfOk result (λ commands. commands ≡ commands_of script.now) }
    ensures short { IfOk result (λ commands. AreWithin (length script.now) commands) }
{
    let mut commands = List::new(alloc);
    let mut lines = Lines::new(script.as_slice());
    while let Some(line) = lines.next_line() {
        if let Some(command) = command_at(alloc, line, &mut lines)? {
            commands.push(command)?;
        }
    }
    Ok(commands)
}
