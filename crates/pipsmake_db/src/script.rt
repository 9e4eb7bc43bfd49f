//! The answer to a script.
ghost use Rattle.std.specs.Prelude.{◌≡◌, ◌≤◌, length, IfOk};
ghost use Rattle.pipsmake_db.specs.AnswerSteps.{AnswersWhole};

use crate::Db;
use crate::command::answer_command;
use fx_lists::Text;
use result_lines::Show;
use session_texts::commands;
use std::alloc::{AllocError as Memory, Global};

/// The answers to the commands of a script of at most 16,777,216 bytes, one after another, each ended by LF. Err is want of memory.
pub fn answer_script(alloc: Global, db: &mut Db, show: Show, script: &Text) -> Result<Text, Memory>
    requires { length script.now ≤ 16777216 }
    ensures { IfOk result (AnswersWhole show script.now db.old db.new) }
{
    let commands = commands(alloc, script)?;
    let mut out = Text::new(alloc);
    let mut rest = commands.as_slice();
    while let [command, more @ ..] = rest {
        answer_command(alloc, db, show, command, &mut out)?;
        rest = more;
    }
    Ok(out)
}
