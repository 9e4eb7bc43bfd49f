//! The answers of a session, and a program that is written from kept results.
ghost use Rattle.std.specs.Prelude.{◌≤◌, length, IfOk};
ghost use Rattle.pips_top.specs.Made.{input_limit};
ghost use Rattle.pips_top.specs.Replies.{AnswersFirst, PrintsWhole, RefusedBy};

use crate::kept::reduced_text;
use crate::make::Made;
use crate::wanted::{Wanted, is_alone};
use fx_lists::Text;
use laws_programs::roundtrip_programs::{graphs_ignore_places, tables_ignore_places};
use pipsmake_base::laws_database::{accepted_is_split, linked_alike, linked_is_accepted};
use pipsmake_base::making_stays_current;
use pipsmake_base::pipsmake_db::{Db, DbRefusal, Prints, answer_script, print_all};
use pipsmake_base::result_lines::Show;
use std::alloc::{AllocError as Memory, Global};

/// The answers to the commands of a script of at most 2^20 bytes, from a session without texts.
pub fn answer_first(alloc: Global, show: Show, script: &Text) -> Result<Text, Memory>
    requires { length script.now ≤ input_limit }
    ensures { IfOk result (AnswersFirst show script.now) }
{
    let mut db = Db::new(alloc);
    match answer_script(alloc, &mut db, show, script) {
        Ok(text) => Ok(text),
        Err(error) => Err(error),
    }
}

/// The refusal of a source text by a database: what is wrong with links at the line of the source.
fn refused(alloc: Global, refusal: DbRefusal) -> Result<Made, Memory>
    ensures { IfOk result (RefusedBy refusal) }
{
    match refusal {
        DbRefusal::Source(line, code, keyword) => Ok(Made::Refuses(line, code, keyword)),
        DbRefusal::Link(_, line, first, code) => {
            let before = first.checked_sub(1).ok_or(Memory)?;
            let line = before.checked_add(line).ok_or(Memory)?;
            Ok(Made::Refuses(line, code, Text::new(alloc)))
        }
        _ => Err(Memory),
    }
}

/// The program of a text of at most 2^20 bytes takes the place of all texts of a database, and is written from what is kept: its text, or its first refusal.
pub fn print_over(alloc: Global, db: &mut Db, wanted: Wanted, text: &Text) -> Result<Made, Memory>
    requires { length text.now ≤ input_limit }
    ensures { IfOk result (PrintsWhole wanted text.now db.old db.new) }
{
    accepted_is_split();
    linked_alike();
    linked_is_accepted();
    making_stays_current();
    tables_ignore_places();
    graphs_ignore_places();
    match db.replace_all(alloc, text) {
        Ok(_) => {}
        Err(refusal) => return refused(alloc, refusal),
    }
    match db.link(alloc) {
        Ok(()) => {}
        Err(refusal) => return refused(alloc, refusal),
    }
    let Prints { made: _made, text } = print_all(alloc, db, wanted.show)?;
    if is_alone(wanted) {
        return Ok(Made::Writes(text));
    }
    let text = reduced_text(alloc, db, wanted)?;
    Ok(Made::Writes(text))
}
