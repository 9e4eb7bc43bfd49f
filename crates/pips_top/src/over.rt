//! What a run over a base replies, before anything is written.
ghost use Rattle.std.specs.Prelude.{◌≡◌};
ghost use Rattle.fx_base.specs.Store.{NoneFalls, OnlyBaseFaults, OnlyCounts};
ghost use Rattle.fx_base.specs.declared.store.Role.{Role};
ghost use Rattle.fx_base.specs.declared.store.Role.TheVariants.{Input};
ghost use Rattle.pips_top.specs.declared.job.Job.TheVariants.{AnswerOver, WriteOver};
ghost use Rattle.pips_top.specs.Replies.{FoundOr, GotOr, KeptWith, RepliesFor};
ghost use Rattle.pips_top.specs.Run.{Stored};

use crate::Status;
use crate::base::{keep_base, open_base};
use crate::job::Opening;
use crate::laws::{answered_is_sound, written_is_sound};
use crate::make::Made;
use crate::reply::{Reply, stopping};
use crate::session::print_over;
use crate::status::{naming_line, refusal_line};
use crate::wanted::Wanted;
use fx_base::{Fetched, Role, Store};
use fx_lists::Text;
use pipsmake_base::pipsmake_db::{Db, answer_script};
use pipsmake_base::result_lines::Show;
use pipsmake_base::{answers_stay_current, bases_are_modules, load, save, sessions_begin_current};
use std::alloc::Global;

/// Fetches the INPUT of a name, of at most 2^20 bytes. Err is what is replied where it is not got.
fn input_of<F: Store>(alloc: Global, name: &Text, files: &mut F) -> Result<Text, Reply>
    ensures answer { let old : Stored = record { files = F.files files.old; counts = F.counts files.old } in
        let new : Stored = record { files = F.files files.new; counts = F.counts files.new } in
        GotOr old new name.now result }
    ensures files { F.files files.new ≡ F.files files.old }
    ensures counts { OnlyCounts (F.counts files.old) (F.counts files.new) Input }
{
    match files.fetch(alloc, Role::Input, name, 1_048_576) {
        Fetched::Got(text) => Ok(text),
        Fetched::Absent => Err(stopping(
            Status::NoInput,
            naming_line(alloc, b"pips: no input ", name),
        )),
        Fetched::TooLong => Err(stopping(
            Status::TooLong,
            naming_line(alloc, b"pips: too long ", name),
        )),
        Fetched::Failed => Err(stopping(
            Status::ReadFault,
            naming_line(alloc, b"pips: cannot read ", name),
        )),
        Fetched::Memory => Err(Reply::NoMemory),
    }
}

/// The bytes of an INPUT, and a database that goes on from a base. Err is what is replied where one is not got.
fn opened<F: Store>(
    alloc: Global,
    input: &Text,
    opening: &Opening,
    files: &mut F,
) -> Result<(Text, Db), Reply>
    ensures answer { let old : Stored = record { files = F.files files.old; counts = F.counts files.old } in
        let new : Stored = record { files = F.files files.new; counts = F.counts files.new } in
        FoundOr old new input.now opening.now result }
    ensures files { F.files files.new ≡ F.files files.old }
    ensures counts { (r : Role) → NoneFalls (F.counts files.old r) (F.counts files.new r) }
{
    let text = match input_of(alloc, input, files) {
        Ok(text) => text,
        Err(reply) => return Err(reply),
    };
    let base = match open_base(alloc, opening, files) {
        Ok(base) => base,
        Err(reply) => return Err(reply),
    };
    match load(alloc, base) {
        Ok(db) => Ok((text, db)),
        Err(_) => Err(Reply::NoMemory),
    }
}

/// Keeps what a database leaves, and then the text is to be written.
fn keep_and_write<F: Store>(
    alloc: Global,
    db: &Db,
    opening: &Opening,
    text: Text,
    files: &mut F,
) -> Reply
    ensures answer { let old : Stored = record { files = F.files files.old; counts = F.counts files.old } in
        let new : Stored = record { files = F.files files.new; counts = F.counts files.new } in
        KeptWith old new opening.now.name db.now text result }
    ensures counts { OnlyBaseFaults (F.counts files.old) (F.counts files.new) }
{
    let Ok(left) = save(alloc, db) else {
        return Reply::NoMemory;
    };
    match keep_base(alloc, &left, &opening.name, files) {
        None => Reply::Writing(text),
        Some(reply) => reply,
    }
}

/// Answers the commands of the script of an INPUT over a base.
pub fn reply_to_script_over<F: Store>(
    alloc: Global,
    show: Show,
    input: &Text,
    opening: &Opening,
    files: &mut F,
) -> Reply
    ensures answer { let old : Stored = record { files = F.files files.old; counts = F.counts files.old } in
        let new : Stored = record { files = F.files files.new; counts = F.counts files.new } in
        RepliesFor (AnswerOver show input.now opening.now) old new result }
    ensures counts { (r : Role) → NoneFalls (F.counts files.old r) (F.counts files.new r) }
{
    sessions_begin_current();
    answers_stay_current();
    bases_are_modules();
    answered_is_sound();
    let (script, mut db) = match opened(alloc, input, opening, files) {
        Ok(found) => found,
        Err(reply) => return reply,
    };
    match answer_script(alloc, &mut db, show, &script) {
        Ok(text) => keep_and_write(alloc, &db, opening, text, files),
        Err(_) => Reply::NoMemory,
    }
}

/// Writes the program of an INPUT over a base.
pub fn reply_to_program_over<F: Store>(
    alloc: Global,
    wanted: Wanted,
    input: &Text,
    opening: &Opening,
    files: &mut F,
) -> Reply
    ensures answer { let old : Stored = record { files = F.files files.old; counts = F.counts files.old } in
        let new : Stored = record { files = F.files files.new; counts = F.counts files.new } in
        RepliesFor (WriteOver wanted input.now opening.now) old new result }
    ensures counts { (r : Role) → NoneFalls (F.counts files.old r) (F.counts files.new r) }
{
    written_is_sound();
    let (text, mut db) = match opened(alloc, input, opening, files) {
        Ok(found) => found,
        Err(reply) => return reply,
    };
    match print_over(alloc, &mut db, wanted, &text) {
        Ok(Made::Writes(text)) => keep_and_write(alloc, &db, opening, text, files),
        Ok(Made::Refuses(line, code, keyword)) => stopping(
            Status::Refused(line, code),
            refusal_line(alloc, line, code, &keyword),
        ),
        Err(_) => Reply::NoMemory,
    }
}
