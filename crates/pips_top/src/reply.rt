//! What a run replies, before anything is written.
ghost use Rattle.std.specs.Prelude.{◌≡◌};
ghost use Rattle.fx_base.specs.declared.store.Role.TheVariants.{Input};
ghost use Rattle.fx_base.specs.Store.{OnlyCounts};
ghost use Rattle.pips_top.specs.Jobs.{job_in};
ghost use Rattle.pips_top.specs.Made.{counted};
ghost use Rattle.pips_top.specs.declared.job.Job.TheVariants.{Answer, Write};
ghost use Rattle.pips_top.specs.Run.{CountsBy, Stored};
ghost use Rattle.pips_top.specs.Replies.{RepliesBy, RepliesFor, RepliesWith, StopsOr};

use crate::Status;
use crate::job::{Job, job_of};
use crate::make::{Made, count_sample, make};
use crate::over::{reply_to_program_over, reply_to_script_over};
use crate::session::answer_first;
use crate::status::{naming_line, refusal_line, usage_line};
use crate::wanted::Wanted;
use fx_base::{Fetched, Role, Store, Words};
use fx_lists::Text;
use pipsmake_base::result_lines::Show;
use std::alloc::{AllocError as Memory, Global};

/// What a run answers, before anything is written.
pub enum Reply {
    /// The text to be written on out.
    Writing(Text),
    /// A status other than `Done`, with its line on err.
    Stopping(Status, Text),
    /// No memory; its line takes none.
    NoMemory,
}

/// A status with its line, where there is memory for it.
pub fn stopping(status: Status, line: Result<Text, Memory>) -> Reply
    ensures { StopsOr status line result }
{
    match line {
        Ok(line) => Reply::Stopping(status, line),
        Err(_) => Reply::NoMemory,
    }
}

/// What was made is to be written, or refused.
pub fn reply_with(alloc: Global, made: Made) -> Reply
    ensures { RepliesWith made result }
{
    match made {
        Made::Writes(text) => Reply::Writing(text),
        Made::Refuses(line, code, keyword) => stopping(
            Status::Refused(line, code),
            refusal_line(alloc, line, code, &keyword),
        ),
    }
}

/// Fetches the INPUT of a name, of at most 2^20 bytes, and makes the text to be written of its program.
fn reply_to_program<F: Store>(alloc: Global, wanted: Wanted, name: &Text, files: &mut F) -> Reply
    ensures answer { let old : Stored = record { files = F.files files.old; counts = F.counts files.old } in
        let new : Stored = record { files = F.files files.new; counts = F.counts files.new } in
        RepliesFor (Write wanted name.now) old new result }
    ensures files { F.files files.new ≡ F.files files.old }
    ensures counts { OnlyCounts (F.counts files.old) (F.counts files.new) Input }
{
    match files.fetch(alloc, Role::Input, name, 1_048_576) {
        Fetched::Got(text) => match make(alloc, wanted, &text) {
            Ok(made) => reply_with(alloc, made),
            Err(_) => Reply::NoMemory,
        },
        Fetched::Absent => stopping(
            Status::NoInput,
            naming_line(alloc, b"pips: no input ", name),
        ),
        Fetched::TooLong => stopping(
            Status::TooLong,
            naming_line(alloc, b"pips: too long ", name),
        ),
        Fetched::Failed => stopping(
            Status::ReadFault,
            naming_line(alloc, b"pips: cannot read ", name),
        ),
        Fetched::Memory => Reply::NoMemory,
    }
}

/// Fetches the INPUT of a name, of at most 2^20 bytes, and answers the commands of its script.
fn reply_to_script<F: Store>(alloc: Global, show: Show, input: &Text, files: &mut F) -> Reply
    ensures answer { let old : Stored = record { files = F.files files.old; counts = F.counts files.old } in
        let new : Stored = record { files = F.files files.new; counts = F.counts files.new } in
        RepliesFor (Answer show input.now) old new result }
    ensures files { F.files files.new ≡ F.files files.old }
    ensures counts { OnlyCounts (F.counts files.old) (F.counts files.new) Input }
{
    match files.fetch(alloc, Role::Input, input, 1_048_576) {
        Fetched::Got(script) => match answer_first(alloc, show, &script) {
            Ok(text) => Reply::Writing(text),
            Err(_) => Reply::NoMemory,
        },
        Fetched::Absent => stopping(
            Status::NoInput,
            naming_line(alloc, b"pips: no input ", input),
        ),
        Fetched::TooLong => stopping(
            Status::TooLong,
            naming_line(alloc, b"pips: too long ", input),
        ),
        Fetched::Failed => stopping(
            Status::ReadFault,
            naming_line(alloc, b"pips: cannot read ", input),
        ),
        Fetched::Memory => Reply::NoMemory,
    }
}

/// Counts the sample program of this many parts.
fn reply_to_count(alloc: Global, parts: u8) -> Reply
    ensures { RepliesWith (counted parts) result }
{
    match count_sample(alloc, parts) {
        Ok(made) => reply_with(alloc, made),
        Err(_) => Reply::NoMemory,
    }
}

/// Does what the words of the command request, up to the text to be written; or the status, with its line, that ends the run.
pub fn reply_to<F: Store>(alloc: Global, words: &Words, files: &mut F) -> Reply
    ensures answer { let old : Stored = record { files = F.files files.old; counts = F.counts files.old } in
        let new : Stored = record { files = F.files files.new; counts = F.counts files.new } in
        RepliesBy words.now old new result }
    ensures counts { let old : Stored = record { files = F.files files.old; counts = F.counts files.old } in
        let new : Stored = record { files = F.files files.new; counts = F.counts files.new } in
        CountsBy (job_in words.now) old new }
{
    match job_of(alloc, words) {
        Ok(Some(Job::Write(wanted, name))) => reply_to_program(alloc, wanted, &name, files),
        Ok(Some(Job::Answer(show, name))) => reply_to_script(alloc, show, &name, files),
        Ok(Some(Job::Count(parts))) => reply_to_count(alloc, parts),
        Ok(Some(Job::WriteOver(wanted, name, opening))) => {
            reply_to_program_over(alloc, wanted, &name, &opening, files)
        }
        Ok(Some(Job::AnswerOver(show, name, opening))) => {
            reply_to_script_over(alloc, show, &name, &opening, files)
        }
        Ok(None) => stopping(Status::Usage, usage_line(alloc)),
        Err(_) => Reply::NoMemory,
    }
}
