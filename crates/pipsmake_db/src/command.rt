//! The answer to a command.
ghost use Rattle.std.specs.Prelude.{◌≡◌, ◌≤◌, Some, length, OnOk};
ghost use Rattle.session_texts.specs.pipsmake_rules.Kinds.{kind_with};
ghost use Rattle.session_texts.specs.Commands.{IsWithin};
ghost use Rattle.result_lines.specs.declared.show.Show.{Show};
ghost use Rattle.pipsmake_db.specs.AnswerSteps.{Answers};

use crate::Db;
use crate::print::print_all;
use crate::refuse::write_refusal;
use fx_lists::Text;
use result_lines::Show;
use session_texts::pipsmake_rules::{Key, Kind};
use session_texts::{
    Command, Refusal, write_dropped, write_made, write_ok, write_refused, write_source, write_text,
};
use std::alloc::{AllocError as Memory, Global};

fn answer_source(alloc: Global, db: &mut Db, text: &Text, out: &mut Text) -> Result<(), Memory>
    requires { length text.now ≤ 16777216 }
    ensures { OnOk result ((show : Show) → Answers show (Command.Source text.now) db.old db.new out.old out.new) }
{
    match db.replace(alloc, text) {
        Ok(names) => write_source(out, names.as_slice()),
        Err(refusal) => write_refusal(alloc, out, refusal),
    }
}

fn answer_drop(alloc: Global, db: &mut Db, name: &Text, out: &mut Text) -> Result<(), Memory>
    ensures { OnOk result ((show : Show) → Answers show (Command.Drop name.now) db.old db.new out.old out.new) }
{
    match db.drop_module(alloc, name) {
        Ok(()) => write_dropped(out, name),
        Err(refusal) => write_refusal(alloc, out, refusal),
    }
}

/// The kind of a name.
fn kind_with(name: &Text) -> Option<Kind>
    ensures { result ≡ kind_with name.now }
{
    Kind::with_name(name.as_slice())
}

/// Makes a result, of which `kind` is the name of the kind.
fn make_key(
    alloc: Global,
    db: &mut Db,
    kind: &Text,
    key: &Key,
    out: &mut Text,
) -> Result<(), Memory>
    requires { kind_with kind.now ≡ Some key.now.kind }
    ensures { OnOk result ((show : Show) → Answers show (Command.Make kind.now key.now.name) db.old db.new out.old out.new) }
{
    match db.make(alloc, kind, &key.name) {
        Ok(made) => {
            write_made(out, made.as_slice())?;
            write_ok(out, key)
        }
        Err(refusal) => write_refusal(alloc, out, refusal),
    }
}

fn answer_make(
    alloc: Global,
    db: &mut Db,
    kind: &Text,
    name: &Text,
    out: &mut Text,
) -> Result<(), Memory>
    ensures { OnOk result ((show : Show) → Answers show (Command.Make kind.now name.now) db.old db.new out.old out.new) }
{
    match kind_with(kind) {
        None => write_refused(alloc, out, &Refusal::NoSuchKind),
        Some(found) => {
            let key = Key {
                kind: found,
                name: name.clone()?,
            };
            make_key(alloc, db, kind, &key, out)
        }
    }
}

fn answer_show(
    alloc: Global,
    db: &mut Db,
    show: Show,
    kind: &Text,
    name: &Text,
    out: &mut Text,
) -> Result<(), Memory>
    ensures { OnOk result (Answers show (Command.Show kind.now name.now) db.old db.new out.old out.new) }
{
    match db.value(alloc, kind, name, show) {
        Ok(shown) => {
            write_made(out, shown.made.as_slice())?;
            out.append(shown.text.as_slice())
        }
        Err(refusal) => write_refusal(alloc, out, refusal),
    }
}

fn answer_print(alloc: Global, db: &mut Db, show: Show, out: &mut Text) -> Result<(), Memory>
    ensures { OnOk result (Answers show Command.Print db.old db.new out.old out.new) }
{
    match db.link(alloc) {
        Ok(()) => {
            let prints = print_all(alloc, db, show)?;
            out.append(prints.made.as_slice())?;
            write_text(alloc, out, &prints.text)
        }
        Err(refusal) => write_refusal(alloc, out, refusal),
    }
}

/// Answers a command of a script: changes the database as the command says, and appends the lines of the answer. A command that is refused changes nothing and
/// appends one line. Err is want of memory: a part of the answer may then be appended, and the command may have been carried out, or results made for it.
pub fn answer_command(
    alloc: Global,
    db: &mut Db,
    show: Show,
    command: &Command,
    out: &mut Text,
) -> Result<(), Memory>
    requires { IsWithin 16777216 command.now }
    ensures { OnOk result (Answers show command.now db.old db.new out.old out.new) }
{
    match command {
        Command::Source(text) => answer_source(alloc, db, text, out),
        Command::Drop(name) => answer_drop(alloc, db, name, out),
        Command::Make(kind, name) => answer_make(alloc, db, kind, name, out),
        Command::Show(kind, name) => answer_show(alloc, db, show, kind, name, out),
        Command::Print => answer_print(alloc, db, show, out),
        Command::Bad => write_refused(alloc, out, &Refusal::BadCommand),
        Command::Short => write_refused(alloc, out, &Refusal::ShortSource),
    }
}
