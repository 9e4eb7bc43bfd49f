//! Refusals of the database.
ghost use Rattle.std.specs.Prelude.{◌≡◌, ◌≢◌, ◌++◌, OnOk};
ghost use Rattle.pipsmake_db.specs.Answers.{refusal_line};

use crate::DbRefusal;
use fx_lists::Text;
use session_texts::{Refusal, write_refused};
use std::alloc::{AllocError as Memory, Global};

/// Appends the line of a refusal. Err where that is want of memory, too.
pub fn write_refusal(alloc: Global, out: &mut Text, refusal: DbRefusal) -> Result<(), Memory>
    ensures line { OnOk result (out.new ≡ out.old ++ refusal_line refusal) }
    ensures said { OnOk result (refusal ≢ DbRefusal.Memory) }
{
    match refusal {
        DbRefusal::NoSuchKind => write_refused(alloc, out, &Refusal::NoSuchKind),
        DbRefusal::NoSuchName => write_refused(alloc, out, &Refusal::NoSuchName),
        DbRefusal::NotShown => write_refused(alloc, out, &Refusal::NotShown),
        DbRefusal::Source(line, code, _) => write_refused(alloc, out, &Refusal::Source(line, code)),
        DbRefusal::Link(name, line, _, code) => {
            write_refused(alloc, out, &Refusal::Links(name, line, code))
        }
        DbRefusal::Memory => Err(Memory),
    }
}

/// The want of memory that a refusal is.
pub fn memory_of(refusal: DbRefusal) -> Memory
    requires { refusal ≡ DbRefusal.Memory }
{
    match refusal {
        DbRefusal::NoSuchKind
        | DbRefusal::NoSuchName
        | DbRefusal::NotShown
        | DbRefusal::Source(..)
        | DbRefusal::Link(..) => unreachable!(),
        DbRefusal::Memory => Memory,
    }
}
