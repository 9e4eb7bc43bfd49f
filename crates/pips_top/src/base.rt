//! The base of a run: opened before the work, kept after it.
ghost use Rattle.std.specs.Prelude.{◌≡◌, IfOk};
ghost use Rattle.pipsmake_base.specs.base_text.Grammar.{IsBase};
ghost use Rattle.fx_base.specs.declared.store.Role.TheVariants.{Base as BaseRole};
ghost use Rattle.fx_base.specs.Store.{OnlyBaseFaults, OnlyCounts};
ghost use Rattle.pips_top.specs.Replies.{BadBaseOr, BaseOr, KeptOr, OpenedOr, VerifiedOr};
ghost use Rattle.pips_top.specs.Run.{Stored};

use crate::Status;
use crate::job::Opening;
use crate::reply::{Reply, stopping};
use crate::status::{base_line, naming_line, stale_line};
use fx_base::{Fetched, Kept, Role, Store};
use fx_lists::{List, Text};
use pipsmake_base::base_text::{Base, BaseRefusal, base_read, kept_text, read_is_in_grammar};
use pipsmake_base::{bases_are_modules, first_stale};
use std::alloc::Global;

/// What is replied where a file is no base.
fn bad_base(alloc: Global, name: &Text, refusal: &BaseRefusal) -> Reply
    ensures { BadBaseOr name.now refusal.now result }
{
    match refusal.number() {
        Some(code) => stopping(Status::BadBase(code), base_line(alloc, name, refusal)),
        None => Reply::NoMemory,
    }
}

/// Fetches the base of a name, of at most 2^24 bytes; without a file it is empty. Err is what is replied where it is not got or no base.
fn base_of<F: Store>(alloc: Global, opening: &Opening, files: &mut F) -> Result<Base, Reply>
    ensures answer { let old : Stored = record { files = F.files files.old; counts = F.counts files.old } in
        let new : Stored = record { files = F.files files.new; counts = F.counts files.new } in
        OpenedOr old new opening.now result }
    ensures grammar { IfOk result IsBase }
    ensures files { F.files files.new ≡ F.files files.old }
    ensures counts { OnlyCounts (F.counts files.old) (F.counts files.new) BaseRole }
{
    read_is_in_grammar();
    bases_are_modules();
    let name = &opening.name;
    match files.fetch(alloc, Role::Base, name, 16_777_216) {
        Fetched::Got(text) => match base_read(alloc, &text) {
            Ok(base) => Ok(base),
            Err(refusal) => Err(bad_base(alloc, name, &refusal)),
        },
        Fetched::Absent => Ok(Base {
            modules: List::new(alloc),
            results: List::new(alloc),
        }),
        Fetched::TooLong => Err(stopping(
            Status::TooLong,
            naming_line(alloc, b"pips: too long ", name),
        )),
        Fetched::Failed => Err(stopping(
            Status::BaseFault,
            naming_line(alloc, b"pips: cannot use base ", name),
        )),
        Fetched::Memory => Err(Reply::NoMemory),
    }
}

/// A base that is to be verified, where each of its results is what is defined for its texts. Err is what is replied where one is not.
fn verified(alloc: Global, base: Base, verify: bool) -> Result<Base, Reply>
    requires { IsBase base }
    ensures answer { VerifiedOr base verify result }
{
    if !verify {
        return Ok(base);
    }
    match first_stale(alloc, &base) {
        Ok(None) => Ok(base),
        Ok(Some(key)) => Err(stopping(Status::StaleBase, stale_line(alloc, &key))),
        Err(_) => Err(Reply::NoMemory),
    }
}

/// Fetches a base, and verifies it where that is requested. Err is what is replied where it is not got, no base, or stale.
pub fn open_base<F: Store>(alloc: Global, opening: &Opening, files: &mut F) -> Result<Base, Reply>
    ensures answer { let old : Stored = record { files = F.files files.old; counts = F.counts files.old } in
        let new : Stored = record { files = F.files files.new; counts = F.counts files.new } in
        BaseOr old new opening.now result }
    ensures grammar { IfOk result IsBase }
    ensures files { F.files files.new ≡ F.files files.old }
    ensures counts { OnlyCounts (F.counts files.old) (F.counts files.new) BaseRole }
{
    match base_of(alloc, opening, files) {
        Ok(base) => verified(alloc, base, opening.verify),
        Err(reply) => Err(reply),
    }
}

/// Keeps a base under a name, within 2^24 bytes: whole, or without results. Some is what is replied where that fails; its line is made before any file changes.
pub fn keep_base<F: Store>(alloc: Global, left: &Base, name: &Text, files: &mut F) -> Option<Reply>
    ensures answer { let old : Stored = record { files = F.files files.old; counts = F.counts files.old } in
        let new : Stored = record { files = F.files files.new; counts = F.counts files.new } in
        KeptOr old new name.now left.now result }
    ensures counts { OnlyBaseFaults (F.counts files.old) (F.counts files.new) }
{
    let Ok(failure) = naming_line(alloc, b"pips: cannot use base ", name) else {
        return Some(Reply::NoMemory);
    };
    match kept_text(alloc, left, 16_777_216) {
        Ok(Some(text)) => match files.keep(name, &text) {
            Kept::Done => None,
            Kept::Failed => Some(Reply::Stopping(Status::BaseFault, failure)),
            Kept::Memory => Some(Reply::NoMemory),
        },
        Ok(None) => Some(stopping(
            Status::TooLong,
            naming_line(alloc, b"pips: too long ", name),
        )),
        Err(_) => Some(Reply::NoMemory),
    }
}
