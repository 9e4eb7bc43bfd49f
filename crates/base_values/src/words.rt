//! The words of stored results.
ghost use Rattle.std.specs.Prelude.{◌≡◌};
ghost use Rattle.base_values.specs.Words.{access_named as access_named_is, result_with as result_with_is, conflict_word as conflict_word_is, conflict_named as conflict_named_is, answer_word as answer_word_is, answer_named as answer_named_is, reason_named as reason_named_is};

use f77_ast::{Kinds, Private, Reason};
use pipsmake_rules::Kind;
use region_sets::Access;

pub fn access_named(word: &str) -> Option<Access>
    ensures { result ≡ access_named_is word.now }
{
    if word == "READ" {
        Some(Access::Read)
    } else if word == "WRITE" {
        Some(Access::Write)
    } else if word == "IN" {
        Some(Access::In)
    } else if word == "OUT" {
        Some(Access::Out)
    } else {
        None
    }
}

/// The kind of result that has such regions.
pub fn result_with(access: Access) -> Kind
    ensures { result ≡ result_with_is access }
{
    match access {
        Access::Read | Access::Write => Kind::Regions,
        Access::In => Kind::InRegions,
        Access::Out => Kind::OutRegions,
    }
}

pub fn conflict_word(kind: Kinds) -> &'static str
    ensures { result.now ≡ conflict_word_is kind }
{
    match kind {
        Kinds::WriteRead => "W-R",
        Kinds::ReadWrite => "R-W",
        Kinds::WriteWrite => "W-W",
    }
}

pub fn conflict_named(word: &str) -> Option<Kinds>
    ensures { result ≡ conflict_named_is word.now }
{
    if word == "W-R" {
        Some(Kinds::WriteRead)
    } else if word == "R-W" {
        Some(Kinds::ReadWrite)
    } else if word == "W-W" {
        Some(Kinds::WriteWrite)
    } else {
        None
    }
}

pub fn answer_word(answer: Private) -> &'static str
    ensures { result.now ≡ answer_word_is answer }
{
    match answer {
        Private::Yes => "Yes",
        Private::Name => "Name",
        Private::Carried => "Carried",
        Private::Live => "Live",
    }
}

pub fn answer_named(word: &str) -> Option<Private>
    ensures { result ≡ answer_named_is word.now }
{
    if word == "Yes" {
        Some(Private::Yes)
    } else if word == "Name" {
        Some(Private::Name)
    } else if word == "Carried" {
        Some(Private::Carried)
    } else if word == "Live" {
        Some(Private::Live)
    } else {
        None
    }
}

/// A reason that names no variable.
pub fn reason_named(word: &str) -> Option<Reason>
    ensures { result ≡ reason_named_is word.now }
{
    if word == "Jump" {
        Some(Reason::Jump)
    } else if word == "InputOutput" {
        Some(Reason::InputOutput)
    } else if word == "Step" {
        Some(Reason::Step)
    } else if word == "Index" {
        Some(Reason::Index)
    } else {
        None
    }
}
