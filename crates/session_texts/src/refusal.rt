//! Why a command is refused, and the line that says so.
ghost use Rattle.std.specs.Prelude.{◌≡◌, ◌++◌, OnOk};
ghost use Rattle.session_texts.specs.Refusals.{number_of, name_or_nothing, word_of, place_of, refused_line};
ghost use Rattle.fx_lists.specs.Refusals.{code_numbered};

use fx_lists::{Code, Text};
use std::alloc::{AllocError as Memory, Global};

/// Why a command is refused. Codes are those of `fx_lists`; lines count from 1.
#[derive(Drop)]
pub enum Refusal {
    /// A source text is not accepted: the line in it, and the code.
    Source(u32, u32),
    /// The modules do not link: the name of one, the line in its text, and the code.
    Links(Text, u32, u32),
    /// There is no such kind of results.
    NoSuchKind,
    /// There is no module of this name.
    NoSuchName,
    /// Results of this kind are not shown.
    NotShown,
    /// A line of the script is no command.
    BadCommand,
    /// A source has fewer lines than it says.
    ShortSource,
}

impl Refusal {
    /// The number of its code.
    fn number(&self) -> u32
        ensures { result ≡ number_of self.now }
    {
        match self {
            Refusal::Source(_, code) | Refusal::Links(_, _, code) => *code,
            Refusal::NoSuchKind => 70,
            Refusal::NoSuchName => 71,
            Refusal::NotShown => 72,
            Refusal::BadCommand => 80,
            Refusal::ShortSource => 81,
        }
    }

    /// The name of its code; empty where no code has the number.
    fn word(&self) -> &'static str
        ensures { result.now ≡ word_of self.now }
    {
        match self {
            Refusal::Source(_, code) | Refusal::Links(_, _, code) => name_of(*code),
            Refusal::NoSuchKind => "NoSuchKind",
            Refusal::NoSuchName => "NoSuchName",
            Refusal::NotShown => "NotShown",
            Refusal::BadCommand => "BadCommand",
            Refusal::ShortSource => "ShortSource",
        }
    }
}

/// The name of the code with this number.
fn name_of(code: u32) -> &'static str
    ensures { result.now ≡ name_or_nothing (code_numbered code) }
{
    match Code::with_number(code) {
        Some(code) => code.name(),
        None => "",
    }
}

/// Appends the line that is meant, and the module in whose text it stands.
#[tactic(auto, using(crate::proofs::TextLemmas::text_steps))]
fn write_place(alloc: Global, out: &mut Text, refusal: &Refusal) -> Result<(), Memory>
    ensures { OnOk result (out.new ≡ out.old ++ place_of refusal.now) }
{
    match refusal {
        Refusal::Source(line, _) => {
            let line = format!(in alloc; " line {line}")?;
            out.append(line.as_bytes())
        }
        Refusal::Links(name, line, code) => {
            if *code == Code::NoMain.number() {
                return Ok(());
            }
            let line = format!(in alloc; " line {line} of ")?;
            out.append(line.as_bytes())?;
            out.append(name.as_slice())
        }
        Refusal::NoSuchKind
        | Refusal::NoSuchName
        | Refusal::NotShown
        | Refusal::BadCommand
        | Refusal::ShortSource => Ok(()),
    }
}

/// Appends the line of a refusal, `refused CODE WORD`: ` line L` follows where a source text is not accepted, ` line L of NAME` where modules
/// do not link, but for the code that there is no main program. On Err a part of the line may stand there.
#[tactic(auto, using(crate::proofs::TextLemmas::text_steps))]
pub fn write_refused(alloc: Global, out: &mut Text, refusal: &Refusal) -> Result<(), Memory>
    ensures { OnOk result (out.new ≡ out.old ++ refused_line refusal.now) }
{
    let number = refusal.number();
    let word = refusal.word();
    let start = format!(in alloc; "refused {number} {word}")?;
    out.append(start.as_bytes())?;
    write_place(alloc, out, refusal)?;
    out.push(b'\n')
}
