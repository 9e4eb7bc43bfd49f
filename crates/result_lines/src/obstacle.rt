//! What is written of the obstacle of a serial loop.
ghost use Rattle.std.specs.Prelude.{◌≡◌, ◌++◌, IfOk};
ghost use Rattle.result_lines.specs.MarkText.{kinds_text as kinds_text_is, all_kinds_text, private_text as private_text_is, reason_text, obstacle_line as obstacle_line_is};

use f77_ast::{Kinds, Private, Reason};
use fx_lists::{List, Text};
use region_sets::put_variable;
use std::alloc::{AllocError as Memory, Global};

fn kinds_text(kinds: Kinds) -> &'static [u8]
    ensures { result.now ≡ kinds_text_is kinds }
{
    match kinds {
        Kinds::WriteRead => b" W-R",
        Kinds::ReadWrite => b" R-W",
        Kinds::WriteWrite => b" W-W",
    }
}

fn private_text(private: Private) -> &'static [u8]
    ensures { result.now ≡ private_text_is private }
{
    match private {
        Private::Yes => b" Yes",
        Private::Name => b" Name",
        Private::Carried => b" Carried",
        Private::Live => b" Live",
    }
}

#[tactic(auto, using(std::proofs::Common::append_assoc))]
fn put_kinds(out: &mut Text, kinds: &[Kinds]) -> Result<(), Memory>
    ensures { IfOk result (λ _. out.new ≡ out.old ++ all_kinds_text kinds.now) }
{
    let mut rest = kinds;
    while let [k, more @ ..] = rest {
        out.append(kinds_text(*k))?;
        rest = more;
    }
    Ok(())
}

#[tactic(auto, using(std::proofs::Common::append_assoc))]
fn put_reason(out: &mut Text, names: &[Text], reason: &Reason) -> Result<(), Memory>
    ensures { IfOk result (λ _. out.new ≡ out.old ++ reason_text names.now reason.now) }
{
    match reason {
        Reason::Jump => out.append(b"Jump"),
        Reason::InputOutput => out.append(b"InputOutput"),
        Reason::Step => out.append(b"Step"),
        Reason::Index => out.append(b"Index"),
        Reason::Carries(v, kinds, private) => {
            put_variable(out, names, v)?;
            put_kinds(out, kinds.as_slice())?;
            out.append(private_text(*private))
        }
    }
}

/// The line of an obstacle, as `C> SERIAL A W-R Carried`.
pub fn obstacle_line(alloc: Global, names: &[Text], reason: &Reason) -> Result<Text, Memory>
    ensures { IfOk result (λ t. t ≡ obstacle_line_is names.now reason.now) }
{
    let mut line = Text::from_bytes(alloc, b"C> SERIAL ")?;
    put_reason(&mut line, names, reason)?;
    Ok(line)
}
