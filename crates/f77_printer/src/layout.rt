//! The lines of a statement in fixed form.
ghost use Rattle.std.specs.Prelude.{◌≡◌, ◌++◌, ◌-◌, OnOk, IfOk, replicate, false};
ghost use Rattle.f77_printer.specs.Layout.{label_field, over_lines, stripped, statement_lines};

use fx_lists::Text;
use std::alloc::{AllocError as Memory, Global};

/// Columns 1 to 6 of the first line.
#[tactic(auto, using(crate::proofs::TextLemmas::fill_steps))]
fn write_label(alloc: Global, out: &mut Text, label: Option<u32>) -> Result<(), Memory>
    ensures { OnOk result (out.new ≡ out.old ++ label_field label) }
{
    match label {
        None => out.append(b"      "),
        Some(label) => {
            let text = format!(in alloc; "{label}")?;
            out.append(text.as_bytes())?;
            fill(out, text.len())
        }
    }
}

/// Blanks up to column 6.
#[tactic(auto, using(crate::proofs::TextLemmas::fill_steps))]
fn fill(out: &mut Text, used: usize) -> Result<(), Memory>
    ensures { OnOk result (out.new ≡ out.old ++ replicate (6 - used) 32) }
{
    let mut columns = used;
    while columns < 6 {
        out.push(b' ')?;
        columns += 1;
    }
    Ok(())
}

/// A text from column 7 on, with its continuation lines.
#[tactic(auto, using(crate::proofs::TextLemmas::char_steps))]
fn write_over_lines(out: &mut Text, text: &[u8]) -> Result<(), Memory>
    ensures { OnOk result (out.new ≡ out.old ++ over_lines 0 text.now) }
{
    let mut used = 0usize;
    for c in text {
        if used == 66 {
            out.append(b"\n     &")?;
            used = 0;
        }
        out.push(*c)?;
        used += 1;
    }
    out.push(b'\n')
}

/// A text without the blanks outside its character constants.
#[tactic(auto, using(crate::proofs::TextLemmas::char_steps))]
fn strip(alloc: Global, text: &[u8]) -> Result<Text, Memory>
    ensures { IfOk result (λ t. t ≡ stripped false text.now) }
{
    let mut kept = Text::new(alloc);
    let mut inside = false;
    for c in text {
        if *c == b'\'' {
            inside = !inside;
        }
        if inside || *c != b' ' {
            kept.push(*c)?;
        }
    }
    Ok(kept)
}

/// Appends the lines of a statement in fixed form (ANSI X3.9-1978, §3.2), each ended by LF: its label from column 1 on, 66
/// characters of its text from column 7 on, `&` in column 6 of a continuation line. A text of more than 1320 characters, which
/// twenty lines do not hold, first loses its blanks outside character constants.
pub fn write_lines(
    alloc: Global,
    out: &mut Text,
    label: Option<u32>,
    text: &Text,
) -> Result<(), Memory>
    ensures { OnOk result (out.new ≡ out.old ++ statement_lines label text.now) }
{
    write_label(alloc, out, label)?;
    if text.len() > 1320 {
        let text = strip(alloc, text.as_slice())?;
        write_over_lines(out, text.as_slice())
    } else {
        write_over_lines(out, text.as_slice())
    }
}
