//! The lines that answer commands. On Err a part of what is appended may stand there.
ghost use Rattle.std.specs.Prelude.{◌≡◌, ◌++◌, OnOk};
ghost use Rattle.session_texts.specs.Answers.{spaced, source_line, dropped_line, key_line, made_lines, ok_line, line_count, text_with_count};

use fx_lists::Text;
use pipsmake_rules::Key;
use std::alloc::{AllocError as Memory, Global};

/// Appends names, each after a blank.
#[tactic(auto, using(crate::proofs::TextLemmas::text_steps))]
fn write_spaced(out: &mut Text, names: &[Text]) -> Result<(), Memory>
    ensures { OnOk result (out.new ≡ out.old ++ spaced names.now) }
{
    let mut rest = names;
    while let [name, more @ ..] = rest {
        out.push(b' ')?;
        out.append(name.as_slice())?;
        rest = more;
    }
    Ok(())
}

/// Appends `source`, the names of the modules that were read, and the end of the line.
#[tactic(auto, using(crate::proofs::TextLemmas::text_steps))]
pub fn write_source(out: &mut Text, names: &[Text]) -> Result<(), Memory>
    ensures { OnOk result (out.new ≡ out.old ++ source_line names.now) }
{
    out.append(b"source")?;
    write_spaced(out, names)?;
    out.push(b'\n')
}

/// Appends the line `dropped NAME`.
#[tactic(auto, using(crate::proofs::TextLemmas::text_steps))]
pub fn write_dropped(out: &mut Text, name: &Text) -> Result<(), Memory>
    ensures { OnOk result (out.new ≡ out.old ++ dropped_line name.now) }
{
    out.append(b"dropped ")?;
    out.append(name.as_slice())?;
    out.push(b'\n')
}

/// Appends a word, the kind and the name of a result, and the end of the line.
#[tactic(auto, using(crate::proofs::TextLemmas::text_steps))]
fn write_key(out: &mut Text, word: &[u8], key: &Key) -> Result<(), Memory>
    ensures { OnOk result (out.new ≡ out.old ++ key_line word.now key.now) }
{
    out.append(word)?;
    out.push(b' ')?;
    out.append(key.kind.name().as_bytes())?;
    out.push(b' ')?;
    out.append(key.name.as_slice())?;
    out.push(b'\n')
}

/// Appends a line `made KIND NAME` for each of these results, in order.
#[tactic(auto, using(crate::proofs::TextLemmas::text_steps))]
pub fn write_made(out: &mut Text, keys: &[Key]) -> Result<(), Memory>
    ensures { OnOk result (out.new ≡ out.old ++ made_lines keys.now) }
{
    let mut rest = keys;
    while let [key, more @ ..] = rest {
        write_key(out, b"made", key)?;
        rest = more;
    }
    Ok(())
}

/// Appends the line `ok KIND NAME`.
pub fn write_ok(out: &mut Text, key: &Key) -> Result<(), Memory>
    ensures { OnOk result (out.new ≡ out.old ++ ok_line key.now) }
{
    write_key(out, b"ok", key)
}

/// The number of LFs in a text.
fn line_count(text: &[u8]) -> usize
    ensures { result ≡ line_count text.now }
{
    text.iter().filter(|b| **b == b'\n').count()
}

/// Appends `text`, the number of lines of a text, of which each ends with LF, the end of the line, and then the text.
#[tactic(auto, using(crate::proofs::TextLemmas::text_steps))]
pub fn write_text(alloc: Global, out: &mut Text, text: &Text) -> Result<(), Memory>
    ensures { OnOk result (out.new ≡ out.old ++ text_with_count text.now) }
{
    let count = line_count(text.as_slice());
    let start = format!(in alloc; "text {count}\n")?;
    out.append(start.as_bytes())?;
    out.append(text.as_slice())
}
