//! How a run ended, its exit number, and its line on err.
ghost use Rattle.std.specs.Prelude.{◌≡◌, ◌++◌, IfOk, OnOk};
ghost use Rattle.pips_top.specs.Codes.{code_name};
ghost use Rattle.pips_top.specs.Status.{base_line, base_word, keyword_text, naming, number_of, refusal_line, stale_line, usage_line};

use fx_lists::{Code, Text};
use pipsmake_base::base_text::BaseRefusal;
use pipsmake_base::pipsmake_rules::Key;
use std::alloc::{AllocError as Memory, Global};

/// How a run ended. `BadBase` has the code of what is wrong with the base.
#[derive(Clone, Copy, Debug, PartialEq, Eq)]
pub enum Status {
    /// The text was written.
    Done,
    /// INPUT has a refusal: its line, from 1, and its code.
    Refused(u32, u32),
    /// The words of the command are refused.
    Usage,
    /// There is no such INPUT.
    NoInput,
    /// INPUT has more than 2^20 bytes.
    TooLong,
    /// INPUT cannot be read.
    ReadFault,
    /// The text cannot be written, or not all of it.
    WriteFault,
    /// The file of the base is no base, by this code.
    BadBase(u32),
    /// The base was to be verified, and holds a result that is not what is defined for its texts.
    StaleBase,
    /// The file of the base cannot be read or written.
    BaseFault,
    /// Out of memory.
    Memory,
}

impl Status {
    /// The exit code, from 0 for `Done` to 10 for `Memory`, in the order of the variants. Takes no memory.
    pub fn number(&self) -> u8
        ensures { result ≡ number_of self.now }
    {
        match self {
            Status::Done => 0,
            Status::Refused(..) => 1,
            Status::Usage => 2,
            Status::NoInput => 3,
            Status::TooLong => 4,
            Status::ReadFault => 5,
            Status::WriteFault => 6,
            Status::BadBase(_) => 7,
            Status::StaleBase => 8,
            Status::BaseFault => 9,
            Status::Memory => 10,
        }
    }
}

/// The line on err of `Usage`, with its end of line.
pub fn usage_line(alloc: Global) -> Result<Text, Memory>
    ensures { IfOk result (λ line. line ≡ usage_line) }
{
    Text::from_bytes(
        alloc,
        b"usage: pips [--show all|bare|why] [--base NAME] [--verify] [--session] [--generate N] [--reductions] [--bounds] [INPUT]\n",
    )
}

/// A line on err that names INPUT or the base: the words, the name and the end of line.
pub fn naming_line(alloc: Global, words: &[u8], name: &Text) -> Result<Text, Memory>
    ensures { IfOk result (λ line. line ≡ naming words.now name.now) }
{
    let mut line = Text::from_bytes(alloc, words)?;
    line.append(name.as_slice())?;
    line.append(b"\n")?;
    Ok(line)
}

/// The name of the code with this number.
fn code_name(code: u32) -> &'static str
    ensures { result.now ≡ code_name code }
{
    match Code::with_number(code) {
        Some(code) => code.name(),
        None => "",
    }
}

/// A keyword behind a blank, where there is one.
fn write_keyword(out: &mut Text, keyword: &[u8]) -> Result<(), Memory>
    ensures { OnOk result (out.new ≡ out.old ++ keyword_text keyword.now) }
{
    match keyword {
        [] => Ok(()),
        [_, ..] => {
            out.push(b' ')?;
            out.append(keyword)
        }
    }
}

/// The line on err of a refusal, with its end of line: `pips: line `, its line, its code, the name of the code, and the keyword of what is
/// outside the accepted subset, where there is one.
#[tactic(auto, using(crate::proofs::Joining::text_steps))]
pub fn refusal_line(alloc: Global, line: u32, code: u32, keyword: &Text) -> Result<Text, Memory>
    ensures { IfOk result (λ text. text ≡ refusal_line line code keyword.now) }
{
    let name = code_name(code);
    let start = format!(in alloc; "pips: line {line}: {code} {name}")?;
    let mut text = Text::from_bytes(alloc, start.as_bytes())?;
    write_keyword(&mut text, keyword.as_slice())?;
    text.push(b'\n')?;
    Ok(text)
}

/// The number and the name of what is wrong with a base.
fn base_word(refusal: &BaseRefusal) -> &'static str
    ensures { result.now ≡ base_word refusal.now }
{
    match refusal {
        BaseRefusal::NotJson => "60 NotJson",
        BaseRefusal::WrongShape => "61 WrongShape",
        BaseRefusal::WrongVersion => "62 WrongVersion",
        BaseRefusal::NumberTooBig => "63 NumberTooBig",
        BaseRefusal::Memory => "",
    }
}

/// The line on err of `BadBase`, with its end of line.
#[tactic(auto, using(crate::proofs::Joining::text_steps))]
pub fn base_line(alloc: Global, name: &Text, refusal: &BaseRefusal) -> Result<Text, Memory>
    ensures { IfOk result (λ line. line ≡ base_line name.now refusal.now) }
{
    let mut line = Text::from_bytes(alloc, b"pips: base ")?;
    line.append(name.as_slice())?;
    line.append(b": ")?;
    line.append(base_word(refusal).as_bytes())?;
    line.append(b"\n")?;
    Ok(line)
}

/// The line on err of `StaleBase`, with its end of line.
#[tactic(auto, using(crate::proofs::Joining::text_steps))]
pub fn stale_line(alloc: Global, key: &Key) -> Result<Text, Memory>
    ensures { IfOk result (λ line. line ≡ stale_line key.now) }
{
    let mut line = Text::from_bytes(alloc, b"pips: stale ")?;
    line.append(key.kind.name().as_bytes())?;
    line.append(b" ")?;
    line.append(key.name.as_slice())?;
    line.append(b"\n")?;
    Ok(line)
}
