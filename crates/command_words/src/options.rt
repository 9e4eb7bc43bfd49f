//! The options among words, with no rule of the program's own.
ghost use Rattle.std.specs.Prelude.{◌≡◌, option_map, map, List, ℕ, IfOk, IfSome, IfNone, Some, None, codes};
ghost use Rattle.command_words.specs.Texts.{AreTexts};
ghost use Rattle.clap.specs.Words.{first_of, rows_of, found_of};
ghost use Rattle.command_words.specs.Options.{WordsGive, TextsGive, is_true, options_in};

use crate::command::matches_of_words;
use clap::ArgMatches;
use clap::error::ErrorKind;
use fx_base::Words;
use fx_lists::Text;
use std::alloc::{AllocError, Global};
use std::str;

/// The words as text, or `None` where one is not UTF-8.
fn texts_of<'a>(alloc: Global, words: &'a [Text]) -> Result<Option<Vec<&'a str>>, AllocError>
    ensures text { IfOk result (λ o. IfSome o (λ texts. map (λ text. text.now) texts.items ≡ words.entry.now)) }
    ensures utf8 { IfOk result (λ o. IfSome o (λ _. AreTexts words.entry.now)) }
    ensures not_utf8 { IfOk result (λ o. IfNone o (AreTexts words.entry.now → ⊥)) }
{
    let mut texts = Vec::new(alloc);
    for word in words {
        match str::from_utf8(word.as_slice()) {
            Ok(text) => texts.push(text)?,
            Err(_) => return Ok(None),
        }
    }
    Ok(Some(texts))
}

/// The text of an option.
fn text_of<'a>(matches: &ArgMatches<'a>, id: &str) -> Option<&'a str>
    ensures { option_map (λ text. text.now) result ≡ first_of id.now (rows_of (found_of matches.now)) }
{
    matches.get_str(id)
}

/// The value of an option.
fn value_of(alloc: Global, matches: &ArgMatches<'_>, id: &str) -> Result<Option<Text>, AllocError>
    ensures { IfOk result (λ value. value ≡ first_of id.now (rows_of (found_of matches.now))) }
{
    match text_of(matches, id) {
        Some(text) => {
            let value = Text::from_bytes(alloc, text.as_bytes())?;
            Ok(Some(value))
        }
        None => Ok(None),
    }
}

/// Whether a flag was given.
fn is_set(matches: &ArgMatches<'_>, id: &str) -> bool
    ensures { result ≡ is_true (first_of id.now (rows_of (found_of matches.now))) }
{
    match text_of(matches, id) {
        Some(text) => text == "true",
        None => false,
    }
}

/// The options of a command as they are written: the value of each that takes one, and whether each flag was given.
#[derive(Drop)]
pub struct Options {
    pub show: Option<Text>,
    pub base: Option<Text>,
    pub verify: bool,
    pub session: bool,
    pub generate: Option<Text>,
    pub reductions: bool,
    pub bounds: bool,
    pub input: Option<Text>,
}

/// What words give.
#[derive(Drop)]
pub enum Read {
    /// Each option that is among them.
    Options(Options),
    /// A word is not UTF-8, or the command does not take them.
    Refused,
    Memory,
}

fn options_of(alloc: Global, matches: &ArgMatches<'_>) -> Result<Options, AllocError>
    ensures { IfOk result (λ options. options ≡ options_in (rows_of (found_of matches.now))) }
{
    let show = value_of(alloc, matches, "show")?;
    let base = value_of(alloc, matches, "base")?;
    let verify = is_set(matches, "verify");
    let session = is_set(matches, "session");
    let generate = value_of(alloc, matches, "generate")?;
    let reductions = is_set(matches, "reductions");
    let bounds = is_set(matches, "bounds");
    let input = value_of(alloc, matches, "input")?;
    Ok(Options {
        show,
        base,
        verify,
        session,
        generate,
        reductions,
        bounds,
        input,
    })
}

/// The options among words that are text.
fn options_in_texts(alloc: Global, texts: &[&str]) -> Read
    ensures got { TextsGive (map (λ text. text.now) texts.now) result }
{
    match matches_of_words(alloc, texts) {
        Ok(matches) => match options_of(alloc, &matches) {
            Ok(options) => Read::Options(options),
            Err(_) => Read::Memory,
        },
        Err(error) => match error.kind() {
            ErrorKind::OutOfMemory => Read::Memory,
            _ => Read::Refused,
        },
    }
}

/// The options among words, each of any bytes.
pub fn options_in_words(alloc: Global, words: &Words) -> Read
    ensures { WordsGive words.now result }
{
    let texts = match texts_of(alloc, words.as_slice()) {
        Ok(texts) => texts,
        Err(_) => return Read::Memory,
    };
    match texts {
        Some(texts) => options_in_texts(alloc, texts.as_slice()),
        None => Read::Refused,
    }
}
