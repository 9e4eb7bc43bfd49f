//! What words request.
ghost use Rattle.std.specs.Prelude.{◌≡◌, ◌≤◌, ◌+◌, ◌*◌, IfOk, IfSome};
ghost use Rattle.command_words.specs.Requests.{RequestedBy, show_named, shown, with_digit, number_named, count_named, is_alone, session_task, task_of, may_be_base, can_verify, input_name, request_in};

use crate::options::{Options, Read, options_in_words};
use fx_base::Words;
use fx_lists::Text;
use std::alloc::{AllocError as Memory, Global};

/// What is written beside the program.
#[derive(Clone, Copy, PartialEq, Eq)]
pub enum Show {
    /// Directives, obstacles and claims.
    All,
    /// Directives alone.
    Bare,
    /// Directives and obstacles.
    Why,
}

/// What is to be done.
#[derive(Clone, Copy, PartialEq, Eq)]
pub enum Task {
    /// INPUT is a program, which is analysed and written.
    Write,
    /// INPUT is a script of commands.
    Session,
    /// A program of this many parts is made, analysed and counted: 1 to 200.
    Generate(u8),
}

/// What the words of a command request.
#[derive(Drop)]
pub struct Request {
    pub task: Task,
    pub show: Show,
    /// The name of the base; None without one.
    pub base: Option<Text>,
    /// Whether the results in the base are to be verified.
    pub verify: bool,
    /// Whether loops with reduction variables run in parallel.
    pub reductions: bool,
    /// Whether references to array elements are judged.
    pub bounds: bool,
    /// The name of INPUT; `-` is standard input.
    pub input: Text,
}

fn show_named(word: &[u8]) -> Option<Show>
    ensures { result ≡ show_named word.now }
{
    if word == b"all".as_slice() {
        Some(Show::All)
    } else if word == b"bare".as_slice() {
        Some(Show::Bare)
    } else if word == b"why".as_slice() {
        Some(Show::Why)
    } else {
        None
    }
}

/// What `--show` says: all without it; None where its value is another word.
fn shown(show: &Option<Text>) -> Option<Show>
    ensures { result ≡ shown show.now }
{
    match show {
        None => Some(Show::All),
        Some(word) => show_named(word.as_slice()),
    }
}

/// A number and one digit more; None where the character is none.
fn with_digit(number: u16, byte: u8) -> Option<u16>
    requires { number ≤ 99 }
    ensures defined { result ≡ with_digit number byte }
    ensures small { IfSome result (λ n. n ≤ 10 * number + 9) }
{
    if b'0' <= byte && byte <= b'9' {
        Some(10 * number + u16::from(byte - b'0'))
    } else {
        None
    }
}

/// The number that one to three digits write.
fn number_named(word: &[u8]) -> Option<u16>
    ensures { result ≡ number_named word.now }
{
    match word {
        [a] => with_digit(0, *a),
        [a, b] => with_digit(with_digit(0, *a)?, *b),
        [a, b, c] => with_digit(with_digit(with_digit(0, *a)?, *b)?, *c),
        _ => None,
    }
}

/// A number from 1 to 200, in decimal without a sign or leading zero.
fn count_named(word: &[u8]) -> Option<u8>
    ensures { result ≡ count_named word.now }
{
    match word {
        [b'0', ..] => None,
        _ => {
            let number = number_named(word)?;
            if number <= 200 {
                Some(number as u8)
            } else {
                None
            }
        }
    }
}

/// Whether `--generate` is the only option beside `--show`, and INPUT is not named.
fn is_alone(options: &Options) -> bool
    ensures { result ≡ is_alone options.now }
{
    options.input.is_none()
        && !options.session
        && options.base.is_none()
        && !options.verify
        && !options.reductions
        && !options.bounds
}

/// The task of `--session`, which stands with neither `--reductions` nor `--bounds`.
fn session_task(options: &Options) -> Option<Task>
    ensures { result ≡ session_task options.now }
{
    if options.reductions || options.bounds {
        None
    } else {
        Some(Task::Session)
    }
}

/// What is to be done.
fn task_of(options: &Options) -> Option<Task>
    ensures { result ≡ task_of options.now }
{
    match &options.generate {
        None => {
            if options.session {
                session_task(options)
            } else {
                Some(Task::Write)
            }
        }
        Some(word) => {
            if !is_alone(options) {
                return None;
            }
            Some(Task::Generate(count_named(word.as_slice())?))
        }
    }
}

/// Whether a base may have this name.
fn may_be_base(base: &Option<Text>) -> bool
    ensures { result ≡ may_be_base base.now }
{
    match base {
        None => true,
        Some(name) => match name.as_slice() {
            [] | [b'-'] => false,
            _ => true,
        },
    }
}

/// Whether there is a base where one is to be verified.
fn can_verify(options: &Options) -> bool
    ensures { result ≡ can_verify options.now }
{
    !options.verify || options.base.is_some()
}

/// INPUT's name, `-` where none is given.
fn input_name(alloc: Global, input: Option<Text>) -> Result<Text, Memory>
    ensures { IfOk result (λ name. name ≡ input_name input) }
{
    match input {
        None => Text::from_bytes(alloc, b"-"),
        Some(name) => Ok(name),
    }
}

/// What options request, by the rules on their values; None where they break one.
fn request_in(alloc: Global, options: Options) -> Result<Option<Request>, Memory>
    ensures { IfOk result (λ request. request ≡ request_in options) }
{
    if !may_be_base(&options.base) || !can_verify(&options) {
        return Ok(None);
    }
    match (shown(&options.show), task_of(&options)) {
        (Some(show), Some(task)) => Ok(Some(Request {
            task,
            show,
            base: options.base,
            verify: options.verify,
            reductions: options.reductions,
            bounds: options.bounds,
            input: input_name(alloc, options.input)?,
        })),
        _ => Ok(None),
    }
}

/// What the words after the program's name request. None where they are no words of the command: an option is unknown, stands twice or
/// has no value, or a value is not one that it takes; a word is not UTF-8; there are two INPUTs; `--verify` stands without `--base`,
/// `--generate` with another option than `--show` or with INPUT, or `--reductions` or `--bounds` with `--session`.
pub fn request_of(alloc: Global, words: &Words) -> Result<Option<Request>, Memory>
    ensures { RequestedBy words.now result }
{
    match options_in_words(alloc, words) {
        Read::Options(options) => request_in(alloc, options),
        Read::Refused => Ok(None),
        Read::Memory => Err(Memory),
    }
}
