//! The command, and what its matches are.
ghost use Rattle.std.specs.Prelude.{◌≡◌, IfOk, map, false};
ghost use Rattle.clap.specs.Words.{app_of, rule_of, with_rule, FailsBy, fault_of, found_of, rows_of, matches_of};
ghost use Rattle.command_words.specs.Command.{pips_app, bare_app, valued_rule, flag_rule, input_rule};

use clap::{Arg, ArgAction, ArgMatches, Command, Error};
use std::alloc::{AllocError, Global};

/// An option that takes a value.
fn valued<'a>(alloc: Global, name: &'a str) -> Arg<'a>
    ensures rule { rule_of result ≡ valued_rule name.entry.now }
    ensures local { result.global ≡ false }
{
    Arg::new(alloc, name).long(name).action(ArgAction::Set)
}

/// An option that takes none.
fn flag<'a>(alloc: Global, name: &'a str) -> Arg<'a>
    ensures rule { rule_of result ≡ flag_rule name.entry.now }
    ensures local { result.global ≡ false }
{
    Arg::new(alloc, name).long(name).action(ArgAction::SetTrue)
}

/// INPUT, which stands without an option.
fn input<'a>(alloc: Global) -> Arg<'a>
    ensures rule { rule_of result ≡ input_rule }
    ensures local { result.global ≡ false }
{
    Arg::new(alloc, "input").action(ArgAction::Set)
}

/// A command without options, whose first word is no name of a program.
fn bare<'a>(alloc: Global) -> Command<'a>
    ensures { app_of result ≡ bare_app }
{
    Command::new(alloc, "pips").no_binary_name(true)
}

/// The command with one option more.
fn with<'a>(command: Command<'a>, arg: Arg<'a>) -> Result<Command<'a>, AllocError>
    requires { arg.global ≡ false }
    ensures { IfOk result (λ c. app_of c ≡ with_rule (app_of command.entry) (rule_of arg.entry)) }
{
    command.arg(arg)
}

/// The command with `--show`, `--base`, `--verify`, `--session`, `--generate`, `--reductions`, `--bounds` and INPUT, each at most once.
pub fn command<'a>(alloc: Global) -> Result<Command<'a>, AllocError>
    ensures { IfOk result (λ c. app_of c ≡ pips_app) }
{
    let command = with(bare(alloc), valued(alloc, "show"))?;
    let command = with(command, valued(alloc, "base"))?;
    let command = with(command, flag(alloc, "verify"))?;
    let command = with(command, flag(alloc, "session"))?;
    let command = with(command, valued(alloc, "generate"))?;
    let command = with(command, flag(alloc, "reductions"))?;
    let command = with(command, flag(alloc, "bounds"))?;
    let command = with(command, input(alloc))?;
    Ok(command)
}

/// The matches of the words, or why there are none.
pub fn matches_of_words<'a, 'b>(
    alloc: Global,
    words: &'a [&'b str],
) -> Result<ArgMatches<'a>, Error>
    ensures fault { FailsBy (fault_of pips_app (map (λ word. word.now) words.entry.now)) result }
    ensures matches { IfOk result (λ m. rows_of (found_of m) ≡ matches_of pips_app (map (λ word. word.now) words.entry.now)) }
{
    command(alloc)?.try_get_matches_from(words)
}
