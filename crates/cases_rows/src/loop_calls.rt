//! The calls on the parts of a DO.
ghost use Rattle.std.specs.Prelude.{IfOk};
ghost use Rattle.affine_systems.specs.Given.{Fits};
ghost use Rattle.transformer_algebra.specs.Loops.{LoopFits};

use crate::decode_error::DecodeError;
use crate::expressions::expression_of;
use crate::rows::system_of;
use crate::tables::{Table, table_of};
use crate::transformers::transformer_of;
use crate::written::{system_text, transformer_text};
use affine_forms::{affine_of, is_cell};
use affine_systems::System;
use std::alloc::Global;
use transformer_algebra::{
    LoopParts, Transformer, after_loop, at_iteration, before_iterations, iteration,
    loop_transformer, some_iterations, zero_iterations,
};

fn step_of(word: &str) -> Result<Option<i32>, DecodeError> {
    if word == "none" {
        return Ok(None);
    }
    Ok(Some(word.parse().map_err(|_| DecodeError::Malformed)?))
}

fn parts_of(
    alloc: Global,
    table: &Table,
    head: &str,
    first: &str,
    last: &str,
    body: &str,
) -> Result<LoopParts, DecodeError>
    ensures { IfOk result LoopFits }
{
    let (index, step) = head.trim().split_once(' ').ok_or(DecodeError::Malformed)?;
    let index = index.parse().map_err(|_| DecodeError::Malformed)?;
    let first = expression_of(alloc, first)?;
    let last = expression_of(alloc, last)?;
    Ok(LoopParts {
        index,
        tracked: is_cell(&table.tracked, index),
        step: step_of(step)?,
        first: affine_of(alloc, &table.symbols, &table.tracked, &first)?,
        last: affine_of(alloc, &table.symbols, &table.tracked, &last)?,
        body: transformer_of(alloc, body)?,
    })
}

/// What an iteration does, what no iteration is, what some iterations do, and what the whole loop does.
fn runs_text(alloc: Global, l: &LoopParts, t: &Transformer) -> Result<String, DecodeError>
    requires parts { LoopFits l.now }
    requires turn { Fits t.now.system }
{
    let one = transformer_text(alloc, t)?;
    let none = system_text(alloc, &zero_iterations(alloc, l, t)?)?;
    let some = transformer_text(alloc, &some_iterations(alloc, l, t)?)?;
    let whole = transformer_text(alloc, &loop_transformer(alloc, l, t)?)?;
    Ok(format!(in alloc; "{one} ; {none} ; {some} ; {whole}")?)
}

/// What holds before the iterations, at the beginning of each, and after the loop, where a system holds before it and another at the end of
/// its body.
fn known_text(
    alloc: Global,
    l: &LoopParts,
    t: &Transformer,
    before: &System,
    after: &System,
) -> Result<String, DecodeError>
    requires parts { LoopFits l.now }
    requires turn { Fits t.now.system }
    requires before { Fits before.now }
    requires after { Fits after.now }
{
    let begun = system_text(alloc, &before_iterations(alloc, l, before)?)?;
    let within = system_text(alloc, &at_iteration(alloc, l, t, before)?)?;
    let done = system_text(alloc, &after_loop(alloc, l, t, before, after)?)?;
    Ok(format!(in alloc; "{begun} ; {within} ; {done}")?)
}

fn loop_text(alloc: Global, l: &LoopParts, before: &str, after: &str) -> Result<String, DecodeError>
    requires { LoopFits l.now }
{
    let t = iteration(alloc, l)?;
    let p = system_of(alloc, before)?;
    let q = system_of(alloc, after)?;
    let runs = runs_text(alloc, l, &t)?;
    let known = known_text(alloc, l, &t, &p, &q)?;
    Ok(format!(in alloc; "{runs} ; {known}")?)
}

/// The pieces of the transformer of a DO.
pub fn loop_answer(alloc: Global, parts: &[&str]) -> Result<String, DecodeError> {
    match parts {
        [symbols, head, first, last, body, before, after] => {
            let table = table_of(alloc, symbols)?;
            let l = parts_of(alloc, &table, head, first, last, body)?;
            loop_text(alloc, &l, before, after)
        }
        _ => Err(DecodeError::Malformed),
    }
}
