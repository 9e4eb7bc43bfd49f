//! The transformer of a DO: that of no iteration, and that of some iterations.
ghost use Rattle.std.specs.Prelude.{◌≡◌, IfOk};
ghost use Rattle.affine_systems.specs.Rows.{AllRows};
ghost use Rattle.affine_systems.specs.Given.{IsGiven, Fits};
ghost use Rattle.transformer_algebra.specs.Loops.{LoopFits, with_rows as with_rows_is, iteration as iteration_is, zero_iterations as zero_iterations_is, some_iterations as some_iterations_is, counted_system as counted_system_is, loop_transformer as loop_transformer_is};

use crate::arms::equals;
use crate::units::copy_units;
use crate::{
    LoopParts, Transformer, beyond_last, guard, inside, iterate, next, others, push_rows, start,
    then, unguard,
};
use affine_forms::no_rows;
use affine_systems::{Row, System, Var};
use fx_lists::List;
use hull_projection::hull;
use std::alloc::{AllocError as Memory, Global};

/// A transformer whose system has more rows.
fn with_rows(alloc: Global, t: Transformer, rows: Vec<Row>) -> Result<Transformer, Memory>
    requires fits { Fits t.system }
    requires rows { AllRows IsGiven rows.items }
    ensures defined { IfOk result (λ r. r ≡ with_rows_is t rows.items) }
    ensures fits { IfOk result (λ r. Fits r.system) }
{
    Ok(Transformer {
        system: push_rows(alloc, &t.system, rows)?,
        cells: t.cells,
        foreign: t.foreign,
    })
}

/// The transformer of one iteration of a DO: the body, and then the step is added to the DO variable (ANSI X3.9-1978,
/// §11.10.7). Memory also where the numbers of auxiliary variables reach 2^32.
pub fn iteration(alloc: Global, l: &LoopParts) -> Result<Transformer, Memory>
    requires { LoopFits l.now }
    ensures defined { IfOk result (λ t. t ≡ iteration_is l.now) }
    ensures fits { IfOk result (λ t. Fits t.system) }
{
    let index = next(alloc, l)?;
    then(alloc, &l.body, &index)
}

#[tactic(auto, using(crate::proofs::GivenSteps::given_rows))]
/// The system of a DO without iterations, for the cells that an iteration, `t`, changes: the first value is beyond the
/// last, and all cells but the DO variable stay as they are.
pub fn zero_iterations(alloc: Global, l: &LoopParts, t: &Transformer) -> Result<System, Memory>
    requires { LoopFits l.now }
    ensures defined { IfOk result (λ s. s ≡ zero_iterations_is l.now t.now) }
    ensures fits { IfOk result Fits }
{
    let first = start(alloc, l)?;
    let mut rows = unguard(alloc, l)?;
    let rest = others(alloc, t.cells.as_slice(), first.cells.as_slice())?;
    let mut same = equals(alloc, rest.as_slice())?;
    rows.append(&mut same)?;
    push_rows(alloc, &first.system, rows)
}

/// The transformer of a DO with one or more iterations, each of which does what `t` says: the guard and the first
/// value, any number of iterations, a DO variable that is not beyond the last value, the last iteration, and a DO
/// variable beyond it. Memory also where the numbers of auxiliary variables reach 2^32.
pub fn some_iterations(alloc: Global, l: &LoopParts, t: &Transformer) -> Result<Transformer, Memory>
    requires parts { LoopFits l.now }
    requires turn { Fits t.now.system }
    ensures defined { IfOk result (λ s. s ≡ some_iterations_is l.now t.now) }
    ensures fits { IfOk result (λ s. Fits s.system) }
{
    let first = with_rows(alloc, start(alloc, l)?, guard(alloc, l)?)?;
    let turns = iterate(alloc, t)?;
    let begun = then(alloc, &first, &turns)?;
    let within = with_rows(alloc, begun, inside(alloc, l, Var::Exit(l.index))?)?;
    let done = then(alloc, &within, t)?;
    with_rows(alloc, done, beyond_last(alloc, l, Var::Exit(l.index))?)
}

/// The hull of no iteration and of some; no rows where the step is no constant.
fn counted_system(alloc: Global, l: &LoopParts, t: &Transformer) -> Result<System, Memory>
    requires parts { LoopFits l.now }
    requires turn { Fits t.now.system }
    ensures defined { IfOk result (λ s. s ≡ counted_system_is l.now t.now) }
    ensures fits { IfOk result Fits }
{
    match l.step {
        None => Ok(no_rows(alloc)),
        Some(_) => {
            let none = zero_iterations(alloc, l, t)?;
            let some = some_iterations(alloc, l, t)?;
            hull(alloc, &none, &some.system)
        }
    }
}

/// The transformer of a DO, where `t` is that of an iteration: the hull of no iteration and of some. Where the step is
/// no constant, all cells that `t` changes may have any value. Memory also where the numbers of auxiliary variables
/// reach 2^32.
pub fn loop_transformer(
    alloc: Global,
    l: &LoopParts,
    t: &Transformer,
) -> Result<Transformer, Memory>
    requires parts { LoopFits l.now }
    requires turn { Fits t.now.system }
    ensures defined { IfOk result (λ r. r ≡ loop_transformer_is l.now t.now) }
    ensures fits { IfOk result (λ r. Fits r.system) }
{
    Ok(Transformer {
        cells: List::from_slice(alloc, t.cells.as_slice())?,
        foreign: copy_units(alloc, t.foreign.as_slice())?,
        system: counted_system(alloc, l, t)?,
    })
}
