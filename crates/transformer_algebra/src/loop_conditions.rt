//! What holds before the iterations of a DO, at each iteration, and after it.
ghost use Rattle.std.specs.Prelude.{◌≡◌, IfOk};
ghost use Rattle.affine_systems.specs.Rows.{AllRows};
ghost use Rattle.affine_systems.specs.Given.{IsGiven, Fits};
ghost use Rattle.affine_systems.specs.Terms.{number as number_is};
ghost use Rattle.transformer_algebra.specs.Loops.{LoopFits, terms_stay as terms_stay_is, stays as stays_is, if_stays as if_stays_is, before_iterations as before_iterations_is, counted_iteration as counted_iteration_is, at_iteration as at_iteration_is, counted_end as counted_end_is, after_loop as after_loop_is};

use crate::{
    LoopParts, Transformer, apply, beyond_last, guard, has, inside, iterate, next, push_rows,
    start, unguard, without,
};
use affine_forms::Affine;
use affine_systems::{Row, System, Term, Var};
use hull_projection::{clean, hull};
use std::alloc::{AllocError as Memory, Global};

fn number_of(v: Var) -> u32
    ensures { result ≡ number_is v }
{
    match v {
        Var::Cell(n) | Var::Exit(n) | Var::Aux(n) => n,
        Var::Phi(n) => u32::from(n),
    }
}

#[tactic(auto, using(crate::proofs::ArmSteps::stay_loop))]
/// Whether none of the terms has one of these cells. Looks each up.
fn terms_stay(cells: &[u32], terms: &[Term]) -> bool
    ensures { result ≡ terms_stay_is cells.now terms.now }
{
    for t in terms {
        if has(cells, number_of(t.var)) {
            return false;
        }
    }
    true
}

/// Whether there is a form, and none of its cells is one of these.
fn stays(cells: &[u32], form: &Option<Affine>) -> bool
    ensures { result ≡ stays_is cells.now form.now }
{
    match form {
        None => false,
        Some(f) => terms_stay(cells, f.terms.as_slice()),
    }
}

/// The system with these rows, where the last value has a form of which no cell is changed.
fn if_stays(
    alloc: Global,
    l: &LoopParts,
    t: &Transformer,
    s: System,
    rows: Vec<Row>,
) -> Result<System, Memory>
    requires fits { Fits s }
    requires rows { AllRows IsGiven rows.items }
    ensures defined { IfOk result (λ r. r ≡ if_stays_is l.now t.now s rows.items) }
    ensures fits { IfOk result Fits }
{
    if stays(t.cells.as_slice(), &l.last) {
        push_rows(alloc, &s, rows)
    } else {
        Ok(s)
    }
}

/// The system that holds when the DO variable has its first value and the first iteration is to begin, where `p` holds
/// before the DO.
pub fn before_iterations(alloc: Global, l: &LoopParts, p: &System) -> Result<System, Memory>
    requires parts { LoopFits l.now }
    requires before { Fits p.now }
    ensures defined { IfOk result (λ s. s ≡ before_iterations_is l.now p.now) }
    ensures fits { IfOk result Fits }
{
    let guarded = push_rows(alloc, p, guard(alloc, l)?)?;
    let first = start(alloc, l)?;
    apply(alloc, &first, &guarded)
}

fn counted_iteration(
    alloc: Global,
    l: &LoopParts,
    t: &Transformer,
    p: &System,
) -> Result<System, Memory>
    requires parts { LoopFits l.now }
    requires turn { Fits t.now.system }
    requires before { Fits p.now }
    ensures defined { IfOk result (λ s. s ≡ counted_iteration_is l.now t.now p.now) }
    ensures fits { IfOk result Fits }
{
    let begun = before_iterations(alloc, l, p)?;
    let turns = iterate(alloc, t)?;
    let reached = apply(alloc, &turns, &begun)?;
    let within = if_stays(alloc, l, t, reached, inside(alloc, l, Var::Cell(l.index))?)?;
    clean(alloc, &within)
}

/// The system that holds at the beginning of each iteration of a DO, where `p` holds before the DO; `t` is the
/// transformer of an iteration. Where the step is no constant, `p` without the cells that `t` changes. Memory also
/// where the numbers of auxiliary variables reach 2^32.
pub fn at_iteration(
    alloc: Global,
    l: &LoopParts,
    t: &Transformer,
    p: &System,
) -> Result<System, Memory>
    requires parts { LoopFits l.now }
    requires turn { Fits t.now.system }
    requires before { Fits p.now }
    ensures defined { IfOk result (λ s. s ≡ at_iteration_is l.now t.now p.now) }
    ensures fits { IfOk result Fits }
{
    match l.step {
        None => without(alloc, t.cells.as_slice(), p),
        Some(_) => counted_iteration(alloc, l, t, p),
    }
}

fn counted_end(
    alloc: Global,
    l: &LoopParts,
    t: &Transformer,
    p: &System,
    after: &System,
) -> Result<System, Memory>
    requires parts { LoopFits l.now }
    requires before { Fits p.now }
    requires after { Fits after.now }
    ensures defined { IfOk result (λ s. s ≡ counted_end_is l.now t.now p.now after.now) }
    ensures fits { IfOk result Fits }
{
    let beyond = push_rows(alloc, p, unguard(alloc, l)?)?;
    let none = apply(alloc, &start(alloc, l)?, &beyond)?;
    let ended = apply(alloc, &next(alloc, l)?, after)?;
    let some = if_stays(
        alloc,
        l,
        t,
        ended,
        beyond_last(alloc, l, Var::Cell(l.index))?,
    )?;
    hull(alloc, &none, &some)
}

/// The system that holds after the end of a DO, where `p` holds before it and `after` at the end of its body; `t` is
/// the transformer of an iteration. The hull of no iteration and of some; where the step is no constant, `p` without
/// the cells that `t` changes. Memory also where the numbers of auxiliary variables reach 2^32.
pub fn after_loop(
    alloc: Global,
    l: &LoopParts,
    t: &Transformer,
    p: &System,
    after: &System,
) -> Result<System, Memory>
    requires parts { LoopFits l.now }
    requires before { Fits p.now }
    requires after { Fits after.now }
    ensures defined { IfOk result (λ s. s ≡ after_loop_is l.now t.now p.now after.now) }
    ensures fits { IfOk result Fits }
{
    match l.step {
        None => without(alloc, t.cells.as_slice(), p),
        Some(_) => counted_end(alloc, l, t, p, after),
    }
}
