//! What a DO consists of, and what is done before its first iteration and at the end of each (ANSI X3.9-1978 §11.10.3 to §11.10.7).
ghost use Rattle.std.specs.Prelude.{◌≡◌, IfOk, IfSome};
ghost use Rattle.affine_systems.specs.Given.{Fits};
ghost use Rattle.affine_forms.specs.Forms.{IsSmallForm};
ghost use Rattle.transformer_algebra.specs.Loops.{LoopFits, own_cells as own_cells_is, start_form as start_form_is, next_form as next_form_is, index_becomes as index_becomes_is, start as start_is, next as next_is};

use crate::Transformer;
use crate::transformer::exit_system;
use affine_forms::{Affine, no_rows};
use affine_systems::{Term, Var};
use fx_lists::List;
use std::alloc::{AllocError as Memory, Global};

/// The parts of a DO (ANSI X3.9-1978, §11.10), as affine forms and a transformer.
#[derive(PartialEq, Eq, Drop)]
pub struct LoopParts {
    /// The number of the symbol of its DO variable, from 1.
    pub index: u32,
    /// Whether the DO variable is an analysed scalar.
    pub tracked: bool,
    /// The value of the step, where that is a constant that is not 0.
    pub step: Option<i32>,
    /// The form of the first value, on `Cell` variables before the DO; None where it has none.
    pub first: Option<Affine>,
    /// The form of the last value, in the same way.
    pub last: Option<Affine>,
    /// The transformer of one execution of the body, without the step.
    pub body: Transformer,
}

/// The index, where it is tracked.
fn own_cells(alloc: Global, l: &LoopParts) -> Result<List<u32>, Memory>
    ensures { IfOk result (λ cs. cs ≡ own_cells_is l.now) }
{
    let mut cells = List::new(alloc);
    if l.tracked {
        cells.push(l.index)?;
    }
    Ok(cells)
}

/// The index becomes the value of an expression of this form; nothing is known of it where there is no form.
fn index_becomes(alloc: Global, l: &LoopParts, form: &Option<Affine>) -> Result<Transformer, Memory>
    requires { IfSome form.now IsSmallForm }
    ensures defined { IfOk result (λ t. t ≡ index_becomes_is l.now form.now) }
    ensures fits { IfOk result (λ t. Fits t.system) }
{
    let known = if l.tracked {
        exit_system(alloc, l.index, form)?
    } else {
        no_rows(alloc)
    };
    Ok(Transformer {
        cells: own_cells(alloc, l)?,
        foreign: List::new(alloc),
        system: known,
    })
}

/// The form that the index is given first.
fn start_form(l: &LoopParts) -> Result<Option<Affine>, Memory>
    requires { LoopFits l.now }
    ensures defined { IfOk result (λ f. f ≡ start_form_is l.now) }
    ensures small { IfOk result (λ f. IfSome f IsSmallForm) }
{
    match (&l.step, &l.first) {
        (Some(_), Some(first)) => Ok(Some(first.clone()?)),
        _ => Ok(None),
    }
}

/// The form that the index is given after an iteration.
fn next_form(alloc: Global, l: &LoopParts) -> Result<Option<Affine>, Memory>
    ensures defined { IfOk result (λ f. f ≡ next_form_is l.now) }
    ensures small { IfOk result (λ f. IfSome f IsSmallForm) }
{
    match l.step {
        None => Ok(None),
        Some(step) => {
            let term = Term {
                var: Var::Cell(l.index),
                factor: 1,
            };
            let terms = List::from_slice(alloc, &[term])?;
            Ok(Some(Affine {
                terms,
                constant: i128::from(step),
            }))
        }
    }
}

/// The transformer by which the DO variable gets its first value. It forgets the variable where that has no form or the
/// step is no constant, and changes no cell where the variable is not analysed.
pub fn start(alloc: Global, l: &LoopParts) -> Result<Transformer, Memory>
    requires { LoopFits l.now }
    ensures defined { IfOk result (λ t. t ≡ start_is l.now) }
    ensures fits { IfOk result (λ t. Fits t.system) }
{
    let form = start_form(l)?;
    index_becomes(alloc, l, &form)
}

/// The transformer by which the step is added to the DO variable. It forgets the variable where the step is no
/// constant, and changes no cell where the variable is not analysed.
pub fn next(alloc: Global, l: &LoopParts) -> Result<Transformer, Memory>
    ensures defined { IfOk result (λ t. t ≡ next_is l.now) }
    ensures fits { IfOk result (λ t. Fits t.system) }
{
    let form = next_form(alloc, l)?;
    index_becomes(alloc, l, &form)
}
