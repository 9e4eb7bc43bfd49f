//! The values of a DATA statement.
ghost use Rattle.std.specs.Prelude.{◌≡◌, IfOk, None, map};
ghost use Rattle.f77_ast.specs.Plain.{expr_tree};
ghost use Rattle.f77_ast.specs.PlainDecl.{data_value_tree};
ghost use Rattle.storage_data.specs.Initials.{literal_of, run_of, runs_of, values_in};

use crate::numbers::sum;
use f77_ast::{Constant, ConstantValue, Constants, DataValue, Expr, const_value_of};
use fx_lists::{List, Text};
use std::alloc::{AllocError as Memory, Global};

/// A value and how often it is repeated; None is a value that is no literal.
#[derive(Clone, Copy)]
pub struct Run {
    pub count: u64,
    pub value: Option<Constant>,
}

/// No name stands for a constant in DATA.
struct Nameless {}

impl Constants for Nameless {
    ghost use Rattle.std.specs.Prelude.{None};

    ghost value_in = { λ s x. None };

    fn value(&self, _name: &Text) -> Option<Constant> {
        None
    }
}

/// A literal, perhaps with a sign.
fn literal_of(e: &Expr) -> Option<Constant>
    ensures { result ≡ literal_of (expr_tree e.now) }
{
    match const_value_of(e, &Nameless {}) {
        ConstantValue::Is(constant) => Some(constant),
        ConstantValue::Faults | ConstantValue::Varies => None,
    }
}

fn run_of(value: &DataValue) -> Run
    ensures { result ≡ run_of (data_value_tree value.now) }
{
    let count = match value.repeat {
        None => 1,
        Some(count) => u64::from(count),
    };
    Run {
        count,
        value: literal_of(&value.value),
    }
}

/// The values with their repeat counts, 1 where none is written, in the order of the text; a value with count 0 is left out.
#[tactic(auto, using(f77_ast::proofs::PlainlyDecl::decl_lists))]
pub fn runs_of(alloc: Global, values: &[DataValue]) -> Result<List<Run>, Memory>
    ensures { IfOk result (λ rs. rs ≡ runs_of (map data_value_tree values.now)) }
{
    let mut runs = List::new(alloc);
    for value in values {
        let run = run_of(value);
        if run.count != 0 {
            runs.push(run)?;
        }
    }
    Ok(runs)
}

/// How many values the runs have together, with repeats. Err also from 2^64 on.
pub fn values_in(runs: &[Run]) -> Result<u64, Memory>
    ensures { IfOk result (λ n. n ≡ values_in runs.now) }
{
    let mut values = 0;
    for run in runs {
        values = sum(values, run.count)?;
    }
    Ok(values)
}
