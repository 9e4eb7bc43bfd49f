//! What the types of a result say of its numbers.
ghost use Rattle.std.specs.Prelude.{◌<◌, ◌^◌};
ghost use Rattle.base_values.specs.Ranges.{IdsFit, OffsetsFit, TransformersFit, NumbersFit};

use crate::StoredValue;
use f77_ast::{At, Unit};
use preconditions::transformer_algebra::Transformer;

/// A number of 64 bits is below 2^64.
fn fits(n: u64)
    ensures { n < 2 ^ 64 }
{}

fn ids_fit<T>(at: &[At<T>])
    ensures { IdsFit at.now }
{
    let mut rest = at;
    while let [one, more @ ..] = rest {
        fits(u64::from(one.id));
        rest = more;
    }
}

fn offsets_fit(units: &[Unit])
    ensures { OffsetsFit units.now }
{
    let mut rest = units;
    while let [unit, more @ ..] = rest {
        fits(unit.offset);
        rest = more;
    }
}

fn transformers_fit(at: &[At<Transformer>])
    ensures { TransformersFit at.now }
{
    let mut rest = at;
    while let [one, more @ ..] = rest {
        offsets_fit(one.value.foreign.as_slice());
        rest = more;
    }
}

/// The law that the numbers of statements and the offsets in a result fit 64 bits, as their types have it. Changes nothing.
pub fn numbers_fit(value: &StoredValue)
    ensures { NumbersFit value.now }
{
    match value {
        StoredValue::Effects(results) => ids_fit(results.at.as_slice()),
        StoredValue::Transformers(results) => {
            ids_fit(results.at.as_slice());
            transformers_fit(results.at.as_slice());
            offsets_fit(results.summary.foreign.as_slice());
        }
        StoredValue::Preconditions(results) => ids_fit(results.at.as_slice()),
        StoredValue::Regions(results) => ids_fit(results.at.as_slice()),
        StoredValue::InRegions(results) => ids_fit(results.at.as_slice()),
        StoredValue::OutRegions(results) => ids_fit(results.at.as_slice()),
        StoredValue::Marks(marks) => ids_fit(marks.as_slice()),
    }
}
