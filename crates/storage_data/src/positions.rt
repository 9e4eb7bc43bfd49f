//! The positions of elements in arrays (ANSI X3.9-1978 §5.4.3).
ghost use Rattle.std.specs.Prelude.{◌≡◌, ◌-ℤ◌, IfOk, Some, None, if◌then◌else◌};
ghost use Rattle.std.specs.Option.{option_map};
ghost use Rattle.f77_ast.specs.Plain.{expr_trees};
ghost use Rattle.f77_ast.specs.Places.{as_count, dim_has, position};
ghost use Rattle.f77_names.specs.Entries.{entry_tree, find};
ghost use Rattle.f77_names.specs.Views.{table_tree};
ghost use Rattle.f77_checks.specs.Sizes.{dim_tree, dims_tree};
ghost use Rattle.storage_data.specs.Items.{element_position, numbers_of};

use crate::numbers::{as_count, product, sum};
use f77_ast::{Constant, ConstantValue, Expr, const_value_of};
use f77_checks::{Size, dimensions_of};
use f77_names::{Entry, NameTable};
use fx_lists::{List, Text};
use std::alloc::{AllocError as Memory, Global};

/// The numbers of constant subscripts; None where one is no number.
#[tactic(auto, using(crate::proofs::NumberLaws::number_steps))]
fn numbers_of(
    alloc: Global,
    table: &NameTable,
    es: &List<Expr>,
) -> Result<Option<List<i32>>, Memory>
    ensures { IfOk result (λ r. r ≡ numbers_of (table_tree table.now) (expr_trees es.now)) }
{
    let mut numbers = List::new(alloc);
    for e in es.as_slice() {
        match const_value_of(e, &table.names) {
            ConstantValue::Is(Constant::Int(n)) => numbers.push(n)?,
            ConstantValue::Is(Constant::Log(_)) | ConstantValue::Faults | ConstantValue::Varies =>
                return Ok(None),
        }
    }
    Ok(Some(numbers))
}

/// A subscript within its dimension, from 0.
fn column(size: Size, n: i32) -> Option<u64>
    ensures { result
        ≡ (if dim_has (dim_tree size) n then Some (as_count (n -ℤ size.low)) else None) }
{
    if size.low <= n && n <= size.high {
        Some(as_count(i64::from(n) - i64::from(size.low)))
    } else {
        None
    }
}

/// How many elements come before the one with these subscripts.
#[tactic(auto, using(crate::proofs::NumberLaws::position_steps))]
fn position(sizes: &[Size], numbers: &[i32]) -> Result<Option<u64>, Memory>
    ensures { IfOk result (λ r. r ≡ position (dims_tree sizes.now) numbers.now) }
{
    match sizes {
        [] => Ok(if numbers.is_empty() { Some(0) } else { None }),
        [size, sizes @ ..] => match numbers {
            [] => Ok(None),
            [n, numbers @ ..] => match column(*size, *n) {
                None => Ok(None),
                Some(first) => match position(sizes, numbers)? {
                    None => Ok(None),
                    Some(k) => Ok(Some(sum(first, product(size.units(), k)?)?)),
                },
            },
        },
    }
}

fn entry_position(
    alloc: Global,
    table: &NameTable,
    entry: &Entry,
    es: &List<Expr>,
) -> Result<Option<u64>, Memory>
    ensures { IfOk result
        (λ r. r ≡ element_position (table_tree table.now) (Some (entry_tree entry.now)) (expr_trees es.now)) }
{
    match (
        dimensions_of(alloc, table, entry)?,
        numbers_of(alloc, table, es)?,
    ) {
        (Some(known), Some(numbers)) => position(known.sizes.as_slice(), numbers.as_slice()),
        (None, _) | (Some(_), None) => Ok(None),
    }
}

/// The unit of an array element in its array, from 0; the first subscript varies fastest. None where the name or its bounds are
/// unknown, a subscript is no integer constant or out of bounds, or the number of subscripts is not that of bounds.
pub fn element_position(
    alloc: Global,
    table: &NameTable,
    name: &Text,
    es: &List<Expr>,
) -> Result<Option<u64>, Memory>
    ensures { IfOk result
        (λ r. r ≡ element_position (table_tree table.now) (find name.now (table_tree table.now).entries) (expr_trees es.now)) }
{
    match table.names.find(name) {
        None => Ok(None),
        Some(entry) => entry_position(alloc, table, entry, es),
    }
}
