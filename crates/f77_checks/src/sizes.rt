//! Dimensions with constant bounds (ANSI X3.9-1978 §5.1).
ghost use Rattle.std.specs.Prelude.{◌≡◌, ◌≤◌, [], Some, false, IfSome};
ghost use Rattle.f77_ast.specs.Places.{dim_size, total_size};
ghost use Rattle.f77_checks.specs.Sizes.{capped_units, dim_tree, dims_tree, is_above};

use fx_lists::List;
use std::alloc::Global;

/// A dimension by its lower and upper bound, which may be below the lower one.
#[derive(Clone, Copy, PartialEq, Eq)]
pub struct Size {
    pub low: i32,
    pub high: i32,
}

/// The dimensions of a variable, the first one first and none for a scalar, and how many units it takes: at most 2147483647.
#[derive(Drop)]
pub struct Dimensions {
    pub sizes: List<Size>,
    pub units: u64,
    ghost counted: { units ≡ total_size (dims_tree sizes) },
    ghost small: { units ≤ 2147483647 },
}

impl Size {
    /// How many subscripts the dimension has: `high - low + 1`, or 0 where that is negative.
    pub fn units(self) -> u64
        ensures { result ≡ dim_size (dim_tree self) }
    {
        let units = i64::from(self.high) - i64::from(self.low) + 1;
        if units < 0 { 0 } else { units.unsigned_abs() }
    }
}

/// Whether there are more than 2147483647 units; false where their number is not known.
pub fn is_above(units: Option<u64>) -> bool
    ensures { result ≡ is_above units }
{
    match units {
        None => false,
        Some(units) => 2_147_483_647 < units,
    }
}

impl Dimensions {
    /// Those of a scalar: no dimension, one unit.
    pub fn scalar(alloc: Global) -> Dimensions
        ensures { result.sizes ≡ [] }
    {
        Dimensions {
            sizes: List::new(alloc),
            units: 1,
        }
    }

    /// Dimensions with the number of their units.
    pub fn of(sizes: List<Size>, units: u64) -> Dimensions
        requires counted { Some units ≡ capped_units 1 (Some (dims_tree sizes)) }
        requires small { units ≤ 2147483647 }
        ensures { result.sizes ≡ sizes }
    {
        Dimensions { sizes, units }
    }
}
