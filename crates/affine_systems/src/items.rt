//! Rows with their originals, as elimination carries them.

use crate::Row;
pub use crate::facing::total;
pub use crate::false_rows::{any_false, copy_item, copy_row, false_item, next_made};
pub use crate::normal::normalise_as;
pub use crate::order::{are_opposite, has_same_shape, shape_order};
pub use crate::pivots::{cancel_all, find_pivot, is_unit};
pub use crate::places::{Places, may_face, place, sides};
pub use crate::rows::{combine, factor, occurs};
pub use crate::sorting::rises_at;
pub use crate::systems::{copy_rows, items_of, rows_of, tidy_rows};
pub use crate::tidying::{ROWS, cut_form, tidy_form, tidy_items};
use fx_lists::List;

/// A set of numbers below 512: the original rows from which a row is derived. Bit b of word w is the number 128 w + b.
#[derive(Clone, Copy, PartialEq, Eq, Debug)]
pub struct Originals {
    pub words: [u128; 4],
}

impl Originals {
    ghost use Rattle.std.specs.Prelude.{◌≡◌, ◌<◌};
    ghost use Rattle.affine_systems.specs.Items.{no_originals, only_original, original_count, joined};

    /// The empty set.
    pub fn none() -> Originals
        ensures { result ≡ no_originals }
    {
        Originals { words: [0; 4] }
    }

    /// The set of one number, below 512.
    pub fn only(number: u32) -> Originals
        requires { number < 512 }
        ensures { result ≡ only_original number }
    {
        let bit = 1 << (number % 128);
        let word = number / 128;
        Originals {
            words: [
                if word == 0 { bit } else { 0 },
                if word == 1 { bit } else { 0 },
                if word == 2 { bit } else { 0 },
                if word == 3 { bit } else { 0 },
            ],
        }
    }

    /// How many numbers are in the set.
    pub fn len(self) -> u32
        ensures { result ≡ original_count self }
    {
        let words = self.words;
        words[0].count_ones()
            + words[1].count_ones()
            + words[2].count_ones()
            + words[3].count_ones()
    }

    /// The numbers that are in either set.
    pub fn union(self, other: Originals) -> Originals
        ensures { result ≡ joined self other }
    {
        let a = self.words;
        let b = other.words;
        Originals {
            words: [a[0] | b[0], a[1] | b[1], a[2] | b[2], a[3] | b[3]],
        }
    }
}

/// A row during elimination, with the originals that it is derived from and the number of its making: of two equal rows
/// the one made first is kept.
#[derive(Clone, PartialEq, Eq, Debug, Drop)]
pub struct Item {
    pub row: Row,
    pub originals: Originals,
    pub made: u64,
}

/// A list of items.
pub type Items = List<Item>;

/// Tidied rows in order, and whether one was lost, by a number of 2^62 or more or by the limit of 512 rows.
#[derive(Clone, Debug, Drop)]
pub struct Tidied {
    pub items: Items,
    pub lost: bool,
}

/// Rows without a variable; `exact`, where each point of them extends to one of the rows before; `lost`, where tidying
/// lost a row; `paired`, where lower and upper rows were paired.
#[derive(Clone, Debug, Drop)]
pub struct Eliminated {
    pub items: Items,
    pub exact: bool,
    pub lost: bool,
    pub paired: bool,
}
