//! The WRITE regions of a set.
ghost use Rattle.std.specs.Prelude.{◌≡◌, map, option_copied};
ghost use Rattle.f77_ast.specs.Symbols.{symbol_tree};
ghost use Rattle.in_out_regions.specs.Writes.{is_write_of as is_write_of_is, write_of as write_of_is, is_write_beside as is_write_beside_is, is_overlapped as is_overlapped_is, is_touched as is_touched_is};

use crate::kinds::is_write;
use array_regions::region_sets::Region;
use f77_ast::{Symbols, Variable, overlaps, same_variable};

fn is_write_of(v: &Variable, w: &Region) -> bool
    ensures { result ≡ is_write_of_is v.now w.now }
{
    is_write(w.kind) && same_variable(v, &w.variable)
}

/// The WRITE region of a variable in a set. Each region is looked at.
pub fn write_of<'a>(v: &Variable, set: &'a [Region]) -> Option<&'a Region>
    ensures { option_copied result ≡ write_of_is v.now set.now }
{
    let mut rest = set;
    while let [w, more @ ..] = rest {
        if is_write_of(v, w) {
            return Some(w);
        }
        rest = more;
    }
    None
}

fn is_write_beside(symbols: &Symbols, v: &Variable, w: &Region) -> bool
    ensures { result ≡ is_write_beside_is (map symbol_tree symbols.now) v.now w.now }
{
    is_write(w.kind) && overlaps(symbols, &w.variable, v)
}

/// Whether a set has a WRITE region of another variable that shares units with this one.
pub fn is_overlapped(symbols: &Symbols, set: &[Region], v: &Variable) -> bool
    ensures { result ≡ is_overlapped_is (map symbol_tree symbols.now) set.now v.now }
{
    let mut rest = set;
    while let [w, more @ ..] = rest {
        if is_write_beside(symbols, v, w) {
            return true;
        }
        rest = more;
    }
    false
}

/// Whether a set has a WRITE region of this variable, or of one that shares units with it.
pub fn is_touched(symbols: &Symbols, set: &[Region], v: &Variable) -> bool
    ensures { result ≡ is_touched_is (map symbol_tree symbols.now) set.now v.now }
{
    write_of(v, set).is_some() || is_overlapped(symbols, set, v)
}
