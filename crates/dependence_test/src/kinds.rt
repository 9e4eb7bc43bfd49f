//! The pairs of regions between which a dependence is looked for.
ghost use Rattle.std.specs.Prelude.{◌≡◌, map};
ghost use Rattle.f77_ast.specs.Symbols.{symbol_tree};
ghost use Rattle.dependence_test.specs.Kinds.{is_read as is_read_is, is_write as is_write_is, is_first as is_first_is, is_second as is_second_is, related as related_is, may_meet as may_meet_is, is_written as is_written_is, is_pair as is_pair_is};

use f77_ast::{Kinds, Symbols, Variable, overlaps, same_variable};
use region_sets::{Access, Region};

fn is_read(access: Access) -> bool
    ensures { result ≡ is_read_is access }
{
    match access {
        Access::Read => true,
        Access::Write | Access::In | Access::Out => false,
    }
}

fn is_write(access: Access) -> bool
    ensures { result ≡ is_write_is access }
{
    match access {
        Access::Write => true,
        Access::Read | Access::In | Access::Out => false,
    }
}

/// Whether an access is that of the earlier iteration.
fn is_first(kinds: Kinds, access: Access) -> bool
    ensures { result ≡ is_first_is kinds access }
{
    match kinds {
        Kinds::WriteRead | Kinds::WriteWrite => is_write(access),
        Kinds::ReadWrite => is_read(access),
    }
}

/// Whether an access is that of the later iteration.
fn is_second(kinds: Kinds, access: Access) -> bool
    ensures { result ≡ is_second_is kinds access }
{
    match kinds {
        Kinds::WriteRead => is_read(access),
        Kinds::ReadWrite | Kinds::WriteWrite => is_write(access),
    }
}

/// Whether two variables are one or share a unit by COMMON or EQUIVALENCE (ANSI X3.9-1978, §17.1).
fn related(symbols: &Symbols, v: &Variable, w: &Variable) -> bool
    ensures { result ≡ related_is (map symbol_tree symbols.now) v.now w.now }
{
    same_variable(v, w) || overlaps(symbols, v, w)
}

fn may_meet(symbols: &Symbols, v: &Variable, r: &Region) -> bool
    ensures { result ≡ may_meet_is (map symbol_tree symbols.now) v.now r.now }
{
    related(symbols, &r.variable, v)
}

fn is_written(v: &Variable, r: &Region) -> bool
    ensures { result ≡ is_written_is v.now r.now }
{
    is_write(r.kind) && same_variable(&r.variable, v)
}

/// Whether a dependence of these kinds through `v` is looked for between a region of the earlier iteration, `x`, and one of the later, `y`: one
/// of them is the WRITE region of `v`, and the other one of `v` or of a variable that shares a unit with it.
pub fn is_pair(symbols: &Symbols, v: &Variable, kinds: Kinds, x: &Region, y: &Region) -> bool
    ensures { result ≡ is_pair_is (map symbol_tree symbols.now) v.now kinds x.now y.now }
{
    (is_first(kinds, x.kind) && is_second(kinds, y.kind))
        && ((is_written(v, x) && may_meet(symbols, v, y))
            || (is_written(v, y) && may_meet(symbols, v, x)))
}
