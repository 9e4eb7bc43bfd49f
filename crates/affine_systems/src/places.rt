//! Tables with a place for each variable or row, filled in one walk over the rows: most searches among all rows end there.
ghost use Rattle.std.specs.Prelude.{◌≡◌, ◌≢◌, ◌<◌, ◌≤◌, ◌%◌, ℕ, suc, min, nat_lt, slice_index, unsigned_abs};
ghost use Rattle.affine_systems.specs.Places.{place_of, key_after, key_of, side_of as side_is, far_side_of, may_face as may_face_is, Noted, Covers, Sided};

use crate::items::Item;
use crate::normal::last_is_negative;
use crate::{Row, Term, Var};

/// A hash table of counts: 0, 1, or 2 for two and more, at each of 4,096 places. Several variables or rows may share a
/// place.
pub type Places = [u8; 4096];

#[tactic(auto, unfolding(crate::specs::Places::place_of))]
/// The place of a variable.
pub fn place(v: Var) -> usize
    ensures defined { result ≡ place_of v }
    ensures within { result < 4096 }
{
    (v.number() as usize + 1024 * v.kind() as usize) % 4096
}

fn no_places() -> Places
    ensures { (b : ℕ) → b < 4096 → slice_index result b ≡ 0 }
{
    [0; 4096]
}

/// One more at a place.
fn raise(table: &mut Places, at: usize)
    requires within { at < 4096 }
    requires few { slice_index table.now at < 2 }
    ensures here { slice_index table.new at ≡ suc (slice_index table.old at) }
    ensures others { (b : ℕ) → b ≢ at → slice_index table.new b ≡ slice_index table.old b }
{
    table[at] += 1;
}

/// One more at a place, up to 2.
fn note(table: &mut Places, at: usize)
    requires { at < 4096 }
    ensures kept { (b : ℕ) → slice_index table.old b ≤ slice_index table.new b }
    ensures here { min 2 (suc (slice_index table.old at)) ≤ slice_index table.new at }
{
    if table[at] > 1 {
        return;
    }
    raise(table, at);
}

fn note_terms(table: &mut Places, terms: &[Term])
    ensures { Noted table.old table.new terms.now }
{
    for t in terms {
        note(table, place(t.var));
    }
}

/// The table of how often variables occur: 2 at the place of each variable that more than one row has.
pub fn occurrences(items: &[Item]) -> Places
    ensures { Covers result items.now }
{
    let mut table = no_places();
    for item in items {
        note_terms(&mut table, item.row.terms.as_slice());
    }
    table
}

/// Whether the place of a variable has less than 2; then, in a table of `occurrences`, at most one row has the
/// variable.
pub fn is_rare(table: &Places, v: Var) -> bool
    ensures { result ≡ nat_lt (slice_index table.now (place_of v)) 2 }
{
    table[place(v)] < 2
}

/// The last bits of a factor without its sign.
fn size(factor: i128) -> usize
    ensures defined { result ≡ unsigned_abs factor % 256 }
    ensures within { result < 256 }
{
    (factor.unsigned_abs() % 256) as usize
}

#[tactic(auto, unfolding(crate::specs::Places::key_after))]
fn next_key(n: usize, t: Term) -> usize
    requires { n < 2048 }
    ensures defined { result ≡ key_after n t }
    ensures within { result < 2048 }
{
    (31 * n + 7 * size(t.factor) + place(t.var)) % 2048
}

/// A number of the terms but for the signs, which opposite rows share.
fn key(terms: &[Term]) -> usize
    ensures defined { result ≡ key_of 0 terms.now }
    ensures within { result < 2048 }
{
    let mut n = 0;
    for t in terms {
        n = next_key(n, *t);
    }
    n
}

/// The place of a row.
fn side(terms: &[Term]) -> usize
    ensures defined { result ≡ side_is terms.now }
    ensures within { result < 4096 }
{
    if last_is_negative(terms) {
        2048 + key(terms)
    } else {
        key(terms)
    }
}

/// The place of the rows that are opposite to a row.
fn far_side(terms: &[Term]) -> usize
    ensures defined { result ≡ far_side_of terms.now }
    ensures within { result < 4096 }
{
    if last_is_negative(terms) {
        key(terms)
    } else {
        2048 + key(terms)
    }
}

fn note_side(table: &mut Places, terms: &[Term])
    ensures kept { (b : ℕ) → slice_index table.old b ≤ slice_index table.new b }
    ensures here { 1 ≤ slice_index table.new (side_is terms.now) }
{
    note(table, side(terms));
}

/// The table of rows: not 0 at the place of each, by its terms but for the signs and the sign of its last factor.
pub fn sides(items: &[Item]) -> Places
    ensures { Sided result items.now }
{
    let mut table = no_places();
    for item in items {
        note_side(&mut table, item.row.terms.as_slice());
    }
    table
}

fn has_far(table: &Places, terms: &[Term]) -> bool
    ensures { result ≡ nat_lt 0 (slice_index table.now (far_side_of terms.now)) }
{
    table[far_side(terms)] > 0
}

/// Whether an at-most row may have an opposite, by a table of `sides`. Where the answer is no, no row of the table is
/// opposite to it.
pub fn may_face(table: &Places, row: &Row) -> bool
    ensures { result ≡ may_face_is table.now row.now }
{
    !row.equal && (row.terms.is_empty() || has_far(table, row.terms.as_slice()))
}
