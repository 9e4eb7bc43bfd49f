//! The variables of rows, as they are met.
ghost use Rattle.std.specs.Prelude.{◌≡◌, ◌++◌, ◌∷◌, ◌<◌, ◌≤◌, pos, false, take, drop, length};
ghost use Rattle.std.specs.Vec.{vec_len, vec_capacity};
ghost use Rattle.affine_systems.specs.Terms.{Ascends, term, add_term};
ghost use Rattle.affine_systems.specs.Places.{has_var as has_var_is};
ghost use Rattle.work_area.specs.Columns.{noted, noted_terms, noted_rows, Notes};

use affine_systems::{Row, Term, Var};

#[tactic(auto, using(crate::proofs::NoteSteps::has_loop))]
/// Whether a variable stands in a sum.
fn has_var(sum: &[Term], v: Var) -> bool
    ensures { result ≡ has_var_is v sum.now }
{
    for t in sum {
        if v.is_same(t.var) {
            return true;
        }
    }
    false
}

#[tactic(auto, using(crate::proofs::NoteSteps::place_loop))]
/// The index at which a variable that does not stand in a sum is to be put in.
fn place_for(sum: &[Term], v: Var) -> usize
    requires { has_var_is v sum.now ≡ false }
    ensures within { result ≤ length sum.now }
    ensures place { add_term v (pos 1) sum.now ≡ take result sum.now ++ term v (pos 1) ∷ drop result sum.now }
{
    for i in 0..sum.len() {
        if v.is_before(sum[i].var) {
            return i;
        }
    }
    sum.len()
}

/// Puts a term in at an index, where there is room.
fn put_at(sum: &mut Vec<Term>, at: usize, term: Term)
    requires room { vec_len sum.old < vec_capacity sum.old }
    requires within { at ≤ vec_len sum.old }
    ensures items { sum.new.items ≡ take at sum.old.items ++ term ∷ drop at sum.old.items }
    ensures room { vec_capacity sum.old ≤ vec_capacity sum.new }
{
    let _ = sum.insert(at, term);
}

/// Notes a variable in a sum of at most `limit` terms, where there is room.
fn note(sum: &mut Vec<Term>, limit: usize, v: Var) -> bool
    requires room { limit ≤ vec_capacity sum.old }
    requires few { vec_len sum.old ≤ limit }
    ensures notes { Notes limit (noted v sum.old.items) sum.new.items result }
    ensures room { vec_capacity sum.old ≤ vec_capacity sum.new }
    ensures few { vec_len sum.new ≤ limit }
{
    if has_var(sum.as_slice(), v) {
        return true;
    }
    if sum.len() == limit {
        return false;
    }
    let at = place_for(sum.as_slice(), v);
    put_at(sum, at, Term { var: v, factor: 1 });
    true
}

/// Notes the variables of terms in a sum of at most `limit` terms, and says whether there was room.
pub fn note_terms(sum: &mut Vec<Term>, limit: usize, terms: &[Term]) -> bool
    requires room { limit ≤ vec_capacity sum.old }
    requires few { vec_len sum.old ≤ limit }
    ensures notes { Notes limit (noted_terms sum.old.items terms.now) sum.new.items result }
    ensures room { vec_capacity sum.old ≤ vec_capacity sum.new }
    ensures few { vec_len sum.new ≤ limit }
{
    for t in terms {
        if !note(sum, limit, t.var) {
            return false;
        }
    }
    true
}

/// Notes the variables of rows in a sum of at most `limit` terms, and says whether there was room.
pub fn note_rows(sum: &mut Vec<Term>, limit: usize, rows: &[Row]) -> bool
    requires room { limit ≤ vec_capacity sum.old }
    requires few { vec_len sum.old ≤ limit }
    ensures notes { Notes limit (noted_rows sum.old.items rows.now) sum.new.items result }
    ensures room { vec_capacity sum.old ≤ vec_capacity sum.new }
    ensures few { vec_len sum.new ≤ limit }
{
    for row in rows {
        if !note_terms(sum, limit, row.terms.as_slice()) {
            return false;
        }
    }
    true
}
