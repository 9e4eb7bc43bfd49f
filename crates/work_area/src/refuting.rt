//! Refutation in the reserved tables: all variables are eliminated, and where `0 <= -1` comes out there is no point.
ghost use Rattle.std.specs.Prelude.{◌≡◌, ◌+◌, ◌<◌, ◌≤◌, ◌^◌, suc, if◌then◌else◌, false};
ghost use Rattle.std.specs.Vec.{vec_capacity};
ghost use Rattle.affine_systems.specs.Given.{ItemsFit};
ghost use Rattle.work_area.specs.Columns.{InColumns};
ghost use Rattle.hull_projection.specs.Refute.{left, eliminate_all, refuted_items};
ghost use Rattle.work_area.specs.Tables.{items_of, IsReady, IsSound, KeepsReady, MadeBelow};
ghost use Rattle.work_area.specs.Refuting.{vars_of, LeavesFew};

use crate::any_false;
use crate::marking::{drop_many, mark_rows};
use crate::noting::note_tables;
use crate::substitution::eliminate_rows;
use crate::tables::Tables;
use affine_systems::{Term, Var};

/// One elimination more, which was by pairs or not.
fn pairs_after(pairs: usize, paired: bool) -> usize
    requires { pairs + 1 < 2 ^ 64 }
    ensures { result ≡ (if paired then suc pairs else pairs) }
{
    if paired { pairs + 1 } else { pairs }
}

/// One variable less, without the rows that then come from too many originals; and how many eliminations were by pairs.
fn eliminate_more(tables: &mut Tables, v: Var, pairs: usize) -> usize
    requires sound { IsSound tables.old }
    requires fits { ItemsFit false (items_of tables.old) }
    requires below { MadeBelow (2 ^ 126) (items_of tables.old) }
    requires room { pairs + 1 < 2 ^ 64 }
    ensures left { LeavesFew v pairs (items_of tables.old) (items_of tables.new) result }
    ensures few { result ≤ pairs + 1 }
    ensures ready { KeepsReady tables.old tables.new }
{
    let outcome = eliminate_rows(tables, v);
    let pairs = pairs_after(pairs, outcome.paired);
    drop_many(tables, pairs);
    pairs
}

/// What is left without the variables of a sum, which are eliminated in its order. After k eliminations by pairs, rows
/// from more than k + 1 originals are dropped.
fn eliminate_each(tables: &mut Tables, sum: &[Term])
    requires sound { IsSound tables.old }
    requires fits { ItemsFit false (items_of tables.old) }
    requires below { MadeBelow 512 (items_of tables.old) }
    ensures items { items_of tables.new ≡ (eliminate_all false (left (items_of tables.old) false 0) (vars_of sum.now)).items }
    ensures ready { KeepsReady tables.old tables.new }
{
    let mut pairs = 0;
    for i in 0..sum.len() {
        pairs = eliminate_more(tables, sum[i].var, pairs);
    }
}

/// Whether tidied rows of at most so many variables are refuted; their variables are put into the sum, which has room.
pub fn refuted_rows(tables: &mut Tables, sum: &mut Vec<Term>, columns: usize) -> bool
    requires ready { IsReady columns tables.old }
    requires held { InColumns columns (items_of tables.old) }
    requires fits { ItemsFit false (items_of tables.old) }
    requires sum { columns ≤ vec_capacity sum.old }
    ensures defined { result ≡ refuted_items (items_of tables.old) }
    ensures ready { KeepsReady tables.old tables.new }
    ensures sum { vec_capacity sum.old ≤ vec_capacity sum.new }
{
    note_tables(sum, columns, tables);
    mark_rows(tables);
    eliminate_each(tables, sum.as_slice());
    let rows = tables.rows.as_slice();
    any_false(&rows[..tables.len])
}
