//! Two tables of rows in reserved memory.
ghost use Rattle.std.specs.Prelude.{◌≡◌, ◌+◌, ◌<◌, ◌≤◌, length, take, map, IfOk};
ghost use Rattle.affine_systems.specs.Items.{items_from, rows_of};
ghost use Rattle.work_area.specs.Slots.{row_in, items_in, HaveRoom, KeepsRoom};
ghost use Rattle.work_area.specs.Tables.{FitAll, items_of, IsReady, KeepsReady};

use crate::Slot;
use affine_systems::Row;
use affine_systems::items::ROWS;
use fx_lists::List;
use std::alloc::{AllocError as Memory, Global};

/// The rows of a system, and room for what becomes of them.
#[derive(Debug, Drop)]
pub struct Tables {
    /// The rows are the first `len` of 512 places.
    pub rows: Vec<Slot>,
    pub len: usize,
    /// As many places more.
    pub others: Vec<Slot>,
    /// Two places for single rows.
    pub scratch: Slot,
    pub pivot: Slot,
}

/// 512 places for rows of at most so many terms.
pub fn with_places(alloc: Global, columns: usize) -> Result<Vec<Slot>, Memory>
    ensures len { IfOk result (λ v. length v.items ≡ 512) }
    ensures room { IfOk result (λ v. HaveRoom columns v.items) }
{
    let mut out = Vec::with_capacity(alloc, ROWS)?;
    while out.len() < ROWS {
        out.push(Slot::with_room(alloc, columns)?)?;
    }
    Ok(out)
}

/// Copies rows into the leading places, numbered from 0 and without originals.
pub fn put_rows(out: &mut [Slot], rows: &[Row])
    requires places { length rows.now ≤ length out.old }
    requires fit { FitAll rows.now out.old }
    ensures items { take (length rows.now) (items_in out.new) ≡ items_from 0 rows.now }
    ensures room { KeepsRoom out.old out.new }
{
    for i in 0..rows.len() {
        out[i].put_row(&rows[i], i as u128);
    }
}

/// Copies of rows, in order.
pub fn row_list(alloc: Global, rows: &[Slot]) -> Result<List<Row>, Memory>
    ensures { IfOk result (λ rs. rs ≡ map row_in rows.now) }
{
    let mut out = Vec::with_capacity(alloc, rows.len())?;
    for slot in rows {
        out.push(slot.row(alloc)?)?;
    }
    Ok(List::from_vec(out))
}

/// Numbers rows anew, from 0 and without originals.
fn renumber(rows: &mut [Slot])
    ensures items { items_in rows.new ≡ items_from 0 (rows_of (items_in rows.old)) }
    ensures room { KeepsRoom rows.old rows.new }
{
    for i in 0..rows.len() {
        rows[i].number(i as u128);
    }
}

/// The same of the leading rows.
fn renumber_front(rows: &mut [Slot], len: usize)
    requires { len ≤ length rows.old }
    ensures items { take len (items_in rows.new) ≡ items_from 0 (rows_of (take len (items_in rows.old))) }
    ensures room { KeepsRoom rows.old rows.new }
{
    let front = &mut rows[..len];
    renumber(front);
}

/// The rows, numbered anew.
pub fn start(tables: &mut Tables)
    requires { IsReady 0 tables.old }
    ensures items { items_of tables.new ≡ items_from 0 (rows_of (items_of tables.old)) }
    ensures ready { KeepsReady tables.old tables.new }
{
    renumber_front(tables.rows.as_mut_slice(), tables.len);
}
