//! The work area: what holds a system in reserved memory.
ghost use Rattle.std.specs.Prelude.{◌≡◌, ◌↔◌, true, IfOk};
ghost use Rattle.affine_systems.specs.Eliminate.{eliminate};
ghost use Rattle.affine_systems.specs.Given.{Fits};
ghost use Rattle.affine_systems.specs.Tidy.{tidy};
ghost use Rattle.hull_projection.specs.Laws.{HasNoPoint};
ghost use Rattle.hull_projection.specs.Refute.{refuted};
ghost use Rattle.work_area.specs.Area.{area, no_rows, HasFew};

use crate::noting::{is_noted, note_tables};
use crate::refuting::refuted_rows;
use crate::substitution::eliminate_rows;
use crate::tables::{Tables, put_rows, row_list, start, with_places};
use crate::tidying::{either, tidy_tables};
use crate::{Slot, note_rows};
use affine_systems::{System, Term, Var};
use std::alloc::{AllocError as Memory, Global};
use std::marker::Model;

/// Memory for the elimination of variables of a system of at most 512 rows with at most so many variables, and the
/// system that it holds. Contracts see that system and the number of variables.
#[derive(Debug, Drop)]
pub struct Work {
    columns: usize,
    weak: bool,
    tables: Tables,
    sum: Vec<Term>,
}

impl Model for Work {
    ghost use Rattle.work_area.specs.Area.{Area};

    ghost Value = { Area };

    ghost use Rattle.work_area.specs.Inside.{area_in, IsWork};

    ghost view = { area_in };

    ghost invariant = { IsWork };
}

/// Whether a system was taken in.
#[derive(Clone, Copy, PartialEq, Eq, Debug)]
pub enum Loaded {
    Done,
    /// It has more variables than the area has columns.
    NoRoom,
}

impl Work {
    /// Reserves memory for systems of at most `columns` variables. The area then holds the system without rows.
    pub fn with_room(alloc: Global, columns: u32) -> Result<Work, Memory>
        ensures { IfOk result (λ w. w ≡ area no_rows columns) }
    {
        let columns = columns as usize;
        Ok(Work {
            columns,
            weak: false,
            tables: Tables {
                rows: with_places(alloc, columns)?,
                len: 0,
                others: with_places(alloc, columns)?,
                scratch: Slot::with_room(alloc, columns)?,
                pivot: Slot::with_room(alloc, columns)?,
            },
            sum: Vec::with_capacity(alloc, columns)?,
        })
    }

    /// Takes a system of at most 512 rows in, in place of what was there. Where it has more variables than the area has
    /// columns, the area stays as it was. Takes no memory.
    pub fn load(&mut self, sys: &System) -> Loaded
        requires { Fits sys.now }
        ensures done { result ≡ Loaded.Done → self.new ≡ area sys.now self.old.columns }
        ensures no_room { result ≡ Loaded.NoRoom → self.new ≡ self.old }
        ensures exactly { (result ≡ Loaded.Done) ↔ HasFew self.old.columns sys.now }
    {
        self.sum.clear();
        if !note_rows(&mut self.sum, self.columns, sys.rows.as_slice()) {
            note_tables(&mut self.sum, self.columns, &self.tables);
            return Loaded::NoRoom;
        }
        put_rows(self.tables.rows.as_mut_slice(), sys.rows.as_slice());
        self.tables.len = sys.rows.len();
        self.weak = sys.weak;
        Loaded::Done
    }

    /// A copy of the system that the area holds.
    pub fn system(&self, alloc: Global) -> Result<System, Memory>
        ensures defined { IfOk result (λ s. s ≡ self.now.system) }
        ensures fits { IfOk result Fits }
    {
        let rows = self.tables.rows.as_slice();
        Ok(System {
            rows: row_list(alloc, &rows[..self.tables.len])?,
            weak: self.weak,
        })
    }
}

/// Tidies the system that the area holds. Takes no memory.
pub fn tidy_in(work: &mut Work)
    ensures { work.new ≡ area (tidy work.old.system) work.old.columns }
{
    start(&mut work.tables);
    let lost = tidy_tables(&mut work.tables);
    work.weak = either(work.weak, lost);
    note_tables(&mut work.sum, work.columns, &work.tables);
}

/// Eliminates a variable from the system that the area holds: whether that is exact. Takes no memory.
pub fn eliminate_in(work: &mut Work, var: Var) -> bool
    ensures area { work.new ≡ area (eliminate work.old.system var).system work.old.columns }
    ensures exact { result ≡ (eliminate work.old.system var).exact }
{
    if !is_noted(work.sum.as_slice(), var) {
        return true;
    }
    start(&mut work.tables);
    let outcome = eliminate_rows(&mut work.tables, var);
    work.weak = either(work.weak, outcome.lost);
    note_tables(&mut work.sum, work.columns, &work.tables);
    outcome.exact
}

/// Whether the elimination of all variables shows that no integer point meets the rows that the area holds. The area then
/// holds a system of which nothing is said. Takes no memory.
pub fn refuted_in(work: &mut Work) -> bool
    ensures defined { result ≡ refuted work.old.system.rows }
    ensures none { result ≡ true → HasNoPoint work.old.system.rows }
    ensures columns { work.new.columns ≡ work.old.columns }
{
    start(&mut work.tables);
    let _ = tidy_tables(&mut work.tables);
    let none = refuted_rows(&mut work.tables, &mut work.sum, work.columns);
    work.tables.len = 0;
    work.weak = false;
    work.sum.clear();
    none
}
