//! The units of names.
ghost use Rattle.std.specs.Prelude.{◌≡◌, IfOk};
ghost use Rattle.f77_names.specs.Entries.{entry_tree};
ghost use Rattle.f77_names.specs.Views.{table_tree};
ghost use Rattle.f77_checks.specs.Dimensions.{dims_in};
ghost use Rattle.storage_data.specs.Units.{units_by, units_of};

use f77_checks::dimensions_of;
use f77_names::{Entry, NameTable};
use fx_lists::Text;
use std::alloc::{AllocError as Memory, Global};

fn entry_units(alloc: Global, table: &NameTable, entry: &Entry) -> Result<u64, Memory>
    ensures { IfOk result
        (λ n. n ≡ units_by (dims_in (table_tree table.now) (entry_tree entry.now))) }
{
    match dimensions_of(alloc, table, entry)? {
        None => Ok(1),
        Some(known) => Ok(known.units),
    }
}

/// How many units the variable of a name has; 1 where the name or its dimensions are not known.
pub fn units_of(alloc: Global, table: &NameTable, name: &Text) -> Result<u64, Memory>
    ensures { IfOk result (λ n. n ≡ units_of (table_tree table.now) name.now) }
{
    match table.names.find(name) {
        None => Ok(1),
        Some(entry) => entry_units(alloc, table, entry),
    }
}
