//! Values that are seen and not kept yet.
ghost use Rattle.std.specs.Prelude.{◌≡◌, IfOk, OnOk};
ghost use Rattle.pipsmake_db.specs.base_values.Naming.{Each};
ghost use Rattle.pipsmake_db.specs.result_store.Fits.{ValueFits};
ghost use Rattle.pipsmake_db.specs.result_store.Rows.{memo_cells_of};
ghost use Rattle.pipsmake_db.specs.result_store.Values.{value_tree};
ghost use Rattle.pipsmake_base.specs.Saved.{value_in};
ghost use Rattle.pipsmake_base.specs.Taken.{SeesFirst, SeesResults};

use crate::stored::value_of;
use base_text::StoredResult;
use f77_structure::stack_of;
use fx_lists::List;
use pipsmake_db::base_values::kind_of;
use pipsmake_db::copy_key;
use pipsmake_db::pipsmake_rules::{Key, Listed};
use pipsmake_db::result_store::{Item, Store, Value};
use std::alloc::{AllocError as Memory, Global};

/// A value is seen of a result of which none was. Err also where one was, as none is by `load`.
pub(crate) fn see_value(
    alloc: Global,
    store: &mut Store,
    seen: &mut Listed,
    key: &Key,
    value: Value,
) -> Result<(), Memory>
    requires { ValueFits (value_tree value) }
    ensures { OnOk result (SeesFirst (memo_cells_of store.old) seen.old key.now (value_tree value) (memo_cells_of store.new) seen.new) }
{
    let stamp = store.see(alloc, Item::Result(key.kind), &key.name, value)?;
    if stamp != 0 {
        return Err(Memory);
    }
    let copy = copy_key(key)?;
    seen.push(alloc, copy)?;
    Ok(())
}

/// Stored values are seen; the results that they are of, in their order.
pub(crate) fn see_results(
    alloc: Global,
    store: &mut Store,
    results: List<StoredResult>,
) -> Result<Listed, Memory>
    requires { Each (λ (r : _). ValueFits (value_in r.value)) results }
    ensures { IfOk result (SeesResults (memo_cells_of store.old) results (memo_cells_of store.new)) }
{
    let mut seen = Listed::new(alloc);
    let mut rest = stack_of(results);
    while let Some(stored) = rest.pop() {
        let StoredResult { name, value } = stored;
        let key = Key {
            kind: kind_of(&value),
            name,
        };
        let value = value_of(value);
        see_value(alloc, store, &mut seen, &key, value)?;
    }
    Ok(seen)
}
