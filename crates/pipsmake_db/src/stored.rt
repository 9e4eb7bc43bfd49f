//! Copies of values of stored kinds.
ghost use Rattle.std.specs.Prelude.{◌≡◌, IfOk};
ghost use Rattle.result_store.specs.Values.{value_tree};
ghost use Rattle.pipsmake_db.specs.Shown.{stored_in};

use base_values::StoredValue;
use result_store::{Copied, Value};
use std::alloc::{AllocError as Memory, Global};

/// The same value as one of a stored kind; None where its kind is not stored.
pub fn stored_of(alloc: Global, value: &Value) -> Result<Option<StoredValue>, Memory>
    ensures { IfOk result (λ s. s ≡ stored_in (value_tree value.now)) }
{
    match value {
        Value::Source(_)
        | Value::Parsed(_)
        | Value::Lines(_)
        | Value::Symbols(_)
        | Value::CallGraph(_)
        | Value::Printed(_) => Ok(None),
        Value::Effects(x) => Ok(Some(StoredValue::Effects(x.copied(alloc)?))),
        Value::Transformers(x) => Ok(Some(StoredValue::Transformers(x.copied(alloc)?))),
        Value::Preconditions(x) => Ok(Some(StoredValue::Preconditions(x.copied(alloc)?))),
        Value::Regions(x) => Ok(Some(StoredValue::Regions(x.copied(alloc)?))),
        Value::InRegions(x) => Ok(Some(StoredValue::InRegions(x.copied(alloc)?))),
        Value::OutRegions(x) => Ok(Some(StoredValue::OutRegions(x.copied(alloc)?))),
        Value::Marks(x) => Ok(Some(StoredValue::Marks(x.copied(alloc)?))),
    }
}
