//! Stored values as values of results.
ghost use Rattle.std.specs.Prelude.{◌≡◌, IfOk};
ghost use Rattle.pipsmake_db.specs.result_store.Values.{value_tree};
ghost use Rattle.pipsmake_base.specs.Saved.{value_in};

use pipsmake_db::base_values::StoredValue;
use pipsmake_db::result_store::{Copied, Value};
use std::alloc::{AllocError as Memory, Global};

/// The same as the value of a result.
pub(crate) fn value_of(stored: StoredValue) -> Value
    ensures { value_tree result ≡ value_in stored }
{
    match stored {
        StoredValue::Effects(x) => Value::Effects(x),
        StoredValue::Transformers(x) => Value::Transformers(x),
        StoredValue::Preconditions(x) => Value::Preconditions(x),
        StoredValue::Regions(x) => Value::Regions(x),
        StoredValue::InRegions(x) => Value::InRegions(x),
        StoredValue::OutRegions(x) => Value::OutRegions(x),
        StoredValue::Marks(x) => Value::Marks(x),
    }
}

/// A copy as the value of a result.
pub(crate) fn copied_value(alloc: Global, stored: &StoredValue) -> Result<Value, Memory>
    ensures { IfOk result (λ v. value_tree v ≡ value_in stored.now) }
{
    match stored {
        StoredValue::Effects(x) => Ok(Value::Effects(x.copied(alloc)?)),
        StoredValue::Transformers(x) => Ok(Value::Transformers(x.copied(alloc)?)),
        StoredValue::Preconditions(x) => Ok(Value::Preconditions(x.copied(alloc)?)),
        StoredValue::Regions(x) => Ok(Value::Regions(x.copied(alloc)?)),
        StoredValue::InRegions(x) => Ok(Value::InRegions(x.copied(alloc)?)),
        StoredValue::OutRegions(x) => Ok(Value::OutRegions(x.copied(alloc)?)),
        StoredValue::Marks(x) => Ok(Value::Marks(x.copied(alloc)?)),
    }
}
