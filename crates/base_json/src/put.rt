//! What is appended as compact JSON with no value in between, and lists of it.
ghost use Rattle.std.specs.Prelude.{◌≡◌, ◌++◌, map, false, OnOk};
ghost use Rattle.serde_json.specs.View.{items_of};
ghost use Rattle.serde_json.specs.Written.{compact_text, comma_if, items_text};
ghost use Rattle.base_json.specs.Written.{list_data, number_data};

use crate::put_plain::put_number;
use fx_lists::Text;
use std::alloc::{AllocError as Memory, Global};

/// What is appended as compact JSON, within a scope `S` that has the names of what is written.
pub trait Put<S> {
    ghost use Rattle.serde_json.specs.Data.{Data};

    ghost data_of: { S → Self → Data };

    /// Appends the text.
    fn put(&self, alloc: Global, scope: &S, out: &mut Text) -> Result<(), Memory>
        ensures { OnOk result (out.new ≡ out.old ++ compact_text (data_of scope.now self.now)) };
}

impl<S> Put<S> for u32 {
    ghost data_of = { λ _ n. number_data n };

    fn put(&self, alloc: Global, _scope: &S, out: &mut Text) -> Result<(), Memory> {
        put_number(alloc, u64::from(*self), out)
    }
}

/// Appends a comma, where something stands before.
fn put_comma(later: bool, out: &mut Text) -> Result<(), Memory>
    ensures { OnOk result (out.new ≡ out.old ++ comma_if later) }
{
    if later {
        return out.push(b',');
    }
    Ok(())
}

/// Appends the items of a list and the bracket behind them.
fn put_items<S, T: Put<S>>(
    alloc: Global,
    scope: &S,
    list: &[T],
    out: &mut Text,
) -> Result<(), Memory>
    ensures { OnOk result (out.new ≡ out.old ++ items_text false (items_of (map (T.data_of scope.now) list.now))) }
{
    let mut later = false;
    for item in list {
        put_comma(later, out)?;
        item.put(alloc, scope, out)?;
        later = true;
    }
    out.push(b']')
}

/// Appends the array of a list.
#[tactic(auto, using(std::proofs::Common::append_assoc))]
pub fn put_list<S, T: Put<S>>(
    alloc: Global,
    scope: &S,
    list: &[T],
    out: &mut Text,
) -> Result<(), Memory>
    ensures { OnOk result (out.new ≡ out.old ++ compact_text (list_data (map (T.data_of scope.now) list.now))) }
{
    out.push(b'[')?;
    put_items(alloc, scope, list, out)
}
