//! Rows that never hold, copies of rows, and the numbers of items.
ghost use Rattle.std.specs.Prelude.{◌≡◌, ◌+◌, ◌<◌, ◌≤◌, ◌^◌, IfOk, OnErr};
ghost use Rattle.affine_systems.specs.Items.{false_item as false_item_is, is_false_row as is_false_row_is, any_false as any_false_is, collapsed, next_made as next_made_is, items_from as items_from_is, rows_of as rows_of_is};

use crate::Row;
use crate::items::{Item, Originals};
use fx_lists::List;
use std::alloc::{AllocError as Memory, Global};

/// The item of the infeasible row `0 <= -1`, without originals, with number 0. Takes no memory.
pub fn false_item(alloc: Global) -> Item
    ensures { result ≡ false_item_is }
{
    Item {
        row: Row {
            equal: false,
            terms: List::new(alloc),
            bound: -1,
        },
        originals: Originals::none(),
        made: 0,
    }
}

/// Whether it is infeasible: no terms, and a bound that 0 does not meet.
fn is_false_row(row: &Row) -> bool
    ensures { result ≡ is_false_row_is row.now }
{
    !row.equal && row.terms.is_empty() && row.bound < 0
}

/// Whether some row is an at-most row without terms and with a negative bound, so that no point meets it.
pub fn any_false(items: &[Item]) -> bool
    ensures { result ≡ any_false_is items.now }
{
    items.iter().any(|item| is_false_row(&item.row))
}

/// The items as they are, or the item of `0 <= -1` alone where `any_false` holds of them.
pub fn collapse(alloc: Global, items: Vec<Item>) -> Result<Vec<Item>, Memory>
    ensures { IfOk result (λ v. v.items ≡ collapsed items.items) }
{
    if any_false(items.as_slice()) {
        let mut one = Vec::new(alloc);
        one.push(false_item(alloc))?;
        Ok(one)
    } else {
        Ok(items)
    }
}

/// A copy of a row.
pub fn copy_row(alloc: Global, row: &Row) -> Result<Row, Memory>
    ensures { IfOk result (λ r. r ≡ row.now) }
{
    Ok(Row {
        equal: row.equal,
        terms: List::from_slice(alloc, row.terms.as_slice())?,
        bound: row.bound,
    })
}

/// A copy of an item, with its originals and its number.
pub fn copy_item(alloc: Global, item: &Item) -> Result<Item, Memory>
    ensures { IfOk result (λ i. i ≡ item.now) }
{
    Ok(Item {
        row: copy_row(alloc, &item.row)?,
        originals: item.originals,
        made: item.made,
    })
}

#[tactic(auto, using(crate::proofs::ItemSteps::next_made_loop))]
/// The least number above those of the items, 0 of none. Memory where it and `more` after it are not all below 2^64: no
/// run makes so many items.
pub fn next_made(items: &[Item], more: usize) -> Result<u64, Memory>
    ensures defined { IfOk result (λ n. n ≡ next_made_is items.now) }
    ensures room { IfOk result (λ n. n + more < 2 ^ 64) }
    ensures no_room { OnErr result (2 ^ 64 ≤ next_made_is items.now + more) }
{
    let mut least: u64 = 0;
    for item in items {
        if item.made == u64::MAX {
            return Err(Memory);
        }
        least = least.max(item.made + 1);
    }
    if u64::MAX - least < more as u64 {
        return Err(Memory);
    }
    Ok(least)
}
