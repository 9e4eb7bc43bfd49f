//! Equality of what values were made from.
ghost use Rattle.std.specs.Prelude.{◌≡◌, map};
ghost use Rattle.std.specs.Cmp.Lexicographic.{pointwise};
ghost use Rattle.result_store.specs.Stamps.{same_item, same_stamped};
ghost use Rattle.result_store.specs.Values.{item_of, stamped_tree};

use crate::item::{Item, Stamped};

fn same_item(a: Item, b: Item) -> bool
    ensures { result ≡ same_item (item_of a) (item_of b) }
{
    match a {
        Item::Text => match b {
            Item::Text => true,
            Item::Result(_) => false,
        },
        Item::Result(kind) => match b {
            Item::Text => false,
            Item::Result(other) => kind.number() == other.number(),
        },
    }
}

fn same_stamped(a: &Stamped, b: &Stamped) -> bool
    ensures { result ≡ same_stamped (stamped_tree a.now) (stamped_tree b.now) }
{
    same_item(a.item, b.item) && a.name == b.name && a.stamp == b.stamp
}

/// Whether two lists of stamps are the same.
pub(crate) fn same_stamps(a: &[Stamped], b: &[Stamped]) -> bool
    ensures { result ≡ pointwise same_stamped (map stamped_tree a.now) (map stamped_tree b.now) }
{
    let mut left = a;
    let mut right = b;
    while let [x, more @ ..] = left {
        let [y, others @ ..] = right else {
            return false;
        };
        if !same_stamped(x, y) {
            return false;
        }
        left = more;
        right = others;
    }
    right.is_empty()
}
