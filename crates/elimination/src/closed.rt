//! Closed items, which tidying leaves as they are.
ghost use Rattle.std.specs.Prelude.{◌≡◌, true, Bool};
ghost use Rattle.affine_systems.specs.Rows.{AllRows};
ghost use Rattle.affine_systems.specs.Given.{IsSmallRow, ItemsSmall, AreNormal};
ghost use Rattle.affine_systems.specs.Items.{rows_of};
ghost use Rattle.affine_systems.specs.Places.{Sided};
ghost use Rattle.affine_systems.specs.Lone.{Rises, AreApart, AllApart, AllHaveTerms, IsClosed};

use affine_systems::items::{
    Item, Places, are_opposite, find_pivot, may_face, rises_at, sides, total,
};

/// Whether each item comes before the next in the order of rows.
pub fn all_rise(items: &[Item]) -> bool
    ensures { result ≡ true → Rises (rows_of items.now) }
{
    for i in 0..items.len() {
        if !rises_at(items, i) {
            return false;
        }
    }
    true
}

/// Whether each opposite of an item leaves more than one number between them. Looks at each.
fn is_apart_among(item: &Item, items: &[Item]) -> bool
    requires one { IsSmallRow item.now.row }
    requires each { ItemsSmall items.now }
    ensures { result ≡ true → AllRows (AreApart item.now.row) (rows_of items.now) }
{
    for other in items {
        if are_opposite(&item.row, &other.row) && total(&item.row, &other.row) <= 0 {
            return false;
        }
    }
    true
}

/// The same, with a table of the places of rows: only where that of its opposites is not empty does it look at the rows.
fn is_apart(table: &Places, item: &Item, items: &[Item]) -> bool
    requires one { IsSmallRow item.now.row }
    requires each { ItemsSmall items.now }
    requires sided { Sided table.now items.now }
    ensures { result ≡ true → AllRows (AreApart item.now.row) (rows_of items.now) }
{
    if may_face(table, &item.row) {
        return is_apart_among(item, items);
    }
    true
}

fn all_apart(items: &[Item]) -> bool
    requires { ItemsSmall items.now }
    ensures { result ≡ true → AllApart (rows_of items.now) (rows_of items.now) }
{
    let table = sides(items);
    for item in items {
        if !is_apart(&table, item, items) {
            return false;
        }
    }
    true
}

#[tactic(auto, using(crate::proofs::LoneSteps::terms_loop))]
/// Whether each item has terms.
fn all_have_terms(items: &[Item]) -> bool
    ensures { result ≡ true → AllHaveTerms items.now }
{
    for item in items {
        if item.row.terms.is_empty() {
            return false;
        }
    }
    true
}

/// Whether tidying leaves normal items as they are, and those of them that are left where some are taken away.
pub fn is_closed(items: &[Item]) -> bool
    requires { ItemsSmall items.now }
    ensures terms { result ≡ true → AllHaveTerms items.now }
    ensures closed { result ≡ true → (rational : Bool) → AreNormal rational (rows_of items.now) → IsClosed rational (rows_of items.now) }
{
    if !all_have_terms(items) {
        return false;
    }
    if !all_rise(items) {
        return false;
    }
    if !all_apart(items) {
        return false;
    }
    match find_pivot(items) {
        None => true,
        Some(_) => false,
    }
}
