//! Lone variables of closed rows: such as one row alone has, an equal row with factor 1 or -1 there. To eliminate one is to take that row away.
ghost use Rattle.std.specs.Prelude.{◌≡◌, ◌≢◌, ◌<◌, ◌≤◌, ℕ, false, length, slice_index, take, Bool};
ghost use Rattle.affine_systems.specs.Points.{occurs as occurs_is};
ghost use Rattle.affine_systems.specs.Given.{IsSmallRow, ItemsSmall, AreNormal};
ghost use Rattle.affine_systems.specs.Items.{rows_of as rows_of_is};
ghost use Rattle.affine_systems.specs.Eliminate.{keep};
ghost use Rattle.affine_systems.specs.Lone.{IsClosed, has_terms as has_terms_is, left_by, AllLone};
ghost use Rattle.elimination.specs.Homes.{IsHome, Homed, HasHomes, FindsHome};

use crate::closed::is_closed;
use crate::elimination::is_unit_on;
use affine_systems::items::{Item, Originals, occurs, place};
use affine_systems::{Row, Term, Var};
use fx_lists::List;
use std::alloc::Global;

/// For each place of variables: 0 where no row has one, one more than the place of the only row that has, or `MANY`.
type Homes = [u16; 4096];

const MANY: u16 = 65535;

/// Where a variable is: in no row; in the one at a place alone, an equal row with factor 1 or -1 on it; or it is not known.
#[derive(Clone, Copy)]
pub enum Home {
    Nowhere,
    Here(usize),
    Elsewhere,
}

fn no_homes() -> Homes
    ensures { (b : ℕ) → b < 4096 → slice_index result b ≡ 0 }
{
    [0; 4096]
}

fn set_home(table: &mut Homes, at: usize, home: u16)
    requires { at < 4096 }
    ensures here { slice_index table.new at ≡ home }
    ensures others { (b : ℕ) → b ≢ at → slice_index table.new b ≡ slice_index table.old b }
{
    table[at] = home;
}

/// Notes that a row has a variable at a place.
fn note_home(table: &mut Homes, at: usize, row: u16)
    requires within { at < 4096 }
    requires row { row < 512 }
    ensures here { IsHome row (slice_index table.new at) }
    ensures kept { (b j : ℕ) → IsHome j (slice_index table.old b) → IsHome j (slice_index table.new b) }
{
    let home = table[at];
    if home == 0 {
        set_home(table, at, row + 1);
    } else if home != row + 1 {
        set_home(table, at, MANY);
    }
}

fn note_homes(table: &mut Homes, terms: &[Term], row: u16)
    requires { row < 512 }
    ensures { HasHomes row table.old table.new terms.now }
{
    for t in terms {
        note_home(table, place(t.var), row);
    }
}

/// The homes of the variables of rows.
fn homes(items: &[Item]) -> Homes
    requires { length items.now ≤ 512 }
    ensures { Homed result items.now }
{
    let mut table = no_homes();
    for (i, item) in items.iter().enumerate() {
        note_homes(&mut table, item.row.terms.as_slice(), i as u16);
    }
    table
}

/// Where a variable is.
fn find_home(table: &Homes, items: &[Item], v: Var) -> Home
    requires len { length items.now ≤ 512 }
    requires small { ItemsSmall items.now }
    requires homed { Homed table.now items.now }
    ensures { FindsHome v items.now result }
{
    let home = table[place(v)] as usize;
    if home == 0 {
        return Home::Nowhere;
    }
    if home > items.len() {
        return Home::Elsewhere;
    }
    let at = home - 1;
    if !occurs(&items[at].row, v) {
        return Home::Nowhere;
    }
    if is_unit_on(&items[at], v) {
        Home::Here(at)
    } else {
        Home::Elsewhere
    }
}

/// An item without terms.
fn blank(alloc: Global) -> Item
    ensures no_terms { has_terms_is result ≡ false }
    ensures small { IsSmallRow result.row }
    ensures no_variable { (v : Var) → occurs_is v result.row ≡ false }
{
    Item {
        row: Row {
            equal: false,
            terms: List::new(alloc),
            bound: 0,
        },
        originals: Originals::none(),
        made: 0,
    }
}

/// Whether it has terms.
fn has_terms(item: &Item) -> bool
    ensures { result ≡ has_terms_is item.now }
{
    !item.row.terms.is_empty()
}

/// Puts items without terms in the place of those that have the leading lone variables; how many these are.
fn blank_lone(alloc: Global, items: &mut Vec<Item>, vars: &[Var]) -> usize
    requires len { length items.now.items ≤ 512 }
    requires each { ItemsSmall items.now.items }
    ensures within { result ≤ length vars.now }
    ensures left { keep has_terms_is items.new.items ≡ left_by (take result vars.now) (keep has_terms_is items.old.items) }
    ensures lone { AllLone (take result vars.now) (keep has_terms_is items.old.items) }
{
    let table = homes(items.as_slice());
    for (i, v) in vars.iter().enumerate() {
        match find_home(&table, items.as_slice(), *v) {
            Home::Nowhere => {}
            Home::Here(at) => items[at] = blank(alloc),
            Home::Elsewhere => return i,
        }
    }
    vars.len()
}

/// Whether nothing is known of where the first of the variables is.
fn is_first_elsewhere(items: &[Item], vars: &[Var]) -> bool
    requires len { length items.now ≤ 512 }
    requires each { ItemsSmall items.now }
{
    let table = homes(items);
    match vars.first() {
        None => true,
        Some(v) => match find_home(&table, items, *v) {
            Home::Nowhere => false,
            Home::Here(_) => false,
            Home::Elsewhere => true,
        },
    }
}

/// Closed items without the leading lone variables, and how many these are; none where the items are not closed.
pub fn without_lone(alloc: Global, items: Vec<Item>, vars: &[Var]) -> (Vec<Item>, usize)
    requires len { length items.items ≤ 512 }
    requires each { ItemsSmall items.items }
    ensures within { result.1 ≤ length vars.now }
    ensures left { result.0.items ≡ left_by (take result.1 vars.now) items.items }
    ensures closed { 0 < result.1 → (rational : Bool) → AreNormal rational (rows_of_is items.items) → IsClosed rational (rows_of_is items.items) }
    ensures lone { AllLone (take result.1 vars.now) items.items }
{
    if is_first_elsewhere(items.as_slice(), vars) {
        return (items, 0);
    }
    if !is_closed(items.as_slice()) {
        return (items, 0);
    }
    let mut items = items;
    let done = blank_lone(alloc, &mut items, vars);
    items.retain(|item| has_terms(item));
    (items, done)
}
