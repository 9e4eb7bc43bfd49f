//! The parts of JSON values.
ghost use Rattle.std.specs.Prelude.{◌≡◌, true, map, option_map};
ghost use Rattle.serde_json.specs.Find.{get, as_str};
ghost use Rattle.serde_json.specs.View.{view};
ghost use Rattle.base_json.specs.Shapes.{list_of, has_members as has_members_is, pair_in as pair_in_is, pair_of, triple_in as triple_in_is, triple_of};

use serde_json::Value;

#[tactic(auto, using(crate::proofs::Parts::arrays))]
/// The items of an array; None for another value.
pub fn items_of(value: &Value) -> Option<&[Value]>
    ensures { option_map (λ vs. map view vs.now) result ≡ list_of (view value.now) }
{
    match value.as_array() {
        None => None,
        Some(items) => Some(items.as_slice()),
    }
}

#[tactic(auto, using(crate::proofs::Parts::objects))]
/// Whether it is an object with so many members.
pub fn has_members(value: &Value, count: usize) -> bool
    ensures { result ≡ has_members_is count (view value.now) }
{
    match value.as_object() {
        None => false,
        Some(members) => members.len() == count,
    }
}

/// The member of an object with a key; None where there is none.
pub fn member<'v>(value: &'v Value, key: &str) -> Option<&'v Value>
    ensures { option_map (λ v. view v.now) result ≡ get key.now (view value.now) }
{
    value.get(key)
}

/// The string; None for another value.
pub fn word(value: &Value) -> Option<&str>
    ensures { option_map (λ s. s.now) result ≡ as_str (view value.now) }
{
    value.as_str()
}

/// The two items of a list of two.
#[tactic(auto, using(crate::proofs::Parts::pairs))]
fn pair_in(items: &[Value]) -> Option<(&Value, &Value)>
    ensures { option_map (λ p. (view p.0.now, view p.1.now)) result ≡ pair_in_is (map view items.now) }
{
    if items.len() == 2 {
        Some((&items[0], &items[1]))
    } else {
        None
    }
}

/// The two items of an array of two; None for another value.
pub fn pair(value: &Value) -> Option<(&Value, &Value)>
    ensures { option_map (λ p. (view p.0.now, view p.1.now)) result ≡ pair_of (view value.now) }
{
    match items_of(value) {
        None => None,
        Some(items) => pair_in(items),
    }
}

/// The three items of a list of three.
#[tactic(auto, using(crate::proofs::Parts::pairs))]
fn triple_in(items: &[Value]) -> Option<(&Value, &Value, &Value)>
    ensures { option_map (λ p. (view p.0.now, (view p.1.now, view p.2.now))) result ≡ triple_in_is (map view items.now) }
{
    if items.len() == 3 {
        Some((&items[0], &items[1], &items[2]))
    } else {
        None
    }
}

/// The three items of an array of three; None for another value.
pub fn triple(value: &Value) -> Option<(&Value, &Value, &Value)>
    ensures { option_map (λ p. (view p.0.now, (view p.1.now, view p.2.now))) result ≡ triple_of (view value.now) }
{
    match items_of(value) {
        None => None,
        Some(items) => triple_in(items),
    }
}
