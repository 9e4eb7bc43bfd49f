//! The versions of the grammar of bases, and texts of another one.
ghost use Rattle.std.specs.Prelude.{◌≡◌, map, codes};
ghost use Rattle.std.specs.List.{list_any};
ghost use Rattle.serde_json.specs.View.{view};
ghost use Rattle.base_json.specs.Shapes.{list_of, member_as};
ghost use Rattle.base_text.specs.Entries.{has_later_format as has_later_format_is};
ghost use Rattle.base_text.specs.Read.{version_with as version_with_is, pips_of, version_of, is_unknown as is_unknown_is, any_later as any_later_is, is_later as is_later_is, is_another};

use crate::entries::has_later_format;
use base_json::{items_of, member, whole_at};
use serde_json::Value;

/// A version of the grammar.
#[derive(Clone, Copy, PartialEq, Eq)]
pub enum Version {
    /// Results have no format numbers.
    First,
    /// Each result has the number of its format.
    Second,
}

/// The version of a number; None where there is none.
fn version_with(number: i128) -> Option<Version>
    ensures { result ≡ version_with_is number }
{
    if number == 1 {
        Some(Version::First)
    } else if number == 2 {
        Some(Version::Second)
    } else {
        None
    }
}

/// The whole number under the key `pips`.
fn pips_at(value: &Value) -> Option<i128>
    ensures { result ≡ pips_of (view value.now) }
{
    match member(value, "pips") {
        None => None,
        Some(found) => whole_at(found),
    }
}

/// The version of a base; None where it has none that is known.
pub fn version_at(value: &Value) -> Option<Version>
    ensures { result ≡ version_of (view value.now) }
{
    match pips_at(value) {
        None => None,
        Some(number) => version_with(number),
    }
}

/// Whether the key `pips` has a whole number of no known version.
fn is_unknown(value: &Value) -> bool
    ensures { result ≡ is_unknown_is (pips_of (view value.now)) }
{
    match pips_at(value) {
        None => false,
        Some(number) => version_with(number).is_none(),
    }
}

fn any_has_later_format(results: &[Value]) -> bool
    ensures { result ≡ list_any has_later_format_is (map view results.now) }
{
    let mut rest = results;
    while let [found, more @ ..] = rest {
        if has_later_format(found) {
            return true;
        }
        rest = more;
    }
    false
}

/// Whether the array under the key `results` has a result of a later format than the current one of its kind.
fn any_later(value: &Value) -> bool
    ensures { result ≡ any_later_is (member_as list_of (codes "results") (view value.now)) }
{
    match member(value, "results") {
        None => false,
        Some(found) => match items_of(found) {
            None => false,
            Some(results) => any_has_later_format(results),
        },
    }
}

/// Whether a base of version 2 has a result of a later format.
fn is_later(value: &Value) -> bool
    ensures { result ≡ is_later_is (version_of (view value.now)) (view value.now) }
{
    match version_at(value) {
        None | Some(Version::First) => false,
        Some(Version::Second) => any_later(value),
    }
}

/// Whether a base is of another version, or has a result of a later format.
pub fn is_another_version(value: &Value) -> bool
    ensures { result ≡ is_another (view value.now) }
{
    is_unknown(value) || is_later(value)
}
