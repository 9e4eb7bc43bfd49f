//! The results of a base out of JSON values: those whose values are in the current formats, and the places of older ones.
ghost use Rattle.std.specs.Prelude.{◌≡◌, ◌∷◌, ◌++◌, [], codes, option_and_then, IfOk, OnOk};
ghost use Rattle.serde_json.specs.Find.{as_str};
ghost use Rattle.serde_json.specs.View.{view};
ghost use Rattle.session_texts.specs.pipsmake_rules.Kinds.{kind_with};
ghost use Rattle.base_json.specs.Gives.{Gives};
ghost use Rattle.base_json.specs.Shapes.{member_as, whole_of};
ghost use Rattle.base_text.specs.Modules.{table_names, known_names};
ghost use Rattle.base_text.specs.Entries.{kind_in, positive_of, format_in, is_above as is_above_is, has_later_format as has_later_format_is, count_of, entry_in as entry_in_is, entry_with as entry_with_is, entry_of, entry_name, entry_kind, entries_of, current as current_is, results_of};

use crate::StoredResult;
use crate::formats::{format_of, is_stored};
use crate::known::Known;
use crate::modules::Table;
use crate::order::{Placed, are_in_order};
use crate::read::text_under;
use crate::version::Version;
use base_json::{Decode, DecodeError, has_members, list_at, member, whole_at, word};
use base_values::{Names, kind_of, stored_at};
use fx_lists::{List, Text};
use serde_json::Value;
use session_texts::pipsmake_rules::Kind;
use std::alloc::{AllocError as Memory, Global};

/// What a base has of a result.
#[derive(Drop)]
pub enum Entry {
    /// The result, in the current format of its kind.
    Current(StoredResult),
    /// The name of the module and the kind of one in an older format.
    Old(Text, Kind),
}

impl Placed for Entry {
    ghost name_is = { entry_name };

    ghost kind_is = { entry_kind };

    fn name(&self) -> &Text {
        match self {
            Entry::Current(stored) => &stored.name,
            Entry::Old(name, _) => name,
        }
    }

    fn kind(&self) -> Kind {
        match self {
            Entry::Current(stored) => kind_of(&stored.value),
            Entry::Old(_, kind) => *kind,
        }
    }
}

/// The version of a base, and what its results may name.
#[derive(Drop)]
pub struct EntryScope<'a> {
    pub version: Version,
    pub known: &'a Known,
}

/// The kind of a name; None for another value.
fn named_kind(value: &Value) -> Option<Kind>
    ensures { result ≡ option_and_then kind_with (as_str (view value.now)) }
{
    match word(value) {
        None => None,
        Some(word) => Kind::with_name(word.as_bytes()),
    }
}

/// The stored kind of a name; None for another value.
fn kind_at(value: &Value) -> Option<Kind>
    ensures { result ≡ kind_in (view value.now) }
{
    match named_kind(value) {
        None => None,
        Some(kind) => if is_stored(kind) { Some(kind) } else { None },
    }
}

/// The stored kind under the key `kind`.
fn kind_under(value: &Value) -> Option<Kind>
    ensures { result ≡ member_as kind_in (codes "kind") (view value.now) }
{
    match member(value, "kind") {
        None => None,
        Some(found) => kind_at(found),
    }
}

/// The whole number under the key `format`.
fn whole_format(value: &Value) -> Option<i128>
    ensures { result ≡ member_as whole_of (codes "format") (view value.now) }
{
    match member(value, "format") {
        None => None,
        Some(found) => whole_at(found),
    }
}

/// Whether it is an object of a stored kind with a format number above the current one of the kind.
pub fn has_later_format(value: &Value) -> bool
    ensures { result ≡ has_later_format_is (view value.now) }
{
    match kind_under(value) {
        None => false,
        Some(kind) => match whole_format(value) {
            None => false,
            Some(format) => (format_of(kind) as i128) < format,
        },
    }
}

/// A whole number from 1; None for another value.
fn positive_at(value: &Value) -> Option<i128>
    ensures { result ≡ positive_of (view value.now) }
{
    match whole_at(value) {
        None => None,
        Some(number) => if 1 <= number { Some(number) } else { None },
    }
}

/// The format number of a result.
fn format_under(version: Version, value: &Value) -> Option<i128>
    ensures { result ≡ format_in version (view value.now) }
{
    match version {
        Version::First => Some(1),
        Version::Second => match member(value, "format") {
            None => None,
            Some(found) => positive_at(found),
        },
    }
}

/// How many members a result has.
fn count(version: Version) -> usize
    ensures { result ≡ count_of version }
{
    match version {
        Version::First => 3,
        Version::Second => 4,
    }
}

/// The entry of a value, by the kind of the result, the name of its module, the table of that and the format number.
fn entry_in(
    alloc: Global,
    table: &Table,
    kind: Kind,
    name: Text,
    format: i128,
    value: &Value,
) -> Result<Entry, DecodeError>
    ensures { Gives result (entry_in_is (table_names table.now) kind name format (view value.now)) }
{
    if format < format_of(kind) as i128 {
        return Ok(Entry::Old(name, kind));
    }
    let names = Names {
        symbols: &table.symbols,
        numbers: &table.numbers,
    };
    let value = stored_at(alloc, &names, kind, value)?;
    Ok(Entry::Current(StoredResult { name, value }))
}

/// The entry of a result, by its kind and the name of its module.
fn entry_with(
    alloc: Global,
    scope: &EntryScope<'_>,
    value: &Value,
    kind: Kind,
    name: Text,
) -> Result<Entry, DecodeError>
    ensures { Gives result (entry_with_is scope.now.version (known_names scope.now.known.now) (view value.now) kind name) }
{
    let Some(format) = format_under(scope.version, value) else {
        return Err(DecodeError::Shape);
    };
    let Some(table) = scope.known.table(&name) else {
        return Err(DecodeError::Shape);
    };
    match member(value, "value") {
        None => Err(DecodeError::Shape),
        Some(found) => entry_in(alloc, table, kind, name, format, found),
    }
}

impl<'a> Decode<EntryScope<'a>> for Entry {
    ghost read_as = { λ s. entry_of s.version (known_names s.known.now) };

    fn decode(alloc: Global, scope: &EntryScope<'a>, value: &Value) -> Result<Entry, DecodeError> {
        if !has_members(value, count(scope.version)) {
            return Err(DecodeError::Shape);
        }
        let Some(kind) = kind_under(value) else {
            return Err(DecodeError::Shape);
        };
        let name = text_under(alloc, value, "name")?;
        entry_with(alloc, scope, value, kind, name)
    }
}

/// The entries of an array, if they are in their order.
fn entries_at(
    alloc: Global,
    scope: &EntryScope<'_>,
    value: &Value,
) -> Result<List<Entry>, DecodeError>
    ensures { Gives result (entries_of scope.now.version (known_names scope.now.known.now) (view value.now)) }
{
    let entries: List<Entry> = list_at(alloc, scope, value)?;
    if are_in_order(&scope.known.names, entries.as_slice()) {
        Ok(entries)
    } else {
        Err(DecodeError::Shape)
    }
}

/// Adds the result of an entry, unless it is an older one.
fn push_current(results: &mut List<StoredResult>, entry: Entry) -> Result<(), Memory>
    ensures { OnOk result (results.new ≡ results.old ++ current_is (entry ∷ [])) }
{
    match entry {
        Entry::Current(stored) => results.push(stored),
        Entry::Old(_, _) => Ok(()),
    }
}

/// The results of some entries, without the older ones.
#[tactic(auto, using(crate::proofs::EntryLaws::currents))]
fn current(alloc: Global, entries: List<Entry>) -> Result<List<StoredResult>, Memory>
    ensures { IfOk result (λ rs. rs ≡ current_is entries) }
{
    let mut left = entries.into_vec();
    left.reverse();
    let mut results = List::new(alloc);
    while let Some(entry) = left.pop() {
        push_current(&mut results, entry)?;
    }
    Ok(results)
}

/// The results of an array that are in the current formats; older ones have their places, too.
pub fn results_at(
    alloc: Global,
    scope: &EntryScope<'_>,
    value: &Value,
) -> Result<List<StoredResult>, DecodeError>
    ensures { Gives result (results_of scope.now.version (known_names scope.now.known.now) (view value.now)) }
{
    let entries = entries_at(alloc, scope, value)?;
    Ok(current(alloc, entries)?)
}
