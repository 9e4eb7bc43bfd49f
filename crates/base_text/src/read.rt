//! A base out of a text.
ghost use Rattle.std.specs.Prelude.{◌≡◌, Some};
ghost use Rattle.serde_json.specs.View.{view};
ghost use Rattle.base_json.specs.Gives.{Gives};
ghost use Rattle.base_json.specs.Shapes.{member_as, text_of};
ghost use Rattle.base_text.specs.Gives.{GivesAs, GivesBase};
ghost use Rattle.base_text.specs.Read.{module_of, base_with as base_with_is, base_at as base_at_is, data_of, are_small as are_small_is, base_in as base_in_is, base_of};

use crate::entries::{EntryScope, results_at};
use crate::known::Known;
use crate::taken::base_taken;
use crate::version::{Version, is_another_version, version_at};
use crate::{Base, BaseModule, BaseRefusal, StoredResult};
use base_json::{Decode, DecodeError, has_members, list_field, member, text_at};
use base_values::is_small_value;
use fx_lists::{List, Text};
use serde_json::Value;
use std::alloc::Global;

/// The text under a key.
pub fn text_under(alloc: Global, value: &Value, key: &str) -> Result<Text, DecodeError>
    ensures { Gives result (member_as text_of key.now (view value.now)) }
{
    match member(value, key) {
        None => Err(DecodeError::Shape),
        Some(found) => text_at(alloc, found),
    }
}

impl Decode<()> for BaseModule {
    ghost read_as = { λ _. module_of };

    fn decode(alloc: Global, _scope: &(), value: &Value) -> Result<BaseModule, DecodeError> {
        if !has_members(value, 2) {
            return Err(DecodeError::Shape);
        }
        let name = text_under(alloc, value, "name")?;
        let text = text_under(alloc, value, "text")?;
        Ok(BaseModule { name, text })
    }
}

/// A base of a version with these modules.
fn base_with(
    alloc: Global,
    value: &Value,
    version: Version,
    modules: List<BaseModule>,
) -> Result<Base, DecodeError>
    ensures { Gives result (base_with_is (view value.now) version modules) }
{
    let known = Known::read(alloc, modules.as_slice())?;
    let Some(found) = member(value, "results") else {
        return Err(DecodeError::Shape);
    };
    let scope = EntryScope {
        version,
        known: &known,
    };
    let results = results_at(alloc, &scope, found)?;
    Ok(Base { modules, results })
}

/// A base of version 1 or 2.
fn base_at(alloc: Global, value: &Value) -> Result<Base, DecodeError>
    ensures { Gives result (base_at_is (view value.now)) }
{
    if !has_members(value, 3) {
        return Err(DecodeError::Shape);
    }
    let Some(version) = version_at(value) else {
        return Err(DecodeError::Shape);
    };
    let modules: List<BaseModule> = list_field(alloc, &(), value, "modules")?;
    base_with(alloc, value, version, modules)
}

fn are_small(results: &[StoredResult]) -> bool
    ensures { result ≡ are_small_is results.now }
{
    let mut rest = results;
    while let [stored, more @ ..] = rest {
        if !is_small_value(&stored.value) {
            return false;
        }
        rest = more;
    }
    true
}

/// The JSON value of a text. Err(Shape) where it is no JSON.
fn value_of(alloc: Global, text: &Text) -> Result<Value, DecodeError>
    ensures { GivesAs view result (data_of text.now) }
{
    match Value::from_slice(alloc, text.as_slice()) {
        Ok(value) => Ok(value),
        Err(error) => if error.is_memory() {
            Err(DecodeError::Memory)
        } else {
            Err(DecodeError::Shape)
        },
    }
}

/// The base of a JSON value.
fn base_in(alloc: Global, value: &Value) -> Result<Base, BaseRefusal>
    ensures { GivesBase result (base_in_is (Some (view value.now))) }
{
    if is_another_version(value) {
        return Err(BaseRefusal::WrongVersion);
    }
    let base = base_at(alloc, value)?;
    if are_small(base.results.as_slice()) {
        Ok(base)
    } else {
        Err(BaseRefusal::NumberTooBig)
    }
}

/// The base of a text by its JSON value.
#[tactic(auto, unfolding(crate::specs::Read::base_of))]
fn base_decoded(alloc: Global, text: &Text) -> Result<Base, BaseRefusal>
    ensures { GivesBase result (base_of text.now) }
{
    match value_of(alloc, text) {
        Ok(value) => base_in(alloc, &value),
        Err(DecodeError::Shape) => Err(BaseRefusal::NotJson),
        Err(DecodeError::Memory) => Err(BaseRefusal::Memory),
    }
}

/// The base of a text, in version 1 or 2 of its grammar, without the results in older formats. Err says why there is none: no JSON, then another version or a
/// later format, then another shape or what cannot be, then a number of a row that is too big. Takes time in proportion to the text, least where it is as
/// `base_write` writes it.
pub fn base_read(alloc: Global, text: &Text) -> Result<Base, BaseRefusal>
    ensures { GivesBase result (base_of text.now) }
{
    match base_taken(alloc, text) {
        Ok(base) => Ok(base),
        Err(DecodeError::Shape) => base_decoded(alloc, text),
        Err(DecodeError::Memory) => Err(BaseRefusal::Memory),
    }
}
