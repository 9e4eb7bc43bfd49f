//! Regions out of JSON values.
ghost use Rattle.std.specs.Prelude.{◌≡◌, ◌++◌, IfOk, map, codes, option_and_then};
ghost use Rattle.serde_json.specs.View.{view};
ghost use Rattle.pipsmake_rules.specs.Kinds.{same_kind};
ghost use Rattle.f77_ast.specs.Index.{names_of};
ghost use Rattle.region_sets.specs.Written.{access_text as access_text_is};
ghost use Rattle.base_json.specs.Gives.{Gives};
ghost use Rattle.base_json.specs.Shapes.{list_as, member_as, when};
ghost use Rattle.base_json.specs.Scopes.{scope_tree, with_phi};
ghost use Rattle.base_json.specs.Read.{system_of};
ghost use Rattle.base_values.specs.Read.{access_of, are_few as are_few_is, pieces_of, region_of, regions_of, region_key as region_key_is, are_apart as are_apart_is};
ghost use Rattle.base_values.specs.Words.{access_named as access_named_is, result_with as result_with_is};

use crate::scope::ValueScope;
use crate::variables::put_variable;
use crate::words::{access_named, result_with};
use affine_systems::System;
use base_json::{
    Decode, DecodeError, Scope, are_distinct, field, has_members, list_at, member, word,
};
use f77_ast::{Symbols, Variable};
use fx_lists::{List, Text};
use pipsmake_rules::Kind;
use region_sets::{Access, Region, RegionSet};
use serde_json::Value;
use std::alloc::{AllocError as Memory, Global};

/// A kind of region that results of this kind have.
fn access_in(kind: Kind, word: &str) -> Option<Access>
    ensures { result ≡ option_and_then (λ a. when (same_kind (result_with_is a) kind) a) (access_named_is word.now) }
{
    match access_named(word) {
        None => None,
        Some(access) => if result_with(access).number() == kind.number() {
            Some(access)
        } else {
            None
        },
    }
}

impl<'a> Decode<ValueScope<'a>> for Access {
    ghost read_as = { λ s. access_of s.kind };

    fn decode(
        _alloc: Global,
        scope: &ValueScope<'a>,
        value: &Value,
    ) -> Result<Access, DecodeError> {
        let Some(word) = word(value) else {
            return Err(DecodeError::Shape);
        };
        match access_in(scope.kind, word) {
            None => Err(DecodeError::Shape),
            Some(access) => Ok(access),
        }
    }
}

/// The systems of an array, which may name subscripts.
fn phi_systems(
    alloc: Global,
    scope: &ValueScope<'_>,
    value: &Value,
) -> Result<List<System>, DecodeError>
    ensures { Gives result (list_as (system_of (with_phi (scope_tree scope.now.cells))) (view value.now)) }
{
    let scope = Scope {
        symbols: scope.cells.symbols,
        exits: scope.cells.exits,
        phi: true,
    };
    list_at(alloc, &scope, value)
}

/// Whether they are as many as the systems of a region may be, from one to four.
pub fn are_few(pieces: &[System]) -> bool
    ensures { result ≡ are_few_is pieces.now }
{
    0 < pieces.len() && pieces.len() < 5
}

/// The systems of a region; Shape where they are none or more than four.
fn pieces_at(
    alloc: Global,
    scope: &ValueScope<'_>,
    value: &Value,
) -> Result<List<System>, DecodeError>
    ensures { Gives result (pieces_of (scope_tree scope.now.cells) (view value.now)) }
{
    let pieces = phi_systems(alloc, scope, value)?;
    if !are_few(pieces.as_slice()) {
        return Err(DecodeError::Shape);
    }
    Ok(pieces)
}

/// The systems under the key `pieces`.
fn pieces_under(
    alloc: Global,
    scope: &ValueScope<'_>,
    value: &Value,
) -> Result<List<System>, DecodeError>
    ensures { Gives result (member_as (pieces_of (scope_tree scope.now.cells)) (codes "pieces") (view value.now)) }
{
    match member(value, "pieces") {
        None => Err(DecodeError::Shape),
        Some(found) => pieces_at(alloc, scope, found),
    }
}

impl<'a> Decode<ValueScope<'a>> for Region {
    ghost read_as = { λ s. region_of (scope_tree s.cells) s.kind };

    fn decode(alloc: Global, scope: &ValueScope<'a>, value: &Value) -> Result<Region, DecodeError> {
        if !has_members(value, 4) {
            return Err(DecodeError::Shape);
        }
        let exact: bool = field(alloc, scope, value, "exact")?;
        let kind: Access = field(alloc, scope, value, "kind")?;
        let variable: Variable = field(alloc, &scope.cells, value, "of")?;
        let pieces = pieces_under(alloc, scope, value)?;
        Ok(Region {
            variable,
            kind,
            exact,
            pieces,
        })
    }
}

/// What is written of the kind of a region.
fn access_text(access: Access) -> &'static [u8]
    ensures { result.now ≡ access_text_is access }
{
    match access {
        Access::Read => b"READ ",
        Access::Write => b"WRITE ",
        Access::In => b"IN ",
        Access::Out => b"OUT ",
    }
}

/// What tells a region from others of its set.
fn region_key(alloc: Global, symbols: &Symbols, r: &Region) -> Result<Text, Memory>
    ensures { IfOk result (λ key. key ≡ region_key_is (names_of symbols.now) r.now) }
{
    let mut key = Text::from_bytes(alloc, access_text(r.kind))?;
    put_variable(&mut key, symbols, &r.variable)?;
    Ok(key)
}

#[tactic(auto, using(crate::proofs::Steps::keys))]
fn region_keys(alloc: Global, symbols: &Symbols, regions: &[Region]) -> Result<List<Text>, Memory>
    ensures { IfOk result (λ keys. keys ≡ map (region_key_is (names_of symbols.now)) regions.now) }
{
    let mut keys = List::new(alloc);
    for r in regions {
        keys.push(region_key(alloc, symbols, r)?)?;
    }
    Ok(keys)
}

/// Whether no two are of one kind and variable.
pub fn are_apart(alloc: Global, symbols: &Symbols, regions: &[Region]) -> Result<bool, Memory>
    ensures { IfOk result (λ b. b ≡ are_apart_is (names_of symbols.now) regions.now) }
{
    let keys = region_keys(alloc, symbols, regions)?;
    are_distinct(alloc, keys.as_slice())
}

impl<'a> Decode<ValueScope<'a>> for RegionSet {
    ghost read_as = { λ s. regions_of (scope_tree s.cells) s.kind };

    fn decode(
        alloc: Global,
        scope: &ValueScope<'a>,
        value: &Value,
    ) -> Result<RegionSet, DecodeError> {
        let regions: RegionSet = list_at(alloc, scope, value)?;
        if !are_apart(alloc, scope.cells.symbols, regions.as_slice())? {
            return Err(DecodeError::Shape);
        }
        Ok(regions)
    }
}
