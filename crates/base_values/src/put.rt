//! Results as compact JSON, with no JSON value in between but for names and marks.
ghost use Rattle.std.specs.Prelude.{◌≡◌, ◌++◌, IfOk, OnOk, codes, true};
ghost use Rattle.serde_json.specs.Data.{boolean, member, no_members, string};
ghost use Rattle.serde_json.specs.Written.{compact_text, members_text};
ghost use Rattle.f77_ast.specs.Index.{names_of};
ghost use Rattle.base_json.specs.RowsWritten.{system_data};
ghost use Rattle.base_values.specs.Words.{access_word};
ghost use Rattle.base_values.specs.Written.{at_data, effects_data, entry_data, mark_data, pieces_data, region_data, regions_data, results_data, stored_data, transformer_data, unit_data, variable_data, variables_data};

use crate::StoredValue;
use crate::scope::SymbolNames;
use affine_systems::System;
use base_json::{Encode, Put, put_flag, put_list, put_number, put_system, put_value, text_value};
use f77_ast::{At, EffectSet, Mark, Results, Symbols, Unit, Variable};
use fx_lists::Text;
use preconditions::transformer_algebra::Transformer;
use region_sets::{Access, Region, RegionSet};
use std::alloc::{AllocError as Memory, Global};

impl<'a> Put<SymbolNames<'a>> for Variable {
    ghost data_of = { λ s v. variable_data (names_of s.symbols.now) v };

    fn put(&self, alloc: Global, scope: &SymbolNames<'a>, out: &mut Text) -> Result<(), Memory> {
        let value = self.encode(alloc, scope)?;
        put_value(alloc, &value, out)
    }
}

/// Appends the members `stops` and `writes` of effects, and the brace behind them.
#[tactic(auto, unfolding(serde_json::proofs::OnLiterals::serde_json_on_literals))]
fn put_stops_and_writes(
    alloc: Global,
    scope: &SymbolNames<'_>,
    effects: &EffectSet,
    out: &mut Text,
) -> Result<(), Memory>
    ensures { OnOk result (out.new ≡ out.old ++ members_text true (member (codes "stops") (boolean effects.now.stops) (member (codes "writes") (variables_data (names_of scope.now.symbols.now) effects.now.writes) no_members))) }
{
    out.append(b",\"stops\":")?;
    put_flag(effects.stops, out)?;
    out.append(b",\"writes\":")?;
    put_list(alloc, scope, effects.writes.as_slice(), out)?;
    out.push(b'}')
}

impl<'a> Put<SymbolNames<'a>> for EffectSet {
    ghost data_of = { λ s e. effects_data (names_of s.symbols.now) e };

    #[tactic(auto, unfolding(serde_json::proofs::OnLiterals::serde_json_on_literals))]
    fn put(&self, alloc: Global, scope: &SymbolNames<'a>, out: &mut Text) -> Result<(), Memory> {
        out.append(b"{\"io\":")?;
        put_flag(self.io, out)?;
        out.append(b",\"reads\":")?;
        put_list(alloc, scope, self.reads.as_slice(), out)?;
        put_stops_and_writes(alloc, scope, self, out)
    }
}

impl<'a> Put<SymbolNames<'a>> for Unit {
    ghost data_of = { λ _ u. unit_data u };

    fn put(&self, alloc: Global, _scope: &SymbolNames<'a>, out: &mut Text) -> Result<(), Memory> {
        let block = text_value(alloc, self.block.as_slice())?;
        out.push(b'[')?;
        put_value(alloc, &block, out)?;
        out.push(b',')?;
        put_number(alloc, self.offset, out)?;
        out.push(b']')
    }
}

impl<'a> Put<SymbolNames<'a>> for Transformer {
    ghost data_of = { λ _ t. transformer_data t };

    #[tactic(auto, unfolding(serde_json::proofs::OnLiterals::serde_json_on_literals))]
    fn put(&self, alloc: Global, scope: &SymbolNames<'a>, out: &mut Text) -> Result<(), Memory> {
        out.append(b"{\"cells\":")?;
        put_list(alloc, scope, self.cells.as_slice(), out)?;
        out.append(b",\"foreign\":")?;
        put_list(alloc, scope, self.foreign.as_slice(), out)?;
        out.append(b",\"system\":")?;
        put_system(alloc, &self.system, out)?;
        out.push(b'}')
    }
}

impl<'a> Put<SymbolNames<'a>> for System {
    ghost data_of = { λ _ s. system_data s };

    fn put(&self, alloc: Global, _scope: &SymbolNames<'a>, out: &mut Text) -> Result<(), Memory> {
        put_system(alloc, self, out)
    }
}

/// Appends the word of a kind of region.
#[tactic(auto, unfolding(serde_json::proofs::OnLiterals::serde_json_on_literals))]
fn put_access(access: Access, out: &mut Text) -> Result<(), Memory>
    ensures { OnOk result (out.new ≡ out.old ++ compact_text (string (access_word access))) }
{
    match access {
        Access::Read => out.append(b"\"READ\""),
        Access::Write => out.append(b"\"WRITE\""),
        Access::In => out.append(b"\"IN\""),
        Access::Out => out.append(b"\"OUT\""),
    }
}

/// Appends the members `of` and `pieces` of a region, and the brace behind them.
#[tactic(auto, unfolding(serde_json::proofs::OnLiterals::serde_json_on_literals))]
fn put_of_and_pieces(
    alloc: Global,
    scope: &SymbolNames<'_>,
    region: &Region,
    out: &mut Text,
) -> Result<(), Memory>
    ensures { OnOk result (out.new ≡ out.old ++ members_text true (member (codes "of") (variable_data (names_of scope.now.symbols.now) region.now.variable) (member (codes "pieces") (pieces_data region.now.pieces) no_members))) }
{
    out.append(b",\"of\":")?;
    region.variable.put(alloc, scope, out)?;
    out.append(b",\"pieces\":")?;
    put_list(alloc, scope, region.pieces.as_slice(), out)?;
    out.push(b'}')
}

impl<'a> Put<SymbolNames<'a>> for Region {
    ghost data_of = { λ s r. region_data (names_of s.symbols.now) r };

    #[tactic(auto, unfolding(serde_json::proofs::OnLiterals::serde_json_on_literals))]
    fn put(&self, alloc: Global, scope: &SymbolNames<'a>, out: &mut Text) -> Result<(), Memory> {
        out.append(b"{\"exact\":")?;
        put_flag(self.exact, out)?;
        out.append(b",\"kind\":")?;
        put_access(self.kind, out)?;
        put_of_and_pieces(alloc, scope, self, out)
    }
}

impl<'a> Put<SymbolNames<'a>> for RegionSet {
    ghost data_of = { λ s rs. regions_data (names_of s.symbols.now) rs };

    fn put(&self, alloc: Global, scope: &SymbolNames<'a>, out: &mut Text) -> Result<(), Memory> {
        put_list(alloc, scope, self.as_slice(), out)
    }
}

impl<'a> Put<SymbolNames<'a>> for Mark {
    ghost data_of = { λ s m. mark_data (names_of s.symbols.now) m };

    #[tactic(auto, using(crate::proofs::TakenLaws::mark_whole))]
    fn put(&self, alloc: Global, scope: &SymbolNames<'a>, out: &mut Text) -> Result<(), Memory> {
        let value = self.encode(alloc, scope)?;
        put_value(alloc, &value, out)
    }
}

impl<'a, T: Put<SymbolNames<'a>>> Put<SymbolNames<'a>> for At<T> {
    ghost data_of = { λ s a. at_data (T.data_of s) a };

    fn put(&self, alloc: Global, scope: &SymbolNames<'a>, out: &mut Text) -> Result<(), Memory> {
        out.push(b'[')?;
        put_number(alloc, u64::from(self.id), out)?;
        out.push(b',')?;
        self.value.put(alloc, scope, out)?;
        out.push(b']')
    }
}

#[tactic(auto, unfolding(serde_json::proofs::OnLiterals::serde_json_on_literals))]
fn put_results<'a, T: Put<SymbolNames<'a>>>(
    alloc: Global,
    scope: &SymbolNames<'a>,
    results: &Results<T>,
    out: &mut Text,
) -> Result<(), Memory>
    ensures { OnOk result (out.new ≡ out.old ++ compact_text (results_data (T.data_of scope.now) results.now)) }
{
    out.append(b"{\"at\":")?;
    put_list(alloc, scope, results.at.as_slice(), out)?;
    out.append(b",\"summary\":")?;
    results.summary.put(alloc, scope, out)?;
    out.push(b'}')
}

#[tactic(auto, unfolding(serde_json::proofs::OnLiterals::serde_json_on_literals))]
/// Preconditions, whose summary is what holds at the entry.
fn put_entry(
    alloc: Global,
    scope: &SymbolNames<'_>,
    results: &Results<System>,
    out: &mut Text,
) -> Result<(), Memory>
    ensures { OnOk result (out.new ≡ out.old ++ compact_text (entry_data results.now)) }
{
    out.append(b"{\"at\":")?;
    put_list(alloc, scope, results.at.as_slice(), out)?;
    out.append(b",\"entry\":")?;
    put_system(alloc, &results.summary, out)?;
    out.push(b'}')
}

/// Appends the compact JSON of a result of a module with these symbols; null for a number of a row that does not fit 64 bits.
pub fn put_stored(
    alloc: Global,
    symbols: &Symbols,
    value: &StoredValue,
    out: &mut Text,
) -> Result<(), Memory>
    ensures { OnOk result (out.new ≡ out.old ++ compact_text (stored_data (names_of symbols.now) value.now)) }
{
    let scope = SymbolNames { symbols };
    match value {
        StoredValue::Effects(results) => put_results(alloc, &scope, results, out),
        StoredValue::Transformers(results) => put_results(alloc, &scope, results, out),
        StoredValue::Preconditions(results) => put_entry(alloc, &scope, results, out),
        StoredValue::Regions(results) => put_results(alloc, &scope, results, out),
        StoredValue::InRegions(results) => put_results(alloc, &scope, results, out),
        StoredValue::OutRegions(results) => put_results(alloc, &scope, results, out),
        StoredValue::Marks(marks) => put_list(alloc, &scope, marks.as_slice(), out),
    }
}

/// The compact JSON of a result of a module with these symbols.
pub fn value_text(alloc: Global, symbols: &Symbols, value: &StoredValue) -> Result<Text, Memory>
    ensures { IfOk result (λ t. t ≡ compact_text (stored_data (names_of symbols.now) value.now)) }
{
    let mut text = Text::new(alloc);
    put_stored(alloc, symbols, value, &mut text)?;
    Ok(text)
}
