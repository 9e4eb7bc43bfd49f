//! A base as a text.
ghost use Rattle.std.specs.Prelude.{◌≡◌, ◌++◌, IfOk, IfSome, Ok, OnOk, codes, map, true};
ghost use Rattle.serde_json.specs.Data.{member, no_members, string};
ghost use Rattle.serde_json.specs.Written.{compact_text, members_text};
ghost use Rattle.session_texts.specs.pipsmake_rules.Kinds.{name_of};
ghost use Rattle.base_json.specs.Written.{list_data, number_data, text_data};
ghost use Rattle.base_values.specs.Naming.{Each};
ghost use Rattle.base_values.specs.Ranges.{NumbersFit};
ghost use Rattle.base_values.specs.Written.{stored_data};
ghost use Rattle.base_text.specs.Modules.{known_names};
ghost use Rattle.base_text.specs.Read.{base_of, base};
ghost use Rattle.base_text.specs.Written.{module_data, names_for, known_or_none, kind_and_value, result_data, data_for, base_text, kept_base, kept};
ghost use Rattle.base_text.specs.Grammar.{IsBase};

use crate::formats::format_of;
use crate::known::Known;
use crate::{Base, BaseModule, StoredResult};
use base_json::{Put, put_list, put_number, put_value, text_value};
use base_values::{kind_of, numbers_fit, put_stored};
use f77_ast::Symbols;
use fx_lists::{List, Text};
use serde_json::json;
use session_texts::pipsmake_rules::Kind;
use std::alloc::{AllocError as Memory, Global};

impl Put<Known> for BaseModule {
    ghost data_of = { λ _ m. module_data m };

    #[tactic(auto, unfolding(serde_json::proofs::OnLiterals::serde_json_on_literals))]
    fn put(&self, alloc: Global, _scope: &Known, out: &mut Text) -> Result<(), Memory> {
        out.append(b"{\"name\":")?;
        put_text(alloc, &self.name, out)?;
        out.append(b",\"text\":")?;
        put_text(alloc, &self.text, out)?;
        out.push(b'}')
    }
}

/// Appends a string.
fn put_text(alloc: Global, text: &Text, out: &mut Text) -> Result<(), Memory>
    ensures { OnOk result (out.new ≡ out.old ++ compact_text (text_data text.now)) }
{
    let value = text_value(alloc, text.as_slice())?;
    put_value(alloc, &value, out)
}

/// Appends the word of a kind.
fn put_kind(alloc: Global, kind: Kind, out: &mut Text) -> Result<(), Memory>
    ensures { OnOk result (out.new ≡ out.old ++ compact_text (string (name_of kind))) }
{
    let word = json!(in alloc; kind.name())?;
    put_value(alloc, &word, out)
}

/// Appends what was found, with the names of the symbols of its module.
fn put_found(
    alloc: Global,
    known: &Known,
    stored: &StoredResult,
    out: &mut Text,
) -> Result<(), Memory>
    ensures { OnOk result (out.new ≡ out.old ++ compact_text (stored_data (names_for (known_names known.now) stored.now.name).names stored.now.value)) }
{
    match known.table(&stored.name) {
        Some(table) => put_stored(alloc, &table.symbols, &stored.value, out),
        None => {
            let none = Symbols::new(alloc);
            put_stored(alloc, &none, &stored.value, out)
        }
    }
}

/// Appends the kind of a result, its name, what was found and the brace behind them.
#[tactic(auto, unfolding(serde_json::proofs::OnLiterals::serde_json_on_literals))]
fn put_kind_and_value(
    alloc: Global,
    known: &Known,
    stored: &StoredResult,
    out: &mut Text,
) -> Result<(), Memory>
    ensures { OnOk result (out.new ≡ out.old ++ members_text true (kind_and_value (known_names known.now) stored.now)) }
{
    out.append(b",\"kind\":")?;
    put_kind(alloc, kind_of(&stored.value), out)?;
    out.append(b",\"name\":")?;
    put_text(alloc, &stored.name, out)?;
    out.append(b",\"value\":")?;
    put_found(alloc, known, stored, out)?;
    out.push(b'}')
}

impl Put<Known> for StoredResult {
    ghost data_of = { λ k r. result_data (known_names k) r };

    #[tactic(auto, unfolding(serde_json::proofs::OnLiterals::serde_json_on_literals))]
    fn put(&self, alloc: Global, scope: &Known, out: &mut Text) -> Result<(), Memory> {
        let format = format_of(kind_of(&self.value));
        out.append(b"{\"format\":")?;
        put_number(alloc, u64::from(format), out)?;
        put_kind_and_value(alloc, scope, self, out)
    }
}

/// Appends the version of a base, its results and the brace behind them.
#[tactic(auto, unfolding(serde_json::proofs::OnLiterals::serde_json_on_literals))]
fn put_version_and_results(
    alloc: Global,
    known: &Known,
    results: &List<StoredResult>,
    out: &mut Text,
) -> Result<(), Memory>
    ensures { OnOk result (out.new ≡ out.old ++ members_text true (member (codes "pips") (number_data 2) (member (codes "results") (list_data (map (result_data (known_names known.now)) results.now)) no_members))) }
{
    out.append(b",\"pips\":")?;
    put_number(alloc, 2, out)?;
    out.append(b",\"results\":")?;
    put_list(alloc, known, results.as_slice(), out)?;
    out.push(b'}')
}

/// Appends a base with these modules and results.
#[tactic(auto, unfolding(serde_json::proofs::OnLiterals::serde_json_on_literals))]
fn put_base(
    alloc: Global,
    known: &Known,
    modules: &List<BaseModule>,
    results: &List<StoredResult>,
    out: &mut Text,
) -> Result<(), Memory>
    ensures { OnOk result (out.new ≡ out.old ++ compact_text (data_for (known_names known.now) modules.now results.now)) }
{
    out.append(b"{\"modules\":")?;
    put_list(alloc, known, modules.as_slice(), out)?;
    put_version_and_results(alloc, known, results, out)
}

/// The law that the numbers of results fit 64 bits, as their types have it.
fn all_numbers_fit(results: &[StoredResult])
    ensures { Each (λ (r : StoredResult). NumbersFit r.value) results.now }
{
    let mut rest = results;
    while let [stored, more @ ..] = rest {
        numbers_fit(&stored.value);
        rest = more;
    }
}

/// The text of a base with these modules and results.
pub(crate) fn text_with(
    alloc: Global,
    known: &Known,
    modules: &List<BaseModule>,
    results: &List<StoredResult>,
) -> Result<Text, Memory>
    requires { known_names known.now ≡ known_or_none modules.now }
    ensures text { IfOk result (λ t. t ≡ base_text (base modules.now results.now)) }
    ensures reads_back { IsBase (base modules.now results.now) → IfOk result (λ t. base_of t ≡ Ok (base modules.now results.now)) }
{
    let mut out = Text::new(alloc);
    put_base(alloc, known, modules, results, &mut out)?;
    all_numbers_fit(results.as_slice());
    Ok(out)
}

/// The text of a base, in version 1 of its grammar. A base in the grammar is read again as itself. Takes time in proportion to the texts of the modules and to
/// what is written.
pub fn base_write(alloc: Global, base: &Base) -> Result<Text, Memory>
    ensures text { IfOk result (λ t. t ≡ base_text base.now) }
    ensures reads_back { IsBase base.now → IfOk result (λ t. base_of t ≡ Ok base.now) }
{
    let known = Known::of(alloc, base.modules.as_slice())?;
    text_with(alloc, &known, &base.modules, &base.results)
}

/// The text of a base that is kept within a limit of bytes: of the whole base, or where that is longer of its modules alone; None where that is longer, too.
pub fn kept_text(alloc: Global, base: &Base, limit: u64) -> Result<Option<Text>, Memory>
    ensures text { IfOk result (λ t. t ≡ kept base.now limit) }
    ensures reads_back { IsBase base.now → IfOk result (λ o. IfSome o (λ t. base_of t ≡ Ok (kept_base base.now limit))) }
{
    let known = Known::of(alloc, base.modules.as_slice())?;
    let whole = text_with(alloc, &known, &base.modules, &base.results)?;
    if whole.len() as u64 <= limit {
        return Ok(Some(whole));
    }
    let none = List::new(alloc);
    let bare = text_with(alloc, &known, &base.modules, &none)?;
    if bare.len() as u64 <= limit {
        Ok(Some(bare))
    } else {
        Ok(None)
    }
}
