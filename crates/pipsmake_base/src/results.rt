//! The fresh results of a database as those of a base.
ghost use Rattle.std.specs.Prelude.{◌≡◌, ◌++◌, true, IfOk, OnOk, option_and_then};
ghost use Rattle.pipsmake_db.specs.base_values.Naming.{Each};
ghost use Rattle.pipsmake_db.specs.base_values.Scopes.{names_tree};
ghost use Rattle.pipsmake_db.specs.pipsmake_meaning.MemoCells.{kept_of};
ghost use Rattle.pipsmake_db.specs.Shown.{stored_in};
ghost use Rattle.pipsmake_db.specs.State.{memo_cells_in};
ghost use Rattle.pipsmake_base.specs.Fitting.{IsFitting, SavedFits, KindsFit, ModuleFits};
ghost use Rattle.pipsmake_base.specs.Saving.{result_saved, results_of_kinds, stored_kinds, results_saved};

use base_takes::stored_fits;
use base_text::StoredResult;
use fx_lists::{List, Text};
use pipsmake_db::base_values::{Names, StoredValue, kind_of, numbers_in};
use pipsmake_db::pipsmake_rules::{Key, Kind};
use pipsmake_db::result_store::Item;
use pipsmake_db::{Db, stored_of};
use std::alloc::{AllocError as Memory, Global};

/// The kinds whose results are stored, in their order.
const STORED_KINDS: [Kind; 7] = [
    Kind::Effects,
    Kind::Transformers,
    Kind::Preconditions,
    Kind::Regions,
    Kind::InRegions,
    Kind::OutRegions,
    Kind::Marks,
];

/// What is kept of a result, where its kind is stored.
fn kept_value(
    alloc: Global,
    db: &Db,
    kind: Kind,
    name: &Text,
) -> Result<Option<StoredValue>, Memory>
    ensures { IfOk result (λ o. o ≡ option_and_then stored_in (kept_of (memo_cells_in db.now) kind name.now)) }
{
    match db.store.value(Item::Result(kind), name) {
        None => Ok(None),
        Some(value) => stored_of(alloc, value),
    }
}

/// Whether a value is a result of a kind, and fits the module with these names.
fn is_fitting(
    alloc: Global,
    names: &Names<'_>,
    kind: Kind,
    value: &StoredValue,
) -> Result<bool, Memory>
    ensures { IfOk result (λ b. b ≡ true → IsFitting (names_tree names.now) kind value.now) }
{
    if kind_of(value).number() != kind.number() {
        return Ok(false);
    }
    stored_fits(alloc, names, value)
}

/// Adds a result, where it is fresh. Err also where it is not kept, is not of its kind, or does not fit its module.
fn push_result(
    alloc: Global,
    db: &Db,
    names: &Names<'_>,
    kind: Kind,
    name: &Text,
    results: &mut List<StoredResult>,
) -> Result<(), Memory>
    ensures results { OnOk result (results.new ≡ results.old ++ result_saved db.now name.now kind) }
    ensures fits { OnOk result (SavedFits (names_tree names.now) db.now name.now kind) }
{
    let key = Key {
        kind,
        name: name.clone()?,
    };
    if !db.fresh.has(alloc, &key)? {
        return Ok(());
    }
    match kept_value(alloc, db, kind, name)? {
        None => Err(Memory),
        Some(value) => {
            if !is_fitting(alloc, names, kind, &value)? {
                return Err(Memory);
            }
            let Key { kind: _, name } = key;
            results.push(StoredResult { name, value })?;
            Ok(())
        }
    }
}

/// Adds the fresh results of these kinds of a module. Err also where one is not kept, or does not fit it.
fn push_kinds(
    alloc: Global,
    db: &Db,
    names: &Names<'_>,
    name: &Text,
    kinds: &[Kind],
    results: &mut List<StoredResult>,
) -> Result<(), Memory>
    ensures results { OnOk result (results.new ≡ results.old ++ results_of_kinds db.now name.now kinds.now) }
    ensures fits { OnOk result (KindsFit (names_tree names.now) db.now name.now kinds.now) }
{
    let mut rest = kinds;
    while let [kind, more @ ..] = rest {
        push_result(alloc, db, names, *kind, name, results)?;
        rest = more;
    }
    Ok(())
}

/// Adds the fresh results of stored kinds of the module of a name. Err also where there is none, or a result is not kept or does not fit it.
fn push_module(
    alloc: Global,
    db: &Db,
    name: &Text,
    results: &mut List<StoredResult>,
) -> Result<(), Memory>
    ensures results { OnOk result (results.new ≡ results.old ++ results_of_kinds db.now name.now stored_kinds) }
    ensures fits { OnOk result (ModuleFits db.now name.now) }
{
    let sources = db.linked.sources();
    let Some(symbols) = sources.symbols_named(name) else {
        return Err(Memory);
    };
    let Some(parsed) = sources.parsed_named(name) else {
        return Err(Memory);
    };
    let numbers = numbers_in(alloc, &parsed.module.body)?;
    let names = Names {
        symbols,
        numbers: &numbers,
    };
    push_kinds(alloc, db, &names, name, &STORED_KINDS, results)
}

/// The fresh results of stored kinds of modules with these names, by module and then by kind. Err also where one is not kept, or does not fit its module.
pub(crate) fn results_of(
    alloc: Global,
    db: &Db,
    names: &[Text],
) -> Result<List<StoredResult>, Memory>
    ensures results { IfOk result (λ rs. rs ≡ results_saved db.now names.now) }
    ensures fits { OnOk result (Each (ModuleFits db.now) names.now) }
{
    let mut results = List::new(alloc);
    let mut rest = names;
    while let [name, more @ ..] = rest {
        push_module(alloc, db, name, &mut results)?;
        rest = more;
    }
    Ok(results)
}
