//! A base out of its compact text, with no JSON value in between.
ghost use Rattle.std.specs.Prelude.{◌≡◌, ◌<◌, true, Some, Ok, IfOk};
ghost use Rattle.base_values.specs.Naming.{Each, AreBytes};
ghost use Rattle.base_values.specs.Fits.{StoredFits};
ghost use Rattle.base_text.specs.Modules.{known_in, known_names, table_names};
ghost use Rattle.base_text.specs.Read.{base, base_of};
ghost use Rattle.base_text.specs.Grammar.{HasBytes, ResultFits, IsBase};

use crate::formats::format_of;
use crate::known::Known;
use crate::modules::Table;
use crate::order::are_in_order;
use crate::write::text_with;
use crate::{Base, BaseModule, StoredResult};
use base_json::DecodeError;
use base_takes::{Check, Cursor, Take, check_list, stored_fits, take_list, take_stored};
use base_values::{Names, StoredValue};
use fx_lists::{List, Text};
use session_texts::pipsmake_rules::Kind;
use std::alloc::{AllocError as Memory, Global};

impl Take<()> for BaseModule {
    fn take(alloc: Global, _scope: &(), from: &mut Cursor<'_>) -> Result<BaseModule, DecodeError> {
        from.word(b"{\"name\":")?;
        let name = from.text(alloc)?;
        from.word(b",\"text\":")?;
        let text = from.text(alloc)?;
        from.word(b"}")?;
        Ok(BaseModule { name, text })
    }
}

/// Takes the kind of a result.
fn take_kind(alloc: Global, from: &mut Cursor<'_>) -> Result<Kind, DecodeError> {
    let word = from.name(alloc)?;
    match Kind::with_name(word.as_slice()) {
        None => Err(DecodeError::Shape),
        Some(kind) => Ok(kind),
    }
}

impl Take<Known> for StoredResult {
    fn take(
        alloc: Global,
        scope: &Known,
        from: &mut Cursor<'_>,
    ) -> Result<StoredResult, DecodeError> {
        from.word(b"{\"format\":")?;
        let format = from.short_number()?;
        from.word(b",\"kind\":")?;
        let kind = take_kind(alloc, from)?;
        if format != format_of(kind) {
            return Err(DecodeError::Shape);
        }
        from.word(b",\"name\":")?;
        let name = from.name(alloc)?;
        from.word(b",\"value\":")?;
        let Some(table) = scope.table(&name) else {
            return Err(DecodeError::Shape);
        };
        let value = take_stored(alloc, &table.symbols, kind, from)?;
        from.word(b"}")?;
        Ok(StoredResult { name, value })
    }
}

/// Takes the front of a base and its modules.
fn take_modules(alloc: Global, from: &mut Cursor<'_>) -> Result<List<BaseModule>, DecodeError> {
    from.word(b"{\"modules\":")?;
    take_list(alloc, &(), from)
}

/// Takes the results of a base and what is behind them.
fn take_results(
    alloc: Global,
    known: &Known,
    from: &mut Cursor<'_>,
) -> Result<List<StoredResult>, DecodeError> {
    from.word(b",\"pips\":2,\"results\":")?;
    let results: List<StoredResult> = take_list(alloc, known, from)?;
    from.word(b"}")?;
    if from.is_at_end() {
        Ok(results)
    } else {
        Err(DecodeError::Shape)
    }
}

impl Check<Known> for StoredResult {
    ghost fits = { λ k r. ResultFits (known_names k) r };

    fn check(&self, alloc: Global, scope: &Known) -> Result<bool, Memory> {
        match scope.table(&self.name) {
            None => Ok(false),
            Some(table) => value_fits(alloc, table, &self.value),
        }
    }
}

/// Whether a result fits the module with this table.
fn value_fits(alloc: Global, table: &Table, value: &StoredValue) -> Result<bool, Memory>
    ensures { IfOk result (λ b. b ≡ true → StoredFits (table_names table.now) value.now) }
{
    let names = Names {
        symbols: &table.symbols,
        numbers: &table.numbers,
    };
    stored_fits(alloc, &names, value)
}

/// A byte is below 256.
fn is_byte(byte: u8)
    ensures { byte < 256 }
{}

fn bytes_are(bytes: &[u8])
    ensures { AreBytes bytes.now }
{
    let mut rest = bytes;
    while let [byte, more @ ..] = rest {
        is_byte(*byte);
        rest = more;
    }
}

fn are_bytes(text: &Text)
    ensures { AreBytes text.now }
{
    bytes_are(text.as_slice());
}

fn each_has_bytes(modules: &[BaseModule])
    ensures { Each HasBytes modules.now }
{
    let mut rest = modules;
    while let [module, more @ ..] = rest {
        are_bytes(&module.name);
        are_bytes(&module.text);
        rest = more;
    }
}

/// The law that the names and texts of modules are of bytes.
fn have_bytes(modules: &List<BaseModule>)
    ensures { Each HasBytes modules.now }
{
    each_has_bytes(modules.as_slice());
}

/// Whether a base with these modules and results is in the grammar.
fn is_in_grammar(
    alloc: Global,
    known: &Known,
    modules: &List<BaseModule>,
    results: &List<StoredResult>,
) -> Result<bool, Memory>
    requires { known_in modules.now ≡ Some (known_names known.now) }
    ensures { IfOk result (λ b. b ≡ true → IsBase (base modules.now results.now)) }
{
    have_bytes(modules);
    let ordered = are_in_order(&known.names, results.as_slice());
    if !ordered {
        return Ok(false);
    }
    check_list(alloc, known, results)
}

fn is_same(one: &Text, other: &Text) -> bool
    ensures { result ≡ true → one.now ≡ other.now }
{
    *one == *other
}

/// Whether a base with these modules and results is in the grammar, and this is its text.
fn is_text_of(
    alloc: Global,
    known: &Known,
    modules: &List<BaseModule>,
    results: &List<StoredResult>,
    text: &Text,
) -> Result<bool, Memory>
    requires { known_in modules.now ≡ Some (known_names known.now) }
    ensures { IfOk result (λ b. b ≡ true → base_of text.now ≡ Ok (base modules.now results.now)) }
{
    let sound = is_in_grammar(alloc, known, modules, results)?;
    if !sound {
        return Ok(false);
    }
    let written = text_with(alloc, known, modules, results)?;
    Ok(is_same(&written, text))
}

/// The base of a compact text. Err(Shape) where it is another text, or one that is left to another reader.
pub fn base_taken(alloc: Global, text: &Text) -> Result<Base, DecodeError>
    ensures { IfOk result (λ b. base_of text.now ≡ Ok b) }
{
    let mut from = Cursor::new(text.as_slice());
    let modules = take_modules(alloc, &mut from)?;
    let known = Known::read(alloc, modules.as_slice())?;
    let results = take_results(alloc, &known, &mut from)?;
    if is_text_of(alloc, &known, &modules, &results, text)? {
        Ok(Base { modules, results })
    } else {
        Err(DecodeError::Shape)
    }
}
