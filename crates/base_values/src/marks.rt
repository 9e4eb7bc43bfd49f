//! Marks as JSON, and back.
ghost use Rattle.std.specs.Prelude.{◌≡◌, IfOk, map, option_and_then};
ghost use Rattle.serde_json.specs.Find.{as_str};
ghost use Rattle.serde_json.specs.View.{view};
ghost use Rattle.f77_ast.specs.Index.{names_of};
ghost use Rattle.f77_ast.specs.declared.marks.Mark.TheVariants.{Parallel as parallel_is, Serial as serial_is};
ghost use Rattle.base_json.specs.Gives.{Gives};
ghost use Rattle.base_json.specs.Shapes.{each_as};
ghost use Rattle.base_json.specs.Scopes.{scope_tree, variable_of};
ghost use Rattle.base_values.specs.Read.{numbers_of as numbers_of_is, conflict_of, answer_of, carried_in as carried_in_is, reason_in as reason_in_is, mark_by as mark_by_is, mark_in as mark_in_is, mark_of};
ghost use Rattle.base_values.specs.Words.{reason_named as reason_named_is};
ghost use Rattle.base_values.specs.Written.{conflict_data, private_data, carried_data, mark_data};

use crate::scope::{SymbolNames, ValueScope};
use crate::variables::put_name;
use crate::words::{answer_named, answer_word, conflict_named, conflict_word, reason_named};
use base_json::{
    Decode, DecodeError, Encode, decode_each, items_of, list_at, list_value, text_value,
    variable_at, word,
};
use f77_ast::{Kinds, Mark, Private, Reason, Symbols, Variable};
use fx_lists::{List, Text};
use serde_json::{Value, json};
use std::alloc::{AllocError as Memory, Global};

impl<'a> Encode<SymbolNames<'a>> for Kinds {
    ghost data_of = { λ _ k. conflict_data k };

    fn encode(&self, alloc: Global, _scope: &SymbolNames<'a>) -> Result<Value, Memory> {
        json!(in alloc; conflict_word(*self))
    }
}

fn name_value(alloc: Global, symbols: &Symbols, number: u32) -> Result<Value, Memory>
    ensures { IfOk result (λ v. view v ≡ private_data (names_of symbols.now) number) }
{
    let mut name = Text::new(alloc);
    put_name(&mut name, symbols, number)?;
    text_value(alloc, name.as_slice())
}

/// A parallel loop, with the names of its private variables.
#[tactic(auto, using(crate::proofs::Steps::marks))]
fn parallel_value(alloc: Global, symbols: &Symbols, numbers: &[u32]) -> Result<Value, Memory>
    ensures { IfOk result (λ v. view v ≡ mark_data (names_of symbols.now) (parallel_is numbers.now)) }
{
    let mut items = Vec::new(alloc);
    items.push(json!(in alloc; "PARALLEL")?)?;
    for number in numbers {
        items.push(name_value(alloc, symbols, *number)?)?;
    }
    Ok(Value::Array(items))
}

/// A loop that is serial by a variable.
fn carried_value(
    alloc: Global,
    scope: &SymbolNames<'_>,
    v: &Variable,
    kinds: &[Kinds],
    answer: Private,
) -> Result<Value, Memory>
    ensures { IfOk result (λ w. view w ≡ carried_data (names_of scope.now.symbols.now) v.now kinds.now answer) }
{
    let variable = v.encode(alloc, scope)?;
    let kinds = list_value(alloc, scope, kinds)?;
    json!(in alloc; ["SERIAL", variable, kinds, answer_word(answer)])
}

fn serial_value(alloc: Global, scope: &SymbolNames<'_>, reason: &Reason) -> Result<Value, Memory>
    ensures { IfOk result (λ v. view v ≡ mark_data (names_of scope.now.symbols.now) (serial_is reason.now)) }
{
    match reason {
        Reason::Jump => json!(in alloc; ["SERIAL", "Jump"]),
        Reason::InputOutput => json!(in alloc; ["SERIAL", "InputOutput"]),
        Reason::Step => json!(in alloc; ["SERIAL", "Step"]),
        Reason::Index => json!(in alloc; ["SERIAL", "Index"]),
        Reason::Carries(v, kinds, answer) => {
            carried_value(alloc, scope, v, kinds.as_slice(), *answer)
        }
    }
}

impl<'a> Encode<SymbolNames<'a>> for Mark {
    ghost data_of = { λ s m. mark_data (names_of s.symbols.now) m };

    fn encode(&self, alloc: Global, scope: &SymbolNames<'a>) -> Result<Value, Memory> {
        match self {
            Mark::Parallel(numbers) => parallel_value(alloc, scope.symbols, numbers.as_slice()),
            Mark::Serial(reason) => serial_value(alloc, scope, reason),
        }
    }
}

/// The numbers of own variables; Shape where one is of another module or a block.
#[tactic(auto, using(crate::proofs::Steps::numbers))]
fn numbers_of(alloc: Global, variables: &[Variable]) -> Result<List<u32>, DecodeError>
    ensures { Gives result (numbers_of_is variables.now) }
{
    let mut numbers = List::new(alloc);
    let mut rest = variables;
    while let [v, more @ ..] = rest {
        match v {
            Variable::Own(n) => numbers.push(*n)?,
            Variable::Block(_) | Variable::Saved(..) => return Err(DecodeError::Shape),
        }
        rest = more;
    }
    Ok(numbers)
}

impl<'a> Decode<ValueScope<'a>> for Kinds {
    ghost read_as = { λ _. conflict_of };

    fn decode(
        _alloc: Global,
        _scope: &ValueScope<'a>,
        value: &Value,
    ) -> Result<Kinds, DecodeError> {
        match word(value).and_then(conflict_named) {
            None => Err(DecodeError::Shape),
            Some(kind) => Ok(kind),
        }
    }
}

fn answer_at(value: &Value) -> Option<Private>
    ensures { result ≡ answer_of (view value.now) }
{
    word(value).and_then(answer_named)
}

/// What iterations carry, of a variable, the kinds of dependence and the answer on copies.
fn carried_in(
    alloc: Global,
    scope: &ValueScope<'_>,
    v: &Value,
    kinds: &Value,
    answer: &Value,
) -> Result<Reason, DecodeError>
    ensures { Gives result (carried_in_is (scope_tree scope.now.cells) (view v.now) (view kinds.now) (view answer.now)) }
{
    let variable = variable_at(alloc, &scope.cells, v)?;
    let kinds: List<Kinds> = list_at(alloc, scope, kinds)?;
    match answer_at(answer) {
        None => Err(DecodeError::Shape),
        Some(answer) => Ok(Reason::Carries(variable, kinds, answer)),
    }
}

fn short_reason(value: &Value) -> Result<Reason, DecodeError>
    ensures { Gives result (option_and_then reason_named_is (as_str (view value.now))) }
{
    match word(value).and_then(reason_named) {
        None => Err(DecodeError::Shape),
        Some(reason) => Ok(reason),
    }
}

/// Why a loop is serial, by what follows the word SERIAL.
#[tactic(auto, using(crate::proofs::Steps::reasons))]
fn reason_in(alloc: Global, scope: &ValueScope<'_>, items: &[Value]) -> Result<Reason, DecodeError>
    ensures { Gives result (reason_in_is (scope_tree scope.now.cells) (map view items.now)) }
{
    match items {
        [] => Err(DecodeError::Shape),
        [reason] => short_reason(reason),
        [_, _] => Err(DecodeError::Shape),
        [v, kinds, answer] => carried_in(alloc, scope, v, kinds, answer),
        [_, _, _, _, ..] => Err(DecodeError::Shape),
    }
}

/// The private variables of a parallel loop.
fn private_in(
    alloc: Global,
    scope: &ValueScope<'_>,
    items: &[Value],
) -> Result<List<u32>, DecodeError>
    ensures { Gives result (option_and_then numbers_of_is (each_as (variable_of (scope_tree scope.now.cells)) (map view items.now))) }
{
    let variables: List<Variable> = decode_each(alloc, &scope.cells, items)?;
    numbers_of(alloc, variables.as_slice())
}

/// A mark of its first word and what follows it.
fn mark_by(
    alloc: Global,
    scope: &ValueScope<'_>,
    word: &str,
    items: &[Value],
) -> Result<Mark, DecodeError>
    ensures { Gives result (mark_by_is (scope_tree scope.now.cells) (map view items.now) word.now) }
{
    if word == "PARALLEL" {
        Ok(Mark::Parallel(private_in(alloc, scope, items)?))
    } else if word == "SERIAL" {
        Ok(Mark::Serial(reason_in(alloc, scope, items)?))
    } else {
        Err(DecodeError::Shape)
    }
}

fn mark_in(alloc: Global, scope: &ValueScope<'_>, items: &[Value]) -> Result<Mark, DecodeError>
    ensures { Gives result (mark_in_is (scope_tree scope.now.cells) (map view items.now)) }
{
    let [first, others @ ..] = items else {
        return Err(DecodeError::Shape);
    };
    let Some(first) = word(first) else {
        return Err(DecodeError::Shape);
    };
    mark_by(alloc, scope, first, others)
}

impl<'a> Decode<ValueScope<'a>> for Mark {
    ghost read_as = { λ s. mark_of (scope_tree s.cells) };

    fn decode(alloc: Global, scope: &ValueScope<'a>, value: &Value) -> Result<Mark, DecodeError> {
        match items_of(value) {
            None => Err(DecodeError::Shape),
            Some(items) => mark_in(alloc, scope, items),
        }
    }
}
