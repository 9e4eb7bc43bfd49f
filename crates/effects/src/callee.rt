//! What a CALL reads and writes as its callee does.
ghost use Rattle.std.specs.Prelude.{◌≡◌, ◌-◌, [], ◌∷◌, map, IfOk};
ghost use Rattle.f77_ast.specs.Plain.{expr_tree, expr_trees};
ghost use Rattle.f77_ast.specs.Symbols.{symbol_tree};
ghost use Rattle.f77_ast.specs.Shared.{symbol_at};
ghost use Rattle.f77_ast.specs.Summaries.{summary_tree, summary_in};
ghost use Rattle.effects.specs.Callee.{or_block, actual_variable, if_saved, at_place, symbol_in_caller, in_caller, all_in_caller, summary_effect, call_effect};

use crate::names::variable_named;
use crate::shapes::first_like;
use f77_ast::{
    EffectSet, Expr, Place, Summaries, Summary, Symbol, Symbols, Variable, copy_variable, union,
};
use fx_lists::{List, Text};
use std::alloc::{AllocError as Memory, Global};

fn single(alloc: Global, v: Variable) -> Result<List<Variable>, Memory>
    ensures { IfOk result (λ vs. vs ≡ v ∷ []) }
{
    let mut variables = List::new(alloc);
    variables.push(v)?;
    Ok(variables)
}

/// A variable of the caller, or the block.
fn or_block(alloc: Global, block: &Text, found: Option<u32>) -> Result<List<Variable>, Memory>
    ensures { IfOk result (λ vs. vs ≡ or_block block.now found) }
{
    match found {
        None => single(alloc, Variable::Block(block.clone()?)),
        Some(number) => single(alloc, Variable::Own(number)),
    }
}

/// The variable that the actual of a dummy names.
fn actual_variable(
    alloc: Global,
    symbols: &Symbols,
    actuals: &List<Expr>,
    dummy: u32,
) -> Result<List<Variable>, Memory>
    ensures { IfOk result (λ vs. vs ≡ actual_variable (expr_trees actuals.now) (dummy - 1) (map symbol_tree symbols.now)) }
{
    let place = dummy.saturating_sub(1);
    match actuals.get(place as usize) {
        None => Ok(List::new(alloc)),
        Some(actual) => variable_named(alloc, symbols, actual),
    }
}

fn if_saved(alloc: Global, callee: &Text, symbol: &Symbol) -> Result<List<Variable>, Memory>
    ensures { IfOk result (λ vs. vs ≡ if_saved symbol.now.saved callee.now symbol.now.name) }
{
    if symbol.saved {
        single(
            alloc,
            Variable::Saved(callee.clone()?, symbol.name.clone()?),
        )
    } else {
        Ok(List::new(alloc))
    }
}

/// A CALL: the symbols of the caller, the name of the callee, the actuals, and the symbols of the callee.
#[derive(Drop)]
pub struct CallSymbols<'a> {
    pub symbols: &'a Symbols,
    pub callee: &'a Text,
    pub actuals: &'a List<Expr>,
    pub others: &'a Symbols,
}

/// What a symbol of the callee is to the caller.
fn symbol_in_caller(
    alloc: Global,
    call: &CallSymbols<'_>,
    symbol: &Symbol,
) -> Result<List<Variable>, Memory>
    ensures { IfOk result (λ vs. vs ≡ at_place symbol.now.place (symbol_tree symbol.now) call.now.callee.now (expr_trees call.now.actuals.now) (map symbol_tree call.now.others.now) (map symbol_tree call.now.symbols.now)) }
{
    match &symbol.place {
        Place::Local(..) => if_saved(alloc, call.callee, symbol),
        Place::Dummy(number) => actual_variable(alloc, call.symbols, call.actuals, *number),
        Place::Block(block, offset) => {
            let found = first_like(call.symbols, block, *offset, call.others, symbol)?;
            or_block(alloc, block, found)
        }
        Place::Constant(_) => Ok(List::new(alloc)),
    }
}

/// What a variable of the callee is to the caller.
fn in_caller(alloc: Global, call: &CallSymbols<'_>, v: &Variable) -> Result<List<Variable>, Memory>
    ensures { IfOk result (λ vs. vs ≡ in_caller v.now call.now.callee.now (expr_trees call.now.actuals.now) (map symbol_tree call.now.others.now) (map symbol_tree call.now.symbols.now)) }
{
    match v {
        Variable::Own(number) => match call.others.symbol(*number) {
            None => Ok(List::new(alloc)),
            Some(symbol) => symbol_in_caller(alloc, call, symbol),
        },
        Variable::Block(_) | Variable::Saved(..) => single(alloc, copy_variable(v)?),
    }
}

/// What variables of the callee are to the caller. Takes time of their number times their number and that of the caller's symbols.
fn all_in_caller(
    alloc: Global,
    call: &CallSymbols<'_>,
    variables: &List<Variable>,
) -> Result<List<Variable>, Memory>
    ensures { IfOk result (λ vs. vs ≡ all_in_caller variables.now call.now.callee.now (expr_trees call.now.actuals.now) (map symbol_tree call.now.others.now) (map symbol_tree call.now.symbols.now) []) }
{
    let mut all = List::new(alloc);
    let mut rest = variables.as_slice();
    while let [v, more @ ..] = rest {
        let found = in_caller(alloc, call, v)?;
        all = union(alloc, &all, &found)?;
        rest = more;
    }
    Ok(all)
}

fn summary_effect(
    alloc: Global,
    symbols: &Symbols,
    callee: &Text,
    actuals: &List<Expr>,
    summary: &Summary<EffectSet>,
) -> Result<EffectSet, Memory>
    ensures { IfOk result (λ e. e ≡ summary_effect (summary_tree summary.now) callee.now (expr_trees actuals.now) (map symbol_tree symbols.now)) }
{
    let call = CallSymbols {
        symbols,
        callee,
        actuals,
        others: &summary.symbols,
    };
    let reads = all_in_caller(alloc, &call, &summary.value.reads)?;
    let writes = all_in_caller(alloc, &call, &summary.value.writes)?;
    Ok(EffectSet {
        reads,
        writes,
        io: summary.value.io,
        stops: summary.value.stops,
    })
}

/// The effects of the callee of a CALL, as variables of the caller: for a dummy the variable that its actual names, for a
/// variable of a block the first like it there, or else the block; for a local its name where it is saved. No effects where no
/// summary of the callee is known. The actuals themselves are not read here.
pub fn call_effect(
    alloc: Global,
    symbols: &Symbols,
    callees: &Summaries<EffectSet>,
    callee: &Text,
    actuals: &List<Expr>,
) -> Result<EffectSet, Memory>
    ensures { IfOk result (λ e. e ≡ call_effect (summary_in callees.now callee.now) callee.now (expr_trees actuals.now) (map symbol_tree symbols.now)) }
{
    match callees.get(callee) {
        None => Ok(EffectSet::none(alloc)),
        Some(summary) => summary_effect(alloc, symbols, callee, actuals, summary),
    }
}
