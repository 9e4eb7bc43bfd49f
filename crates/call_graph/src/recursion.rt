//! Whether calls lead back to their callers.
ghost use Rattle.std.specs.Prelude.{◌≡◌, ◌≤◌, true, false, length, map, IfOk, [], slice_index_or};
ghost use Rattle.std.specs.List.{list_any};
ghost use Rattle.f77_ast.specs.PlainDecl.{parsed_tree};
ghost use Rattle.call_graph.specs.Modules.{most_modules};
ghost use Rattle.call_graph.specs.Recursion.{reaches, cyclic_in, cyclic_fault, cyclic_from};
ghost use Rattle.call_graph.specs.Tables.{cell, longer_cell, row_from, longer, table_after, rank, are_below, fall_from, calls_below, calls_fall};

use crate::calls::Calls;
use crate::modules::call_line;
use crate::order::order_of;
use crate::refusal::Fault;
use f77_ast::{Parsed, StmtId};
use fx_lists::{Code, List};
use std::alloc::{AllocError as Memory, Global};
use tracked_cells::Names;

/// For each module, whether it leads to each.
type Table = List<List<bool>>;

fn at(row: &List<bool>, to: u32) -> bool
    ensures { result ≡ slice_index_or row.now to false }
{
    row.get(to as usize).copied().unwrap_or(false)
}

fn cell(table: &Table, from: u32, to: u32) -> bool
    ensures { result ≡ cell table.now from to }
{
    match table.get(from as usize) {
        None => false,
        Some(row) => at(row, to),
    }
}

/// Whether one of these modules leads to a module.
fn some_leads(table: &Table, callees: &List<u32>, to: u32) -> bool
    ensures { result ≡ list_any (λ c. cell table.now c to) callees.now }
{
    callees.as_slice().iter().any(|c| cell(table, *c, to))
}

/// Whether a module leads to another by one call more than the table has.
fn leads(table: &Table, callees: &List<u32>, from: u32, to: u32) -> bool
    ensures { result ≡ longer_cell table.now callees.now from to }
{
    from == to || some_leads(table, callees, to)
}

/// To which modules one leads by one call more than the table has.
#[tactic(auto, using(crate::proofs::TableLaws::row_steps))]
fn longer_row(
    alloc: Global,
    table: &Table,
    size: u32,
    from: u32,
    callees: &List<u32>,
) -> Result<List<bool>, Memory>
    ensures { IfOk result (λ row. row ≡ row_from table.now callees.now from 0 size) }
{
    let mut row = List::new(alloc);
    for to in 0..size {
        row.push(leads(table, callees, from, to))?;
    }
    Ok(row)
}

/// The table for one call more.
fn longer(alloc: Global, table: &Table, callees: &List<List<u32>>) -> Result<Table, Memory>
    requires { length callees.now ≤ most_modules }
    ensures { IfOk result (λ t. t ≡ longer callees.now table.now) }
{
    let size = callees.len() as u32;
    let mut rows = List::new(alloc);
    let mut from = 0u32;
    let mut rest = callees.as_slice();
    while let [called, more @ ..] = rest {
        rows.push(longer_row(alloc, table, size, from, called)?)?;
        from += 1;
        rest = more;
    }
    Ok(rows)
}

/// Whether a round has changed nothing.
fn is_settled(table: &Table, next: &Table) -> bool
    ensures { result ≡ true → table.now ≡ next.now }
{
    *table == *next
}

/// Whether each module leads to each. The rounds end with one that changes nothing.
#[tactic(auto, using(crate::proofs::TableLaws::table_steps))]
fn table_of(alloc: Global, callees: &List<List<u32>>) -> Result<Table, Memory>
    requires { length callees.now ≤ most_modules }
    ensures { IfOk result (λ t. t ≡ table_after (length callees.now) callees.now []) }
{
    let mut table = List::new(alloc);
    for _round in 0..callees.len() {
        let next = longer(alloc, &table, callees)?;
        if is_settled(&table, &next) {
            return Ok(next);
        }
        table = next;
    }
    Ok(table)
}

/// Where a module stands in an order; behind all where it does not.
fn rank_in(order: &List<u32>, place: u32) -> usize {
    order
        .as_slice()
        .iter()
        .position(|p| *p == place)
        .unwrap_or(order.len())
}

/// A rank for each module: its place in the order of their calls. Whatever they are, `fall` and `calls_fall` tell whether they show that there is no
/// recursion.
fn ranks_of(alloc: Global, callees: &List<List<u32>>) -> Result<List<usize>, Memory>
    requires { length callees.now ≤ most_modules }
{
    let order = order_of(alloc, callees)?;
    let mut ranks = List::new(alloc);
    for place in 0..callees.len() as u32 {
        ranks.push(rank_in(&order, place))?;
    }
    Ok(ranks)
}

fn rank(ranks: &List<usize>, place: u32) -> usize
    ensures { result ≡ rank ranks.now place }
{
    ranks.get(place as usize).copied().unwrap_or(0)
}

fn are_below(ranks: &List<usize>, limit: usize, places: &List<u32>) -> bool
    ensures { result ≡ are_below ranks.now limit places.now }
{
    places.as_slice().iter().all(|c| rank(ranks, *c) < limit)
}

/// Whether each module calls modules of lower ranks.
fn fall(ranks: &List<usize>, callees: &List<List<u32>>) -> bool
    requires { length callees.now ≤ most_modules }
    ensures { result ≡ fall_from ranks.now 0 callees.now }
{
    let mut place = 0u32;
    let mut rest = callees.as_slice();
    while let [called, more @ ..] = rest {
        if !are_below(ranks, rank(ranks, place), called) {
            return false;
        }
        place += 1;
        rest = more;
    }
    true
}

/// Whether the callees of CALLs have lower ranks.
fn calls_below(ranks: &List<usize>, limit: usize, names: &Names, calls: &Calls) -> bool
    ensures { result ≡ calls_below ranks.now limit names.now calls.now }
{
    let mut rest = calls.as_slice();
    while let [call, more @ ..] = rest {
        if let Some(place) = names.place(&call.callee) {
            if rank(ranks, place) >= limit {
                return false;
            }
        }
        rest = more;
    }
    true
}

/// Whether each CALL leads to a module of a lower rank.
fn calls_fall(ranks: &List<usize>, names: &Names, calls: &List<Calls>) -> bool
    requires { length calls.now ≤ most_modules }
    ensures { result ≡ calls_fall ranks.now 0 names.now calls.now }
{
    let mut place = 0u32;
    let mut rest = calls.as_slice();
    while let [own, more @ ..] = rest {
        if !calls_below(ranks, rank(ranks, place), names, own) {
            return false;
        }
        place += 1;
        rest = more;
    }
    true
}

/// The number of the first CALL whose callee leads to its caller.
fn cyclic_in(table: &Table, names: &Names, caller: u32, calls: &Calls) -> Option<StmtId>
    ensures { result ≡ cyclic_in (λ c. cell table.now c caller) names.now calls.now }
{
    let mut rest = calls.as_slice();
    while let [call, more @ ..] = rest {
        if let Some(place) = names.place(&call.callee) {
            if cell(table, place, caller) {
                return Some(call.at);
            }
        }
        rest = more;
    }
    None
}

/// Recursion at a CALL of a module.
fn cyclic_fault(caller: u32, parsed: &Parsed, at: StmtId) -> Fault
    ensures { result ≡ cyclic_fault caller (parsed_tree parsed.now) at }
{
    let line = call_line(parsed, at);
    Fault::At(caller, line, Code::Recursion)
}

/// The first CALL whose callee leads to its caller.
fn cyclic_from(
    table: &Table,
    names: &Names,
    modules: &List<Parsed>,
    calls: &List<Calls>,
) -> Option<Fault>
    requires { length modules.now ≤ most_modules }
    ensures { result ≡ cyclic_from (cell table.now) 0 (map parsed_tree modules.now) calls.now names.now }
{
    let mut caller = 0u32;
    let mut rest = modules.as_slice();
    let mut others = calls.as_slice();
    while let [parsed, more @ ..] = rest {
        match others {
            [] => return None,
            [own, later @ ..] => {
                if let Some(at) = cyclic_in(table, names, caller, own) {
                    return Some(cyclic_fault(caller, parsed, at));
                }
                others = later;
            }
        }
        caller += 1;
        rest = more;
    }
    None
}

/// The fault of the first CALL that is on a cycle of calls, in the order of the modules and of their texts; None where there is
/// no recursion. `callees` has for each module the places, from 0, of those that it calls. Without recursion the order of the
/// modules shows it. With it, time goes with the square of the number of modules times that of all callees in each round, and
/// there is one round more than the longest chain of calls at most.
pub fn recursion(
    alloc: Global,
    names: &Names,
    modules: &List<Parsed>,
    calls: &List<Calls>,
    callees: &List<List<u32>>,
) -> Result<Option<Fault>, Memory>
    requires few { length modules.now ≤ most_modules }
    requires few_callees { length callees.now ≤ most_modules }
    requires one_each { length calls.now ≡ length callees.now }
    ensures { IfOk result (λ f. f ≡ cyclic_from (reaches callees.now) 0 (map parsed_tree modules.now) calls.now names.now) }
{
    let ranks = ranks_of(alloc, callees)?;
    if fall(&ranks, callees) && calls_fall(&ranks, names, calls) {
        return Ok(None);
    }
    let table = table_of(alloc, callees)?;
    Ok(cyclic_from(&table, names, modules, calls))
}
