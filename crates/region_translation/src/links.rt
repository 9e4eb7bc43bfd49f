//! Which variables of the callee the elements of a variable of the caller may be, and the equations between the subscripts of both.
ghost use Rattle.std.specs.Prelude.{◌≡◌, ◌++◌, option_map, option_copied, option_to_list, IfOk, IfSome, OnOk};
ghost use Rattle.affine_systems.specs.Given.{IsGiven};
ghost use Rattle.affine_systems.specs.Rows.{AllRows};
ghost use Rattle.f77_ast.specs.Symbols.{symbol_tree};
ghost use Rattle.call_equations.specs.Links.{LinkFits as OuterFits};
ghost use Rattle.call_equations.specs.Sides.{sides_tree};
ghost use Rattle.region_translation.specs.Units.{size_in};
ghost use Rattle.region_translation.specs.Links.{LinkFits, AllLinksFit, same_link as same_link_is, by_row as by_row_is, if_actual, dummy_link, dummy_links, own_links, saved_variable as saved_variable_is, rank_of as rank_of_is, subscripts_of as subscripts_of_is, callee_links as callee_links_is};

use crate::blocks::{push_block, push_own_common};
use crate::names::turned_rows;
use affine_systems::Row;
use call_equations::{CallSides, Link, link_of, rank_of};
use call_graph::Graph;
use call_translation::next_number;
use f77_ast::{Place, Symbol, Variable, same_variable};
use fx_lists::{List, Text};
use std::alloc::{AllocError as Memory, Global};

/// A variable of the callee that may have elements of a variable of the caller.
#[derive(Drop)]
pub struct CalleeLink {
    pub variable: Variable,
    /// Whether the caller's subscripts get names of their own, `Aux(1)` ..; else they are the callee's.
    pub moved: bool,
    /// The equations; `Phi` are the callee's subscripts, `Cell` its analysed scalars, and `Aux(rank + 1 + n)` is the caller's cell with the number
    /// n, where the caller's variable has `rank` subscripts.
    pub rows: List<Row>,
}

/// A variable with the same subscripts in both.
pub fn same_link(alloc: Global, variable: Variable) -> CalleeLink
    ensures defined { result ≡ same_link_is variable }
    ensures fits { LinkFits result }
{
    CalleeLink {
        variable,
        moved: false,
        rows: List::new(alloc),
    }
}

/// The rows of an option.
#[tactic(auto, using(crate::proofs::CalleeSteps::rows))]
fn rows_of(alloc: Global, row: Option<Row>) -> Result<List<Row>, Memory>
    requires { IfSome row IsGiven }
    ensures defined { IfOk result (λ rs. rs ≡ option_to_list row) }
    ensures fits { IfOk result (AllRows IsGiven) }
{
    let mut rows = List::new(alloc);
    match row {
        None => Ok(rows),
        Some(row) => {
            rows.push(row)?;
            Ok(rows)
        }
    }
}

/// Elements at which a row holds; any, where there is none.
pub fn by_row(alloc: Global, variable: Variable, row: Option<Row>) -> Result<CalleeLink, Memory>
    requires { IfSome row IsGiven }
    ensures defined { IfOk result (λ l. l ≡ by_row_is variable row) }
    ensures fits { IfOk result LinkFits }
{
    Ok(CalleeLink {
        variable,
        moved: true,
        rows: rows_of(alloc, row)?,
    })
}

/// Adds a dummy, where its actual, if any, names the variable.
#[tactic(auto, using(crate::proofs::CalleeSteps::links))]
fn push_actual(
    alloc: Global,
    out: &mut Vec<CalleeLink>,
    v: &Variable,
    rank: u32,
    number: u32,
    actual: Option<Link>,
) -> Result<(), Memory>
    requires out { AllLinksFit out.old.items }
    requires actual { IfSome actual OuterFits }
    ensures added { OnOk result (out.new.items ≡ out.old.items ++ if_actual v.now rank number actual) }
    ensures fits { OnOk result (AllLinksFit out.new.items) }
{
    match actual {
        None => Ok(()),
        Some(link) => {
            if !same_variable(v, &link.variable) {
                return Ok(());
            }
            let rows = turned_rows(alloc, link.rank, rank, link.rows.as_slice())?;
            out.push(CalleeLink {
                variable: Variable::Own(number),
                moved: true,
                rows: List::from_vec(rows),
            })?;
            Ok(())
        }
    }
}

/// Adds a symbol of the callee, where it is a dummy whose actual names the variable.
#[tactic(auto, using(crate::proofs::CalleeSteps::links))]
fn push_dummy(
    alloc: Global,
    out: &mut Vec<CalleeLink>,
    sides: &CallSides<'_>,
    v: &Variable,
    rank: u32,
    number: u32,
    place: &Place,
) -> Result<(), Memory>
    requires { AllLinksFit out.old.items }
    ensures added { OnOk result (out.new.items ≡ out.old.items ++ dummy_link (sides_tree sides.now) v.now rank number place.now) }
    ensures fits { OnOk result (AllLinksFit out.new.items) }
{
    match place {
        Place::Dummy(_) => {
            let actual = link_of(alloc, sides, &Variable::Own(number))?;
            push_actual(alloc, out, v, rank, number, actual)
        }
        Place::Local(..) | Place::Block(..) | Place::Constant(_) => Ok(()),
    }
}

/// Adds the dummies whose actuals name the variable.
#[tactic(auto, using(crate::proofs::CalleeSteps::links))]
fn push_dummies(
    alloc: Global,
    out: &mut Vec<CalleeLink>,
    sides: &CallSides<'_>,
    v: &Variable,
    rank: u32,
) -> Result<(), Memory>
    requires { AllLinksFit out.old.items }
    ensures added { OnOk result (out.new.items ≡ out.old.items ++ dummy_links (sides_tree sides.now) v.now rank 0 (sides_tree sides.now).callee.symbols) }
    ensures fits { OnOk result (AllLinksFit out.new.items) }
{
    let mut number = 0u32;
    let mut rest = sides.callee.symbols.as_slice();
    while let [symbol, more @ ..] = rest {
        number = next_number(number)?;
        push_dummy(alloc, out, sides, v, rank, number, &symbol.place)?;
        rest = more;
    }
    Ok(())
}

/// Adds what a variable with a symbol is.
#[tactic(auto, using(crate::proofs::CalleeSteps::links))]
fn push_own(
    alloc: Global,
    out: &mut Vec<CalleeLink>,
    sides: &CallSides<'_>,
    number: u32,
    symbol: Option<&Symbol>,
) -> Result<(), Memory>
    requires { AllLinksFit out.old.items }
    ensures added { OnOk result (out.new.items ≡ out.old.items ++ own_links (sides_tree sides.now) number (option_map symbol_tree (option_copied symbol.entry))) }
    ensures fits { OnOk result (AllLinksFit out.new.items) }
{
    match symbol {
        None => Ok(()),
        Some(symbol) => {
            let v = Variable::Own(number);
            let rank = rank_of(symbol.bounds.as_slice())?;
            push_dummies(alloc, out, sides, &v, rank)?;
            push_own_common(alloc, out, sides, &v, symbol)
        }
    }
}

/// A saved local; a symbol of the callee, where it is one of that.
fn saved_variable(sides: &CallSides<'_>, module: &Text, name: &Text) -> Result<Variable, Memory>
    ensures { IfOk result (λ v. v ≡ saved_variable_is (sides_tree sides.now) module.now name.now) }
{
    if *module == *sides.name {
        match sides.callee.symbols.number(name) {
            None => Ok(Variable::Saved(module.clone()?, name.clone()?)),
            Some(number) => Ok(Variable::Own(number)),
        }
    } else {
        Ok(Variable::Saved(module.clone()?, name.clone()?))
    }
}

fn rank_in(symbol: Option<&Symbol>) -> Result<u32, Memory>
    ensures { IfOk result (λ n. n ≡ rank_of_is (option_map symbol_tree (option_copied symbol.entry))) }
{
    match symbol {
        None => Ok(0),
        Some(symbol) => rank_of(symbol.bounds.as_slice()),
    }
}

/// How many subscripts a variable of the caller has.
pub fn subscripts_of(sides: &CallSides<'_>, v: &Variable) -> Result<u32, Memory>
    ensures { IfOk result (λ n. n ≡ subscripts_of_is (sides_tree sides.now) v.now) }
{
    match v {
        Variable::Own(number) => rank_in(sides.caller.symbols.symbol(*number)),
        Variable::Block(_) | Variable::Saved(..) => Ok(1),
    }
}

/// The variables of the callee, and the block where it has units that none of them has.
#[tactic(auto, using(crate::proofs::CalleeSteps::links))]
pub fn callee_links(
    alloc: Global,
    graph: &Graph,
    sides: &CallSides<'_>,
    v: &Variable,
) -> Result<Vec<CalleeLink>, Memory>
    ensures defined { IfOk result (λ ls. ls.items ≡ callee_links_is (size_in graph.now.blocks) (sides_tree sides.now) v.now) }
    ensures fits { IfOk result (λ ls. AllLinksFit ls.items) }
{
    let mut out = Vec::new(alloc);
    match v {
        Variable::Own(number) => {
            let symbol = sides.caller.symbols.symbol(*number);
            push_own(alloc, &mut out, sides, *number, symbol)?;
        }
        Variable::Block(block) => push_block(alloc, &mut out, graph, sides, block)?,
        Variable::Saved(module, name) => {
            let own = saved_variable(sides, module, name)?;
            out.push(same_link(alloc, own))?;
        }
    }
    Ok(out)
}
