//! The reduction variables of a DO.
ghost use Rattle.std.specs.Prelude.{◌≡◌, map, bytes_eq};
ghost use Rattle.std.specs.List.{list_any};
ghost use Rattle.f77_ast.specs.PlainDecl.{module_tree};
ghost use Rattle.f77_ast.specs.PlainStmt.{loop_tree, stmt_trees};
ghost use Rattle.f77_ast.specs.Symbols.{symbol_tree};
ghost use Rattle.loop_marker.specs.Jumps.{body_of};
ghost use Rattle.reductions.specs.Reduced.{is_symbol as is_symbol_is, is_known as is_known_is, has_other_meaning as has_other_meaning_is, by_standing as by_standing_is, symbol_operator as symbol_operator_is, operator_of as operator_of_is, part_of as part_of_is};

use crate::standing::{Standing, standing_in};
use call_graph::View;
use f77_ast::{Loop, Stmt, Symbol, Variable};
use fx_lists::{List, Text};
use loop_marker::is_in_bounds;
use loop_marker::privatizer::may_copy;
use result_lines::{Part, ReduceOp};

/// Whether a symbol has this name.
#[tactic(auto, using(crate::proofs::Steps::lists))]
fn is_symbol(symbols: &[Symbol], word: &[u8]) -> bool
    ensures { result ≡ is_symbol_is (map symbol_tree symbols.now) word.now }
{
    let mut rest = symbols;
    while let [symbol, more @ ..] = rest {
        if word == symbol.name.as_slice() {
            return true;
        }
        rest = more;
    }
    false
}

/// Whether one of these names is the word.
#[tactic(auto, using(crate::proofs::Steps::lists))]
fn is_among(names: &[Text], word: &[u8]) -> bool
    ensures { result ≡ list_any (bytes_eq word.now) names.now }
{
    let mut rest = names;
    while let [name, more @ ..] = rest {
        if word == name.as_slice() {
            return true;
        }
        rest = more;
    }
    false
}

fn is_known(view: &View<'_>, word: &[u8]) -> bool
    ensures { result ≡ is_known_is (map symbol_tree view.now.symbols.now) view.now.graph.now.order word.now }
{
    is_symbol(view.symbols.as_slice(), word) || is_among(view.graph.order.as_slice(), word)
}

/// Whether the word of the operator in a clause is also a symbol of the module or a module of the program: compilers refuse such a clause.
fn has_other_meaning(view: &View<'_>, op: ReduceOp) -> bool
    ensures { result ≡ has_other_meaning_is (map symbol_tree view.now.symbols.now) view.now.graph.now.order op }
{
    match op {
        ReduceOp::Max => is_known(view, b"MAX"),
        ReduceOp::Min => is_known(view, b"MIN"),
        ReduceOp::Sum | ReduceOp::And | ReduceOp::Or => false,
    }
}

fn by_standing(view: &View<'_>, standing: Standing) -> Option<ReduceOp>
    ensures { result ≡ by_standing_is (map symbol_tree view.now.symbols.now) view.now.graph.now.order standing }
{
    match standing {
        Standing::Absent | Standing::Otherwise => None,
        Standing::Accumulated(op) => if has_other_meaning(view, op) {
            None
        } else {
            Some(op)
        },
    }
}

/// The operator by which statements accumulate in a scalar.
fn symbol_operator(view: &View<'_>, body: &List<Stmt>, symbol: &Symbol) -> Option<ReduceOp>
    ensures { result ≡ symbol_operator_is (map symbol_tree view.now.symbols.now) view.now.graph.now.order (stmt_trees body.now) (symbol_tree symbol.now) }
{
    match symbol.bounds.as_slice() {
        [] => by_standing(view, standing_in(view.symbols, symbol, body)),
        [_, ..] => None,
    }
}

/// The operator by which the body of a DO accumulates in a scalar.
fn body_operator(view: &View<'_>, l: &Loop, symbol: &Symbol) -> Option<ReduceOp>
    ensures { result ≡ symbol_operator_is (map symbol_tree view.now.symbols.now) view.now.graph.now.order (body_of (loop_tree l.now)) (symbol_tree symbol.now) }
{
    symbol_operator(view, &l.body, symbol)
}

/// The operator for which a symbol is a reduction variable of a DO: a scalar whose name allows copies, which is not in the first, the last or
/// the step of the DO, and which the body accumulates in by this operator and does not name otherwise.
fn operator_of(view: &View<'_>, l: &Loop, number: u32) -> Option<ReduceOp>
    ensures { result ≡ operator_of_is (module_tree view.now.«module».now) (map symbol_tree view.now.symbols.now) view.now.graph.now.order (loop_tree l.now) number }
{
    let v = Variable::Own(number);
    if !may_copy(view, &v) || is_in_bounds(view.symbols, l, &v) {
        return None;
    }
    match view.symbols.symbol(number) {
        None => None,
        Some(symbol) => body_operator(view, l, symbol),
    }
}

/// The reduction variable that a variable is.
pub fn part_of(view: &View<'_>, l: &Loop, v: &Variable) -> Option<Part>
    ensures { result ≡ part_of_is (module_tree view.now.«module».now) (map symbol_tree view.now.symbols.now) view.now.graph.now.order (loop_tree l.now) v.now }
{
    match v {
        Variable::Own(number) => match operator_of(view, l, *number) {
            None => None,
            Some(op) => Some(Part { cell: *number, op }),
        },
        Variable::Block(_) | Variable::Saved(..) => None,
    }
}
