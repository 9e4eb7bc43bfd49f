//! Names in expressions.
ghost use Rattle.std.specs.Prelude.{◌≡◌, map};
ghost use Rattle.std.specs.Option.{option_map};
ghost use Rattle.f77_ast.specs.Plain.{expr_tree, expr_trees};
ghost use Rattle.f77_ast.specs.PlainStmt.{loop_tree};
ghost use Rattle.f77_ast.specs.Symbols.{symbol_tree};
ghost use Rattle.loop_marker.specs.Names.{has_name as has_name_is, have_name as have_name_is, step_has_name as step_has_name_is, bounds_have_name as bounds_have_name_is};
ghost use Rattle.loop_marker.specs.Marks.{is_in_bounds as is_in_bounds_is};

use f77_ast::{Expr, Loop, Symbols, Variable};
use fx_lists::{List, Text};

/// Whether a name stands in an expression, of a variable, an array or a function.
#[cycle(names)]
#[tactic(auto, using(f77_ast::proofs::Plainly::expr_calls))]
pub fn has_name(name: &Text, e: &Expr) -> bool
    ensures { result ≡ has_name_is name.now (expr_tree e.now) }
{
    match e {
        Expr::Int(_) | Expr::Log(_) | Expr::Chars(_) => false,
        Expr::Name(x) => name == x,
        Expr::Element(x, es) => name == x || have_name(name, es),
        Expr::Paren(e) | Expr::Unary(_, e) => has_name(name, e),
        Expr::Binary(_, a, b) => has_name(name, a) || has_name(name, b),
    }
}

/// Whether it stands in one of these.
#[cycle(names)]
#[tactic(auto, using(f77_ast::proofs::Plainly::expr_items))]
pub fn have_name(name: &Text, es: &List<Expr>) -> bool
    ensures { result ≡ have_name_is name.now (expr_trees es.now) }
{
    for e in es.as_slice() {
        if has_name(name, e) {
            return true;
        }
    }
    false
}

fn step_has_name(name: &Text, step: &Option<Expr>) -> bool
    ensures { result ≡ step_has_name_is name.now (option_map expr_tree step.now) }
{
    match step {
        None => false,
        Some(e) => has_name(name, e),
    }
}

/// Whether a name stands in the first, the last or the step of a DO (ANSI X3.9-1978, §11.10).
#[tactic(auto, using(crate::proofs::Steps::loops))]
pub fn bounds_have_name(name: &Text, l: &Loop) -> bool
    ensures { result ≡ bounds_have_name_is name.now (loop_tree l.now) }
{
    has_name(name, &l.first) || has_name(name, &l.last) || step_has_name(name, &l.step)
}

/// Whether the name of a variable stands in the first, the last or the step of a DO.
pub fn is_in_bounds(symbols: &Symbols, l: &Loop, v: &Variable) -> bool
    ensures { result ≡ is_in_bounds_is (map symbol_tree symbols.now) (loop_tree l.now) v.now }
{
    match v {
        Variable::Own(number) => match symbols.symbol(*number) {
            None => false,
            Some(symbol) => bounds_have_name(&symbol.name, l),
        },
        Variable::Block(_) | Variable::Saved(..) => false,
    }
}
