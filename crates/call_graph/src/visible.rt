//! Which variables of a module its callers see.
ghost use Rattle.std.specs.Prelude.{◌≡◌, map};
ghost use Rattle.f77_ast.specs.Symbols.{symbol_tree};
ghost use Rattle.call_graph.specs.Visible.{is_local as is_local_is, place_is_visible_to_callers as place_goes_out_is, is_visible_to_callers as goes_out_is};

use f77_ast::{Place, Symbols, Variable};

/// Whether a symbol at this place is a local variable: neither a dummy nor in a block.
pub fn is_local(place: &Place) -> bool
    ensures { result ≡ is_local_is place.now }
{
    match place {
        Place::Local(..) => true,
        Place::Dummy(_) | Place::Block(..) | Place::Constant(_) => false,
    }
}

fn place_is_visible_to_callers(place: &Place, saved: bool) -> bool
    ensures { result ≡ place_goes_out_is place.now saved }
{
    match place {
        Place::Local(..) => saved,
        Place::Dummy(_) | Place::Block(..) => true,
        Place::Constant(_) => false,
    }
}

/// Whether callers see a variable: a dummy, one of a block, or one that is saved (ANSI X3.9-1978, §15.9, §8.3 and §8.9).
pub fn is_visible_to_callers(symbols: &Symbols, v: &Variable) -> bool
    ensures { result ≡ goes_out_is (map symbol_tree symbols.now) v.now }
{
    match v {
        Variable::Own(number) => match symbols.symbol(*number) {
            None => false,
            Some(symbol) => place_is_visible_to_callers(&symbol.place, symbol.saved),
        },
        Variable::Block(_) | Variable::Saved(..) => true,
    }
}
