//! The bounds of the arrays that references name.
ghost use Rattle.std.specs.Prelude.{◌≡◌, map};
ghost use Rattle.f77_ast.specs.Symbols.{bound_tree};
ghost use Rattle.preconditions.specs.call_translation.Scopes.{scope_tree};
ghost use Rattle.bound_check.specs.References.{bounds_of as bounds_of_is, is_array as is_array_is};

use f77_ast::Bound;
use fx_lists::Text;
use preconditions::call_translation::CellScope;

/// The bounds of the array of a name; none of other names, as of intrinsic functions.
#[tactic(auto, using(crate::proofs::Steps::bounds_found))]
pub fn bounds_of<'a>(scope: &CellScope<'a>, name: &Text) -> &'a [Bound]
    ensures { map bound_tree result.now ≡ bounds_of_is (scope_tree scope.now.symbols.now scope.now.tracked.now) name.now }
{
    match scope.symbols.number(name) {
        None => &[],
        Some(number) => match scope.symbols.symbol(number) {
            None => &[],
            Some(symbol) => symbol.bounds.as_slice(),
        },
    }
}

pub fn is_array(scope: &CellScope<'_>, name: &Text) -> bool
    ensures { result ≡ is_array_is (scope_tree scope.now.symbols.now scope.now.tracked.now) name.now }
{
    match bounds_of(scope, name) {
        [] => false,
        [_, ..] => true,
    }
}
