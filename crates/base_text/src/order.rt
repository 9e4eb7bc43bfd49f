//! The order of results.
ghost use Rattle.std.specs.Prelude.{◌≡◌};
ghost use Rattle.base_text.specs.Order.{module_place as module_place_is, comes_before, in_order_by, result_name, result_kind};

use crate::StoredResult;
use base_values::kind_of;
use fx_lists::Text;
use session_texts::pipsmake_rules::Kind;
use tracked_cells::Names;

/// What has a place among results: by the name of its module and by its kind.
pub trait Placed {
    ghost use Rattle.std.specs.Prelude.{ℕ, List};
    ghost use Rattle.session_texts.specs.pipsmake_rules.declared.kind.Kind.{Kind};

    ghost name_is: { Self → List ℕ };

    ghost kind_is: { Self → Kind };

    /// The name of its module.
    fn name(&self) -> &Text
        ensures { result.now ≡ name_is self.now };

    fn kind(&self) -> Kind
        ensures { result ≡ kind_is self.now };
}

impl Placed for StoredResult {
    ghost name_is = { result_name };

    ghost kind_is = { result_kind };

    fn name(&self) -> &Text {
        &self.name
    }

    fn kind(&self) -> Kind {
        kind_of(&self.value)
    }
}

#[tactic(auto, using(crate::proofs::OrderLaws::place_steps))]
/// The place of the module of a name, from 0; after the last where there is none of this name.
fn module_place(names: &Names, name: &Text) -> usize
    ensures { result ≡ module_place_is names.now name.now }
{
    match names.place(name) {
        Some(place) => place as usize,
        None => names.names().len(),
    }
}

/// Whether something is before another: its module is, or, in the same module, its kind.
fn is_before<T: Placed>(names: &Names, one: &T, other: &T) -> bool
    ensures { result ≡ comes_before names.now (T.name_is one.now) (T.kind_is one.now) (T.name_is other.now) (T.kind_is other.now) }
{
    let first = module_place(names, one.name());
    let second = module_place(names, other.name());
    first < second || (first == second && one.kind().number() < other.kind().number())
}

/// Whether each is before the next.
pub fn are_in_order<T: Placed>(names: &Names, placed: &[T]) -> bool
    ensures { result ≡ in_order_by T.name_is T.kind_is names.now placed.now }
{
    let mut rest = placed;
    while let [first, more @ ..] = rest {
        if let [next, ..] = more {
            if !is_before(names, first, next) {
                return false;
            }
        }
        rest = more;
    }
    true
}
