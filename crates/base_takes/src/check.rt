//! Whether what was taken fits the module that it belongs to, and lists of it.
ghost use Rattle.std.specs.Prelude.{◌≡◌, true, IfOk};
ghost use Rattle.base_values.specs.Naming.{Each};

use fx_lists::List;
use std::alloc::{AllocError as Memory, Global};

/// What is looked at within a scope `S` that has the names of a module.
pub trait Check<S> {
    ghost fits: { S → Self → Type 0 };

    /// Whether it fits the module. Where it does not, or may not, that is false.
    fn check(&self, alloc: Global, scope: &S) -> Result<bool, Memory>
        ensures { IfOk result (λ b. b ≡ true → fits scope.now self.now) };
}

fn check_each<S, T: Check<S>>(alloc: Global, scope: &S, items: &[T]) -> Result<bool, Memory>
    ensures { IfOk result (λ b. b ≡ true → Each (T.fits scope.now) items.now) }
{
    let mut rest = items;
    while let [item, more @ ..] = rest {
        let holds = item.check(alloc, scope)?;
        if !holds {
            return Ok(false);
        }
        rest = more;
    }
    Ok(true)
}

/// Whether each of a list fits.
pub fn check_list<S, T: Check<S>>(alloc: Global, scope: &S, list: &List<T>) -> Result<bool, Memory>
    ensures { IfOk result (λ b. b ≡ true → Each (T.fits scope.now) list.now) }
{
    check_each(alloc, scope, list.as_slice())
}
