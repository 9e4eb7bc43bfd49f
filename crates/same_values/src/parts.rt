//! Equality of lists whose elements are compared by tests of their own.
ghost use Rattle.std.specs.Prelude.{◌≡◌};
ghost use Rattle.std.specs.Cmp.Lexicographic.{pointwise};

use fx_lists::List;

/// A part of a statement that is compared as it is written.
pub trait Part {
    ghost use Rattle.std.specs.Prelude.{Bool};

    ghost same: { Self → Self → Bool };

    /// Whether two parts are written alike. Takes no memory.
    fn is_same(&self, other: &Self) -> bool
        ensures { result ≡ same self.now other.now };
}

/// Whether two lists have the same parts in the same order.
pub fn same_parts<T: Part>(a: &List<T>, b: &List<T>) -> bool
    ensures { result ≡ pointwise T.same a.now b.now }
{
    let mut left = a.as_slice();
    let mut right = b.as_slice();
    while let [one, more @ ..] = left {
        let [other, others @ ..] = right else {
            return false;
        };
        if !one.is_same(other) {
            return false;
        }
        left = more;
        right = others;
    }
    right.is_empty()
}

impl<T: Part> Part for List<T> {
    ghost use Rattle.std.specs.Cmp.Lexicographic.{pointwise};

    ghost same = { pointwise T.same };

    fn is_same(&self, other: &List<T>) -> bool {
        same_parts(self, other)
    }
}
