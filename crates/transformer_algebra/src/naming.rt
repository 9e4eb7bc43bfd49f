//! The replacement of a variable.
ghost use Rattle.std.specs.Prelude.{◌≡◌};
ghost use Rattle.transformer_algebra.specs.Renaming.{renamed_by};

use affine_systems::Var;

/// A variable, `from`, and its replacement, `to`.
#[derive(Clone, Copy, PartialEq, Eq, Debug)]
pub struct Naming {
    pub from: Var,
    pub to: Var,
}

/// The replacement of a variable: that of the first naming of it, or the variable itself where there is none. Linear in
/// the namings.
pub fn replacement(names: &[Naming], v: Var) -> Var
    ensures { result ≡ renamed_by names.now v }
{
    for n in names {
        if v.is_same(n.from) {
            return n.to;
        }
    }
    v
}
