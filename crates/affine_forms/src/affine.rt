//! Affine forms.
use affine_systems::Terms;

/// An affine expression: a sum of terms, plus a constant.
#[derive(Clone, PartialEq, Eq, Drop)]
pub struct Affine {
    pub terms: Terms,
    pub constant: i128,
}
