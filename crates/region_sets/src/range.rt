//! The iterations of a DO.
use affine_forms::Affine;
use transformers::transformer_algebra::Transformer;

/// What a DO is to the regions of its body (ANSI X3.9-1978, §11.10).
#[derive(Drop)]
pub struct Range {
    /// The number of the DO variable, from 1; 0 where no symbol has its name.
    pub index: u32,
    /// The affine expression of the initial parameter; None where it has none.
    pub first: Option<Affine>,
    /// The affine expression of the terminal parameter; None where it has none.
    pub last: Option<Affine>,
    /// The step; None where it is 0 or no constant.
    pub step: Option<i32>,
    /// The transformer of one iteration, with the increment of the DO variable.
    pub turn: Transformer,
}
