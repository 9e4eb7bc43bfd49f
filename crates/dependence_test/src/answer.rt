//! What is answered.
use affine_systems::System;

/// Whether two iterations of a DO may access one unit so.
#[derive(Drop)]
pub enum Conflict {
    None,
    /// The first system of a pair of regions that is not refuted.
    Kept(System),
}
