//! What is written beside the program.

/// Which results are written.
#[derive(Clone, Copy, PartialEq, Eq)]
pub enum Show {
    /// Directives, obstacles and claims.
    All,
    /// Directives alone.
    Bare,
    /// Directives and obstacles.
    Why,
}
