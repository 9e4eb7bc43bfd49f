//! What is wanted beside a program.
ghost use Rattle.std.specs.Prelude.{◌≡◌};
ghost use Rattle.pips_top.specs.Shown.{is_alone};

use pipsmake_base::result_lines::Show;

/// What is written beside a program.
#[derive(Clone, Copy, PartialEq, Eq)]
pub struct Wanted {
    pub show: Show,
    /// Whether loops with reduction variables run in parallel.
    pub reductions: bool,
    /// Whether references to array elements are judged.
    pub bounds: bool,
}

/// Whether the results of a module alone are shown, without reduction variables and subscript checks.
pub fn is_alone(wanted: Wanted) -> bool
    ensures { result ≡ is_alone wanted }
{
    !wanted.reductions && !wanted.bounds
}
