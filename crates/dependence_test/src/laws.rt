//! What is known of conflicts.
ghost use Rattle.dependence_test.specs.Claims.{HasRange};

/// The law that the range of a DO is one of the body that is known of it: what `DoNotMeet` says of a body it says of the iterations of that DO.
pub fn body_has_range()
    ensures { HasRange }
{}
