//! Where GO TOs lead.
ghost use Rattle.laws_analyses.specs.JumpLaws.{JumpsStayInside};

/// Every GO TO of a module that is read leads to a label of a list of statements around it.
pub fn jumps_stay_inside()
    ensures { JumpsStayInside }
{}
