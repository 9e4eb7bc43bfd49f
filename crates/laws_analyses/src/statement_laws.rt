//! What sets of regions say of runs of statements.
ghost use Rattle.laws_analyses.specs.Regions.StatementLaws.{AssignmentsAreShown, PrintsAreShown, ReadsAreShown, LogicalIfsAreShown};

/// All that an assignment reads and writes lies in its set, also where it faults; where it ends, exact regions are accessed in full.
pub fn assignments_are_shown()
    ensures { AssignmentsAreShown }
{}

/// The same of a PRINT.
pub fn prints_are_shown()
    ensures { PrintsAreShown }
{}

/// The same of a READ, with any number of items.
pub fn reads_are_shown()
    ensures { ReadsAreShown }
{}

/// The same of a logical IF, from its statement.
pub fn logical_ifs_are_shown()
    ensures { LogicalIfsAreShown }
{}
