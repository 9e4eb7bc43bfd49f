//! Laws of bases, and of sessions that go on from them.
ghost use Rattle.pipsmake_base.specs.Bases.{BasesAreModules, EmptyIsBase};
ghost use Rattle.pipsmake_base.specs.Current.{FirstIsCurrent, LoadedIsCurrent, MakingStaysCurrent, LosingStaysCurrent, PrintingStaysCurrent, AnswersStayCurrent};

/// Where a session begins, with nothing or with a base, each fresh result is up to date.
pub fn sessions_begin_current()
    ensures first { FirstIsCurrent }
    ensures loaded { LoadedIsCurrent }
{}

/// So it is after results were made.
pub fn making_stays_current()
    ensures made { MakingStaysCurrent }
    ensures lost { LosingStaysCurrent }
    ensures printed { PrintingStaysCurrent }
{}

/// And after the commands of a script.
pub fn answers_stay_current()
    ensures { AnswersStayCurrent }
{}

/// The texts of a base in the grammar are modules of their names, each alone; and the base without modules and results is in the grammar.
pub fn bases_are_modules()
    ensures modules { BasesAreModules }
    ensures empty { EmptyIsBase }
{}
