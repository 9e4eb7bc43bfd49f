//! The laws of effects above runs.
ghost use Rattle.laws_programs.specs.Effects.Laws.{AllEffectsHold, EffectsAreOfRuns};
ghost use Rattle.laws_programs.specs.Effects.Summaries.{SummariesAreMade};

/// Of modules that link, with summaries that are made of what each module calls: every visible unit that an execution reads or
/// writes is a unit of a variable that its effects name, and its input, output and STOP are announced, in every run.
pub fn effects_are_of_runs()
    ensures { EffectsAreOfRuns }
{}

/// Where numbers stand once in a module, that holds of whatever its results give a statement at its number.
pub fn all_effects_hold()
    ensures { AllEffectsHold }
{}

/// Summaries that are made bottom-up, in the order of the graph of modules that link, are there where a module calls another.
pub fn summaries_are_made()
    ensures { SummariesAreMade }
{}
