//! Each result of a module of a program is what its kind makes of results of all modules.
ghost use Rattle.laws_database.specs.ResultLaws.{EntriesHavePasses, ModulesHaveEntries, EntriesAreInGraph, ResultsFollow};

/// The entries have the analyses, the regions, the IN and the OUT regions of all modules, as each pass gives them.
pub fn entries_have_passes()
    ensures { EntriesHavePasses }
{}

/// Each module of a program has one entry, which is found by its name.
pub fn modules_have_entries()
    ensures { ModulesHaveEntries }
{}

/// The entries stand in the order of the graph; its edges have the names in the CALLs of each module, and so the modules that call one.
pub fn entries_are_in_graph()
    ensures { EntriesAreInGraph }
{}

/// Each entry has the results that follow from those of all entries: from the summaries of the modules that its module calls, or from what is known at the CALLs of it.
pub fn results_follow()
    ensures { ResultsFollow }
{}
