//! Laws of the rules, and of the walk along them.
ghost use Rattle.pipsmake_rules.specs.Laws.{RulesAreRanked, WalksAreComplete};

/// The law that a need of the own module or of all is of an earlier kind than the result, one of callees or callers of an earlier kind or
/// the same, and that the needs of a kind for itself are of callees alone or of callers alone.
pub fn rules_are_ranked()
    ensures { RulesAreRanked }
{}

/// The law that a walk lists each result once and after its needs, and the one that is asked for as the last, where each callee comes
/// before its callers in the order of the graph.
pub fn walks_are_complete()
    ensures { WalksAreComplete }
{}
