//! What the rules for CALLs and entries keep of the numbers before and after.
ghost use Rattle.laws_analyses.specs.Calls.RuleLaws.{CallRulesHold, EntryRulesHold};

/// Where the transformer of a body describes the way through it, its summary describes that for callers, and the transformer of a CALL
/// describes the way of the CALL.
pub fn call_rules_hold()
    ensures { CallRulesHold }
{}

/// What holds at a CALL holds of what it enters, as the entry of that says, and the entry of the main program holds of the values from DATA.
pub fn entry_rules_hold()
    ensures { EntryRulesHold }
{}
