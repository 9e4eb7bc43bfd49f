//! What the rules of transformers keep of the numbers before and after.
ghost use Rattle.transformer_algebra.specs.Laws.{RulesHold, LoopRulesHold};

/// Law of `then`, `one_of`, `iterate`, `test`, `apply` and `without`: where transformers describe the ways between
/// values before and after, so does what is made of them, and what holds before holds after, as they say.
pub fn rules_hold()
    ensures { RulesHold }
{}

/// Law of the rules of a DO with a constant step: its transformer describes the way from its beginning to its end, and
/// the systems of its iterations and of its end hold there, where the transformer of its body describes each execution
/// of the body.
pub fn loop_rules_hold()
    ensures { LoopRulesHold }
{}
