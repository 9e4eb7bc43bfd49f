//! Laws of the grammar.
ghost use Rattle.f77_exprs.specs.Laws.{DepthIsEnough, IsGrammar};

/// A depth past the characters that are left changes nothing.
#[tactic(auto, using(crate::proofs::Depth::depth_is_enough))]
pub fn depth_is_enough()
    ensures { DepthIsEnough }
{}

/// Expressions are what the equations of the grammar say, with no depth in them.
#[tactic(auto, using(crate::proofs::Depth::is_grammar))]
pub fn grammar_has_no_depth()
    ensures { IsGrammar }
{}
