//! Laws of how deep the parentheses stand in what was written.
ghost use Rattle.roundtrip_programs.specs.ModuleTexts.DepthLaws.{CardsFlat, NotDeeper};

/// In the text of a statement that was read the parentheses stand no deeper than in what was read.
#[tactic(auto, using(crate::proofs::ModuleTexts::Phrases::not_deeper))]
pub fn not_deeper()
    ensures { NotDeeper }
{}

/// Nor do they in the statements that are written of a module.
#[tactic(auto, using(crate::proofs::ModuleTexts::Cards::cards_flat))]
pub fn cards_flat()
    ensures { CardsFlat }
{}
