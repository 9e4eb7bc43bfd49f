//! What is written of a base is read again, and what is read is in the grammar.
ghost use Rattle.base_text.specs.Laws.{WrittenIsRead, ReadIsInGrammar};

/// The law that what is written of a base in the grammar is read as this base.
pub fn written_is_read()
    ensures { WrittenIsRead }
{}

/// The law that a base which is read is in the grammar.
pub fn read_is_in_grammar()
    ensures { ReadIsInGrammar }
{}
