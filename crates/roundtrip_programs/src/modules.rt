//! Laws of building a module from what was written of it.
ghost use Rattle.roundtrip_programs.specs.ModuleTexts.ModuleLaws.{BlocksAgain, BuiltAgain, BuiltNested, BuiltWell, CardsRead, ReadAlone, ReadNext, WrittenByCards};

/// The statements that are written of a module make it again.
#[tactic(auto, using(crate::proofs::ModuleTexts::Again::built_again))]
pub fn built_again()
    ensures { BuiltAgain }
{}

/// What is built of statements without a fault is numbered in the order of the text, and its title fits.
pub fn built_well()
    ensures { BuiltWell }
{}

/// In a module that is built of statements without a fault at most 64 blocks stand in one another.
pub fn built_nested()
    ensures { BuiltNested }
{}

/// In what is written of such a module the blocks have no fault.
pub fn blocks_again()
    ensures { BlocksAgain }
{}

/// What is written of a module is formed as what was read of it, and is read as it is written.
pub fn cards_read()
    ensures { CardsRead }
{}

/// The statements that are written of a module are read as one module, which is that one, where no fault is found in them.
pub fn read_alone()
    ensures { ReadAlone }
{}

/// Before others they are read as that module, and then the others are read.
pub fn read_next()
    ensures { ReadNext }
{}

/// The text of a module is that of its statements, each behind its comments and the lines that are added before it.
#[tactic(auto, using(crate::proofs::ModuleTexts::ModulePages::written_by_cards))]
pub fn written_by_cards()
    ensures { WrittenByCards }
{}
