//! Laws of the texts of modules.
ghost use Rattle.roundtrip_programs.specs.Pieces.Laws.{PiecesAreModules};
ghost use Rattle.roundtrip_programs.specs.Pieces.Joined.{JoinedAreRead};
ghost use Rattle.roundtrip_programs.specs.Pieces.Programs.{PiecesMakeTheProgram, JoinedMakeTheProgram};
ghost use Rattle.roundtrip_programs.specs.Pieces.Faults.{FaultsIgnorePlaces};

use crate::{graphs_ignore_places, tables_ignore_places};

/// A text that is read as modules is cut into texts, each of which is read as its module alone.
pub fn pieces_are_modules()
    ensures { PiecesAreModules }
{}

/// Texts that are each read as one module are read as these modules when they are joined.
pub fn joined_are_read()
    ensures { JoinedAreRead }
{}

/// The pieces of the text of a program make a program with the same tables and the same graph.
pub fn pieces_make_the_program()
    ensures { PiecesMakeTheProgram }
{
    tables_ignore_places();
    graphs_ignore_places();
}

/// Texts of modules that make a program make it also when they are joined.
pub fn joined_make_the_program()
    ensures { JoinedMakeTheProgram }
{
    tables_ignore_places();
    graphs_ignore_places();
}

/// Modules that do not link are refused for the same module and the same cause wherever their statements stand.
pub fn faults_ignore_places()
    ensures { FaultsIgnorePlaces }
{}
