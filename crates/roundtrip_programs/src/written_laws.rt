//! Laws of written texts.
ghost use Rattle.roundtrip_programs.specs.Written.Laws.{MovedAreWrittenAlike, PiecesHaveTheSameTrees, JoinedHaveTheSameTrees, PiecesAreWrittenAlike, JoinedAreWrittenAlike};

use crate::pieces_are_modules;

/// The written text of a module does not depend on the lines of its statements.
pub fn moved_are_written_alike()
    ensures { MovedAreWrittenAlike }
{}

/// The pieces of a text, each read by itself, have the trees of the modules of the text.
pub fn pieces_have_the_same_trees()
    ensures { PiecesHaveTheSameTrees }
{
    pieces_are_modules();
}

/// Joined texts have the trees of the modules of each.
pub fn joined_have_the_same_trees()
    ensures { JoinedHaveTheSameTrees }
{}

/// The pieces of a text, each read by itself, are written as the modules of the text.
pub fn pieces_are_written_alike()
    ensures { PiecesAreWrittenAlike }
{
    pieces_are_modules();
}

/// Joined texts are written as the modules of each.
pub fn joined_are_written_alike()
    ensures { JoinedAreWrittenAlike }
{}
