//! Laws of source texts.
ghost use Rattle.laws_database.specs.Sources.Laws.{AcceptedIsSplit};
ghost use Rattle.laws_database.specs.Sources.Whole.{LinkedAlike, LinkedIsAccepted, TextsBeginAtLines};

use crate::{names_show_the_text, pieces_are_the_program};
use laws_programs::roundtrip_programs::{
    graphs_ignore_places, pieces_are_modules, tables_ignore_places,
};

/// The text of an accepted program is read as its modules, which link as it does and are written as it is.
pub fn accepted_is_split()
    ensures { AcceptedIsSplit }
{
    pieces_are_modules();
    pieces_are_the_program();
    names_show_the_text();
}

/// A source text has the first refusal of the whole text, or its modules have the links of the whole, or what is wrong with those, at the same line.
pub fn linked_alike()
    ensures { LinkedAlike }
{
    pieces_are_modules();
    tables_ignore_places();
    graphs_ignore_places();
}

/// A source text whose modules link is that of a program.
pub fn linked_is_accepted()
    ensures { LinkedIsAccepted }
{
    linked_alike();
}

/// The texts of a source begin at lines that are counted from 1.
pub fn texts_begin_at_lines()
    ensures { TextsBeginAtLines }
{}
