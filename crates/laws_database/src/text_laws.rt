//! Laws of the written text of programs.
ghost use Rattle.laws_database.specs.ProgramTextLaws.{TextsMakeTheProgram, TextsAreWrittenAlike, PiecesAreTheProgram, NamesShowTheText};

use laws_programs::roundtrip_programs::{
    graphs_ignore_places, joined_are_written_alike, joined_have_the_same_trees,
    joined_make_the_program, pieces_are_modules, pieces_are_written_alike,
    pieces_have_the_same_trees, tables_ignore_places,
};

/// Texts of modules that link make a program when they are joined.
pub fn texts_make_the_program()
    ensures { TextsMakeTheProgram }
{
    joined_make_the_program();
}

/// It is written as its modules are, each from its own text.
pub fn texts_are_written_alike()
    ensures { TextsAreWrittenAlike }
{
    joined_have_the_same_trees();
    joined_are_written_alike();
}

/// The pieces of the text of a program are its modules, have its tables and its links, and are written as it is.
pub fn pieces_are_the_program()
    ensures { PiecesAreTheProgram }
{
    tables_ignore_places();
    graphs_ignore_places();
    pieces_are_modules();
    pieces_have_the_same_trees();
    pieces_are_written_alike();
}

/// The texts of modules by their names, one after another, are the text of all.
pub fn names_show_the_text()
    ensures { NamesShowTheText }
{}
