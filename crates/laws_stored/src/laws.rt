//! The laws of the results of programs as they are stored.
ghost use Rattle.laws_stored.specs.Laws.{DefinedResultsAreReadAgain, DefinedResultsFit, ShortTextsAreCounted, TablesHaveNames};

use base_values::{fits_is_small, written_is_read};

/// The symbols of a module with a text of at most 16,777,216 bytes have numbers below 2^32: they are no more than the characters of its
/// statements.
pub fn short_texts_are_counted()
    ensures { ShortTextsAreCounted }
{}

/// The symbols of a module that was read have names, each a letter and then letters, digits and `_`, none twice.
pub fn tables_have_names()
    ensures { TablesHaveNames }
{}

/// Each result of a module of a kind that is stored fits it: it is of just the statements of the module, or of its loops, in their order; and it
/// names what is there.
pub fn defined_results_fit()
    ensures { DefinedResultsFit }
{}

/// Its written value is read again as itself for the module, and its numbers are small.
pub fn defined_results_are_read_again()
    ensures { DefinedResultsAreReadAgain }
{
    written_is_read();
    fits_is_small();
}
