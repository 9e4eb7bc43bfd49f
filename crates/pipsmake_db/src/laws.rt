//! Laws of the answers of sessions.
ghost use Rattle.pipsmake_db.specs.AnswerLaws.{AnswersAreUnique, TextsStayModules, EachPrintIsTheProgram};
ghost use Rattle.pipsmake_db.specs.SmallSession.{SmallSession};

use laws_database::{names_show_the_text, texts_are_written_alike, texts_make_the_program};
use session_texts::changes_keep_modules;
use session_texts::roundtrip_programs::{pieces_are_modules, tables_ignore_places};

/// Commands have one answer, and lead to one state.
pub fn answers_are_unique()
    ensures { AnswersAreUnique }
{}

/// The texts of a session stay modules of their names, each alone.
pub fn texts_stay_modules()
    ensures { TextsStayModules }
{
    pieces_are_modules();
    tables_ignore_places();
    changes_keep_modules();
}

/// Each `print` that is accepted writes the program that the present texts make, as that program is written alone.
pub fn each_print_is_the_program()
    ensures { EachPrintIsTheProgram }
{
    texts_stay_modules();
    texts_make_the_program();
    texts_are_written_alike();
    names_show_the_text();
}

/// The answer to a small session, byte by byte.
pub fn small_session_is_answered()
    ensures { SmallSession }
{}
