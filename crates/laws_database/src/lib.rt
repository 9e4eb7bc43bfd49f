//! Each result of a module follows from what its kind needs, and what is made of kept results is what is defined.
#![tactic(auto)]

mod result_determined;
mod result_equations;
mod result_needs;
mod source_laws;
mod text_laws;

ghost use Rattle.laws_database.specs.Laws.{MakingIsDefined, MakingMayStop, ResultsHaveValues, RulesHaveValues, TextsAreShown, TextsMayChange, TextsMayGo, ResultsMayGo, ValuesMayBeSeen, ResultsMayBeKept, NothingStands, LoadedStands, NothingIsGiven, GivenMayBeKept, GivenMayBeSeen, GivenTextsMayStay};
ghost use Rattle.laws_database.specs.Unverified.{RestingStays, LinesMayChange};

use laws_programs::roundtrip_programs::{graphs_ignore_places, tables_ignore_places};
pub use result_determined::{
    effects_are_determined, ins_are_determined, marks_are_determined, outs_are_determined,
    preconditions_are_determined, regions_are_determined, transformers_are_determined,
};
pub use result_equations::{
    entries_are_in_graph, entries_have_passes, modules_have_entries, results_follow,
};
pub use result_needs::{
    callers_have_all_sites, effects_need_callees, ins_need_callees, regions_need_callees,
    transformers_need_callees,
};
pub use source_laws::{accepted_is_split, linked_alike, linked_is_accepted, texts_begin_at_lines};
pub use text_laws::{
    names_show_the_text, pieces_are_the_program, texts_are_written_alike, texts_make_the_program,
};

/// Where kept results stand for a session, just those that are missing or out of date are made, and each one that was asked for is then what it is defined to be for the present texts.
pub fn making_is_defined()
    ensures { MakingIsDefined }
{
    tables_ignore_places();
    graphs_ignore_places();
}

/// The same of the first of these results, where making stops after them.
pub fn making_may_stop()
    ensures { MakingMayStop }
{
    tables_ignore_places();
    graphs_ignore_places();
}

/// A result that can be made has a value.
pub fn results_have_values()
    ensures { ResultsHaveValues }
{}

/// Where the results before it in a walk are kept as they are defined, the rule of a result makes what is defined.
pub fn rules_have_values()
    ensures { RulesHaveValues }
{}

/// Where the printed text of a module and its needs are kept as they are defined, so is the written text with whatever is shown.
pub fn texts_are_shown()
    ensures { TextsAreShown }
{}

/// What was kept still stands where a text is changed or added, and kept as the present one.
pub fn texts_may_change()
    ensures { TextsMayChange }
{}

/// And where texts are taken away.
pub fn texts_may_go()
    ensures { TextsMayGo }
{}

/// And where results are forgotten, for the session in which they were not made.
pub fn results_may_go()
    ensures { ResultsMayGo }
{}

/// And where a value is seen that is not kept.
pub fn values_may_be_seen()
    ensures { ValuesMayBeSeen }
{}

/// And where a result is kept that is what it is defined to be for the present texts.
pub fn results_may_be_kept()
    ensures { ResultsMayBeKept }
{}

/// Where nothing was seen, that stands for the session without texts and results.
pub fn nothing_stands()
    ensures { NothingStands }
{}

/// Stored results that are what they are defined to be stand for the session in which they were made at the present texts.
pub fn loaded_stands()
    ensures { LoadedStands }
{}

/// Where texts alone are kept, each kept result has its value, whatever values there are.
pub fn nothing_is_given()
    ensures { NothingIsGiven }
{}

/// So it is where one more is kept that has its value.
pub fn given_may_be_kept()
    ensures { GivenMayBeKept }
{}

/// And where a value is seen that is not kept.
pub fn given_may_be_seen()
    ensures { GivenMayBeSeen }
{}

/// And where the text of a module is kept again.
pub fn given_texts_may_stay()
    ensures { GivenTextsMayStay }
{}

/// Where stored results of all modules are kept, whatever they are, making what can be made makes none of them anew, and all others of them.
pub fn resting_stays()
    ensures { RestingStays }
{}

/// So it is of the same texts at other lines.
pub fn lines_may_change()
    ensures { LinesMayChange }
{}
