//! The laws of programs that are read.
ghost use Rattle.laws_programs.specs.Laws.{AllAreOfPrograms, EffectsAreOfPrograms, ModulesAreRead, NumbersGoUp, NumbersStandOnce, ProgramsAreLinked};

use crate::{all_effects_hold, effects_are_of_runs, summaries_are_made};

/// Of modules that are read, with their tables: the dummies come first in the table, a main program has none, bounds name scalars
/// alone, arrays stand in statements as they may, statements are numbered from 1, and names have no `:` and no `/`.
pub fn modules_are_read()
    ensures { ModulesAreRead }
{}

/// The executable statements of a module have the numbers 1, 2, 3 and so on, in the order of the text, and hidden statements those from
/// 4097 on.
pub fn numbers_go_up()
    ensures { NumbersGoUp }
{}

/// No number stands twice in a module.
pub fn numbers_stand_once()
    ensures { NumbersStandOnce }
{}

/// Programs that are read are linked, and each table is that of its module, as laws on cells and CALLs ask.
pub fn programs_are_linked()
    ensures { ProgramsAreLinked }
{}

/// In every run of a program that is read each execution has effects that its module's results give it, and that hold.
pub fn effects_are_of_programs()
    ensures { EffectsAreOfPrograms }
{
    effects_are_of_runs();
    summaries_are_made();
}

/// Whatever effects the results of modules give an execution hold of it.
pub fn all_are_of_programs()
    ensures { AllAreOfPrograms }
{
    all_effects_hold();
    summaries_are_made();
}
