//! The laws.
ghost use Rattle.laws_marks.specs.DeadLaws.{ReadCopiesLieInOwn, ReadMarkedLoopsAreDead, ReadMarksAreDead, ReadNamesStand, ReadPrivatesAreDead, ReadUnitsStand};
ghost use Rattle.laws_marks.specs.Named.{NamesAreCopied};

use crate::{iterations_are_begun, read_outs_hold};
use in_out_regions::region_translation::links_hold;
use laws_analyses::{
    accepted_data_stays_in_locals, jumps_stay_inside, names_agree, read_analyses_hold,
};

/// In every run of a program that is read, up to its first fault, and at each execution of a DO: a unit of a local, not saved, is visible, and another variable that has
/// it, of which the DO accesses something, overlaps the local by the tables.
pub fn units_stand()
    ensures { ReadUnitsStand }
{
    names_agree();
    accepted_data_stays_in_locals();
    jumps_stay_inside();
    links_hold();
}

/// In every run of a program that is read, unless a fault ends it, and at each execution of a DO: a unit of a variable whose name allows copies that the DO writes, and
/// that the rest of the run reads before it writes it, lies in an OUT region of that variable.
pub fn copies_lie_in_own_regions()
    ensures { ReadCopiesLieInOwn }
{
    units_stand();
    read_outs_hold();
}

/// So where `may_be_private` answers Yes for a variable, no unit of it that the DO writes is read by the rest of the run before it is written there.
pub fn private_units_are_dead()
    ensures { ReadPrivatesAreDead }
{
    copies_lie_in_own_regions();
    read_analyses_hold();
}

/// And so it is of the variable of a DO that is marked as parallel, and of the variables of which the mark says that each iteration has its own.
pub fn marked_names_are_dead()
    ensures { ReadMarksAreDead }
{
    units_stand();
    copies_lie_in_own_regions();
    private_units_are_dead();
}

/// In every run of a program that is read, up to its first fault, and at each execution of a DO that is marked as parallel: a unit in the place of a name of its directive
/// is that of an element of a variable of which each iteration may have its own copy and which no other overlaps, or that of the variable of the DO.
pub fn directive_names_stand()
    ensures { ReadNamesStand }
{
    units_stand();
}

/// So each unit of a name of the directive, other than that of the variable of the DO, is of such a variable in each loop to which the DO comes.
pub fn directive_names_are_copied()
    ensures { NamesAreCopied }
{}

/// And unless a fault ends the run, what comes after such a loop reads neither its variable, nor what some iteration wrote of the names of its directive, before it is
/// written again.
pub fn marked_loops_are_dead()
    ensures { ReadMarkedLoopsAreDead }
{
    directive_names_stand();
    marked_names_are_dead();
    iterations_are_begun();
}
