//! The laws of programs that are read.
ghost use Rattle.laws_analyses.specs.ScalarLaws.{LogicalsAreTruths, IntegersFit, AcceptedDataStaysInLocals, NamesAgree, MainsAreAlone, ReadMainsHold};

use crate::main_holds;
use f77_meaning::{common_cells_are_alone, linked_have_blocks};
use laws_programs::{
    bodies_are_shaped, cells_are_scalars, data_initialises_scalars, data_stays_in_locals,
    flags_tell_cells, modules_are_read, programs_are_linked,
};

/// The number of a LOGICAL constant is 0 or 1.
pub fn logicals_are_truths()
    ensures { LogicalsAreTruths }
{}

/// That of an INTEGER constant has 32 bits.
pub fn integers_fit()
    ensures { IntegersFit }
{}

/// DATA gives values to units of locals alone, and to none past their ends.
pub fn accepted_data_stays_in_locals()
    ensures { AcceptedDataStaysInLocals }
{
    integers_fit();
    data_stays_in_locals();
}

/// Names stand in runs for what they are taken for in forms, or for functions.
pub fn names_agree()
    ensures { NamesAgree }
{
    logicals_are_truths();
}

/// A main program that calls no module is such as the law on its runs asks.
pub fn mains_are_alone()
    ensures { MainsAreAlone }
{
    names_agree();
    accepted_data_stays_in_locals();
    modules_are_read();
    programs_are_linked();
    bodies_are_shaped();
    flags_tell_cells();
    cells_are_scalars();
    data_initialises_scalars();
    common_cells_are_alone();
    linked_have_blocks();
}

/// In every run of a program whose main program calls no module, up to the first fault: at each arrival of a statement of the main
/// program its precondition holds, and its transformer holds of the arrival and the normal end.
pub fn read_mains_hold()
    ensures { ReadMainsHold }
{
    mains_are_alone();
    main_holds();
}
