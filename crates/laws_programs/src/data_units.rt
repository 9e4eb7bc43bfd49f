//! A law of tables of symbols and DATA.
ghost use Rattle.laws_programs.specs.Storage.DataLaws.{DataStaysInLocals};

/// DATA gives values to units of locals alone, and to none past their ends.
pub fn data_stays_in_locals()
    ensures { DataStaysInLocals }
{}
