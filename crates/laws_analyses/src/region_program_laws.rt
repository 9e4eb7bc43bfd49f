//! What regions say of the runs of a program.
ghost use Rattle.laws_analyses.specs.Regions.Programs.{ProgramRegionsHold};

use in_out_regions::region_translation::links_hold;

/// In every run of a program, up to its first fault: each unit that an execution of a statement reads, or writes, lies in one of its READ, or WRITE, regions, and at
/// a normal end each element that an exact region describes is in bounds, and is read, or written. CALLs are executed as any statement.
pub fn program_regions_hold()
    ensures { ProgramRegionsHold }
{
    links_hold();
}
