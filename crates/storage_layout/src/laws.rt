//! What the offset nodes of names keep of COMMON and EQUIVALENCE.
ghost use Rattle.storage_layout.specs.Laws.{EquivalencesCoincide, MembersLieInARow};

/// The law that the members of each COMMON block lie in a row in the order of the text.
pub fn members_lie_in_a_row()
    ensures { MembersLieInARow }
{}

/// The law that the items of each EQUIVALENCE stand for one unit, where none is refused.
pub fn equivalences_coincide()
    ensures { EquivalencesCoincide }
{}
