//! What the lowest offset of a group is, what a join does to blocks and to units, and how far groups reach.
ghost use Rattle.storage_data.specs.GroupLaws.{BlocksStay, BlocksTakeGroups, CoincidentUnitsStay, JoinedUnitsCoincide, LowestIsLeast, LowestIsReached};
ghost use Rattle.storage_data.specs.Spans.{JoinsKeepCompact};

/// The law that no variable of a group begins before the group's lowest offset.
pub fn lowest_is_least()
    ensures { LowestIsLeast }
{}

/// The law that some variable of a group begins at the group's lowest offset.
pub fn lowest_is_reached()
    ensures { LowestIsReached }
{}

/// The law that a join moves no variable of a block.
pub fn blocks_stay()
    ensures { BlocksStay }
{}

/// The law that a variable that is in a block after a join was there before, or one of the two joined variables is in that
/// block.
pub fn blocks_take_groups()
    ensures { BlocksTakeGroups }
{}

/// The law that units that are joined without a clash are one.
pub fn joined_units_coincide()
    ensures { JoinedUnitsCoincide }
{}

/// The law that units that are one stay one, whatever is joined.
pub fn coincident_units_stay()
    ensures { CoincidentUnitsStay }
{}

/// The law that joins keep each group within a stretch of as many units as its variables have together, where no joined unit is
/// past the first one after its variable.
pub fn joins_keep_compact()
    ensures { JoinsKeepCompact }
{}
