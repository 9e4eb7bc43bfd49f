//! What is written of results is read again, and what is read fits.
ghost use Rattle.base_values.specs.Laws.{WrittenIsRead, FitsIsSmall, ReadFits, FitsIsTaken, WrittenIsWhole, WrittenIsFlat};

/// The law that a result which fits its module is read again as itself.
pub fn written_is_read()
    ensures { WrittenIsRead }
{}

/// The law that the numbers of the rows of a result which fits its module are small.
pub fn fits_is_small()
    ensures { FitsIsSmall }
{}

/// The law that a result which is read and small fits its module.
pub fn read_fits()
    ensures { ReadFits }
{}

/// The law that the systems of a result which fits its module are such as analyses take.
pub fn fits_is_taken()
    ensures { FitsIsTaken }
{}

/// The law that what is written of a result has whole numbers alone.
pub fn written_is_whole()
    ensures { WrittenIsWhole }
{}

/// The law that what is written of a result nests at most 12 arrays and objects.
pub fn written_is_flat()
    ensures { WrittenIsFlat }
{}
