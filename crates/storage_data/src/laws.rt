//! Elements of arrays are numbered in column order (ANSI X3.9-1978 §5.2.4).
ghost use Rattle.storage_data.specs.Laws.{FirstElementHasNumberZero, NextElementHasNextNumber};

/// The law that the element with all lower bounds has number 0.
pub fn first_element_has_number_zero()
    ensures { FirstElementHasNumberZero }
{}

/// The law that each other element has the number after that of the one before it, where the first subscript varies fastest.
pub fn next_element_has_next_number()
    ensures { NextElementHasNextNumber }
{}
