//! Laws of storage.
ghost use Rattle.laws_programs.specs.Layout.Laws.{AcceptedLayoutsFit, BlocksHaveAChain, ColumnsComeFirst, CommonFollowsTheText, DataFillsInOrder, EndsAreBounded, EquivalencedItemsShare, FirstElementIsFirst, LayoutsAreRefusedWhereNoneFits, OthersBeginUndefined, SharingHasAChain};

/// The element with all lower bounds is the first of its array.
pub fn first_element_is_first()
    ensures { FirstElementIsFirst }
{}

/// Each element but the last has its successor one unit behind it, and the first subscript varies fastest.
pub fn columns_come_first()
    ensures { ColumnsComeFirst }
{}

/// The variables of a COMMON block lie one behind the other, in the order of the text over all statements that name it.
pub fn common_follows_the_text()
    ensures { CommonFollowsTheText }
{}

/// The items of an EQUIVALENCE, names or elements, share their first units.
pub fn equivalenced_items_share()
    ensures { EquivalencedItemsShare }
{}

/// Variables with a common unit are associated by COMMON blocks and EQUIVALENCE groups.
pub fn sharing_has_a_chain()
    ensures { SharingHasAChain }
{}

/// What lies in a COMMON block is a member of it, or is associated with one.
pub fn blocks_have_a_chain()
    ensures { BlocksHaveAChain }
{}

/// Each list of DATA gives its values, with repeat counts written out, to the units of its items in order.
pub fn data_fills_in_order()
    ensures { DataFillsInOrder }
{}

/// Only units that an item of DATA stands for have a value at the start.
pub fn others_begin_undefined()
    ensures { OthersBeginUndefined }
{}

/// Each variable ends at most 2^31-1 units for each symbol of its module behind the first unit of its block or group.
pub fn ends_are_bounded()
    ensures { EndsAreBounded }
{}

/// A module of which nothing else is refused, and that has no table, is refused for its layout (35, 36), and its statements admit none.
pub fn layouts_are_refused_where_none_fits()
    ensures { LayoutsAreRefusedWhereNoneFits }
{}

/// The statements of a module that is not refused admit a layout.
pub fn accepted_layouts_fit()
    ensures { AcceptedLayoutsFit }
{}
