//! Laws of the order of modules.
ghost use Rattle.call_graph.specs.Laws.{OrdersAreBottomUp, OrdersAreWhole, LinkedInOrder};

/// The law that in the order of places each module is new, and comes after all that it calls.
pub fn orders_are_bottom_up()
    ensures { OrdersAreBottomUp }
{}

/// The law that the order has each module, where calls are of modules and none leads back to its caller.
pub fn orders_are_whole()
    ensures { OrdersAreWhole }
{}

/// The law that modules that link are in the order of their graph, each once, after those that they call.
pub fn linked_in_order()
    ensures { LinkedInOrder }
{}
