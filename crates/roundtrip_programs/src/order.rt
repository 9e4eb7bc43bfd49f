//! The law of the order of what was written of a module.
ghost use Rattle.roundtrip_programs.specs.ModuleTexts.OrderLaws.{OrderAgain};

/// The statements that are written of a module without a fault have none of order, number or labels.
pub fn order_again()
    ensures { OrderAgain }
{}
