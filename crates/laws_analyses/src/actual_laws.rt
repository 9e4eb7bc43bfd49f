//! What is known where the actuals of a CALL were evaluated.
ghost use Rattle.laws_analyses.specs.Calls.ActualLaws.{ActualsOffer, DummiesBegin};

/// Actuals that are evaluated without a fault change units of expressions alone, and offer variables, parts of them, or values in such units.
pub fn actuals_offer()
    ensures { ActualsOffer }
{}

/// Dummies that are bound to what the actuals offer begin with the values of these, as far as they have forms, and are the cells that they name.
pub fn dummies_begin()
    ensures { DummiesBegin }
{}
