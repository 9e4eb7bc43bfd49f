//! Laws of the owners of units.
ghost use Rattle.laws_programs.specs.Storage.OwnerLaws.{BelowIsOwned, CalledOwnsBelow, CalledOwnsNoExpression, ExpressionsAreBelow, OwnedIsInNoBlock, OwnedIsPrivate, VariablesAreHidden, VariablesLie};

/// What is below a module is owned by it.
pub fn below_is_owned()
    ensures { BelowIsOwned }
{}

/// What a called module owns is below its caller.
pub fn called_owns_below()
    ensures { CalledOwnsBelow }
{}

/// And is no unit of an expression of the caller.
pub fn called_owns_no_expression()
    ensures { CalledOwnsNoExpression }
{}

/// The unit of an expression at a CALL is below its module.
pub fn expressions_are_below()
    ensures { ExpressionsAreBelow }
{}

/// What belongs to modules lies in no block.
pub fn owned_is_in_no_block()
    ensures { OwnedIsInNoBlock }
{}

/// And is no unit of COMMON.
pub fn owned_is_private()
    ensures { OwnedIsPrivate }
{}

/// A variable that is no dummy has no unit below its module.
pub fn variables_are_hidden()
    ensures { VariablesAreHidden }
{}

/// Each of its units is one of COMMON, or its module's.
pub fn variables_lie()
    ensures { VariablesLie }
{}
