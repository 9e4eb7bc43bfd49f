//! What affine forms and conditions say of the values of expressions.
ghost use Rattle.affine_forms.specs.Claims.{FormsHold, ConditionsHold};

/// Law of `affine_of`: where an expression is evaluated without a fault, its form has its value at each point that has
/// the values of the analysed scalars.
pub fn forms_hold()
    ensures { FormsHold }
{}

/// Law of `condition_of`: where an expression is evaluated without a fault, the side of its condition for its value
/// holds at each point that has the values of the analysed scalars.
pub fn conditions_hold()
    ensures { ConditionsHold }
{}
