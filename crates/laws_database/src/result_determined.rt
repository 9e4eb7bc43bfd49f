//! In two programs a module whose needs are the same has the same result.
ghost use Rattle.laws_database.specs.ResultLaws.{EffectsAreDetermined, TransformersAreDetermined, PreconditionsAreDetermined, RegionsAreDetermined, InsAreDetermined, OutsAreDetermined, MarksAreDetermined};

/// Effects: from the module, and the symbols and effects of the modules that it calls.
pub fn effects_are_determined()
    ensures { EffectsAreDetermined }
{}

/// Transformers: from the module, and the symbols and transformers of the modules that it calls.
pub fn transformers_are_determined()
    ensures { TransformersAreDetermined }
{}

/// Preconditions: from the module with its transformers, and the modules that call it with their preconditions.
pub fn preconditions_are_determined()
    ensures { PreconditionsAreDetermined }
{}

/// READ and WRITE regions: from the module with its transformers, and the symbols and regions of the modules that it calls.
pub fn regions_are_determined()
    ensures { RegionsAreDetermined }
{}

/// IN regions: from the module with its transformers, READ and WRITE, and the symbols and IN regions of the modules that it calls.
pub fn ins_are_determined()
    ensures { InsAreDetermined }
{}

/// OUT regions: from the module with its transformers, READ, WRITE and IN, and the modules that call it with their transformers and OUT regions.
pub fn outs_are_determined()
    ensures { OutsAreDetermined }
{}

/// Marks: from the module and its other results.
pub fn marks_are_determined()
    ensures { MarksAreDetermined }
{}
