//! Of other modules a result needs those that CALLs name, and those whose CALLs name its own.
ghost use Rattle.laws_database.specs.ResultLaws.{EffectsNeedCallees, TransformersNeedCallees, RegionsNeedCallees, InsNeedCallees, CallersHaveAllSites};

/// The effects of a body need the symbols and the effects of the modules that its CALLs name, and of no others.
pub fn effects_need_callees()
    ensures { EffectsNeedCallees }
{}

/// So its transformers need their symbols and transformers.
pub fn transformers_need_callees()
    ensures { TransformersNeedCallees }
{}

/// Its READ and WRITE regions need theirs.
pub fn regions_need_callees()
    ensures { RegionsNeedCallees }
{}

/// Its IN regions need theirs.
pub fn ins_need_callees()
    ensures { InsNeedCallees }
{}

/// The CALLs of a name in all modules are those in the modules that call it, in the same order.
pub fn callers_have_all_sites()
    ensures { CallersHaveAllSites }
{}
