//! The laws.
ghost use Rattle.laws_marks.specs.Known.{ReductionsSay};
ghost use Rattle.laws_marks.specs.Standings.{LocalsStayApart, StoresStayInRange};

/// A DO that nothing but its variables stands against, and that has reduction variables, has a body that control does not leave but at its end, without STOP, input and output;
/// each variable of a WRITE region of the body is the variable of the DO, or no dependence of it is kept, or iterations have copies of it, or it is one of the reduction
/// variables. Each of these is a scalar in which the body accumulates by its operator and which it does not use otherwise; no two are one, and none has copies otherwise.
pub fn reductions_say()
    ensures { ReductionsSay }
{}

/// In every run of a program that is read, up to its first fault, and at each execution in a module: no other variable of the module reaches the unit of a local that is
/// not saved and that no other one overlaps by the tables.
pub fn locals_stay_apart()
    ensures { LocalsStayApart }
{}

/// The units have numbers of 32 bits alone where an execution begins.
pub fn stores_stay_in_range()
    ensures { StoresStayInRange }
{}
