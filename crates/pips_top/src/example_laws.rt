//! What is computed of the small programs.
ghost use Rattle.pips_top.specs.ExampleLaws.{FunctionIsAnalysedSo, FunctionIsPrivateSo, FunctionIsReadSo, ReferencesAreCheckedSo, SumIsReducedSo, TextRunsSo, WrongClaimFails};

/// The bytes of the text are read as its program, whose run comes to its END by the trace that is written.
pub fn text_runs_so()
    ensures { TextRunsSo }
{}

/// That K is 5 where the PRINT begins does not hold of every run: K is 4.
pub fn wrong_claim_fails()
    ensures { WrongClaimFails }
{}

/// The bytes with a function and a DO WHILE are read as their program, which is written as these bytes.
pub fn function_is_read_so()
    ensures { FunctionIsReadSo }
{}

/// Its DO WHILE ends with a number of at least 3, and 3 holds behind it; where the function is entered its argument is 0 to 2.
pub fn function_is_analysed_so()
    ensures { FunctionIsAnalysedSo }
{}

/// A loop that takes a value of a function in each iteration is parallel. The function is private, and is not named in the directive.
pub fn function_is_private_so()
    ensures { FunctionIsPrivateSo }
{}

/// A loop that sums in a variable is written with a REDUCTION clause, and does as the program does in whatever order the copies are combined, also where the sum passes the
/// largest INTEGER on the way.
pub fn sum_is_reduced_so()
    ensures { SumIsReducedSo }
{}

/// Of the references of a statement in a loop, those that stay inside their array stand on a line SAFE, and one that leaves it in the last iteration on a line CHECK.
pub fn references_are_checked_so()
    ensures { ReferencesAreCheckedSo }
{}
