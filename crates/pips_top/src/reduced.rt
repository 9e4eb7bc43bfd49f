//! The lines of a module whose loops may have reduction variables and whose references may be judged.
ghost use Rattle.std.specs.Prelude.{◌≡◌, IfOk};
ghost use Rattle.pipsmake_base.specs.loop_marker.dependence_test.Given.{AnalysisFits};
ghost use Rattle.pips_top.specs.Reduced.{checks_asked as checks_asked_is, lines_reduced as lines_reduced_is, reductions_asked as reductions_asked_is};

use crate::wanted::Wanted;
use f77_ast::{At, Mark};
use f77_printer::Added;
use fx_lists::List;
use laws_bounds::bound_check::{check_lines, checked};
use pipsmake_base::loop_marker::dependence_test::Analysis;
use pipsmake_base::result_lines::{PrintedResults, Reduction, reduced_lines};
use reductions::reduced;
use std::alloc::{AllocError as Memory, Global};

/// The loops with reduction variables; none where they are not asked for.
fn reductions_asked(
    alloc: Global,
    a: &Analysis<'_>,
    marks: &List<At<Mark>>,
    asked: bool,
) -> Result<List<At<Reduction>>, Memory>
    requires { AnalysisFits a.now }
    ensures { IfOk result (λ found. found ≡ reductions_asked_is asked a.now marks.now) }
{
    if asked {
        reduced(alloc, a, marks)
    } else {
        Ok(List::new(alloc))
    }
}

/// The lines on references; none where they are not asked for.
fn checks_asked(alloc: Global, a: &Analysis<'_>, asked: bool) -> Result<List<Added>, Memory>
    requires { AnalysisFits a.now }
    ensures { IfOk result (λ lines. lines ≡ checks_asked_is asked a.now) }
{
    if asked {
        let found = checked(alloc, a)?;
        check_lines(alloc, &found)
    } else {
        Ok(List::new(alloc))
    }
}

/// The comment lines that are wanted beside a module, with the directives of its loops with reduction variables and the lines on its references
/// where these are wanted.
pub fn lines_reduced(
    alloc: Global,
    a: &Analysis<'_>,
    marks: &List<At<Mark>>,
    wanted: Wanted,
) -> Result<List<Added>, Memory>
    requires { AnalysisFits a.now }
    ensures { IfOk result (λ lines. lines ≡ lines_reduced_is wanted a.now marks.now) }
{
    let found = reductions_asked(alloc, a, marks, wanted.reductions)?;
    let checks = checks_asked(alloc, a, wanted.bounds)?;
    let printed = PrintedResults {
        transformers: a.transformers,
        preconditions: a.preconditions,
        regions: a.regions,
        ins: a.ins,
        outs: a.outs,
        marks,
    };
    reduced_lines(alloc, a.view, &printed, wanted.show, &found, checks)
}
