//! The loops of a module that run in parallel with reduction variables.
ghost use Rattle.std.specs.Prelude.{◌≡◌, ◌++◌, [], IfOk, OnOk};
ghost use Rattle.f77_ast.specs.PlainStmt.{loop_tree};
ghost use Rattle.loop_marker.specs.dependence_test.Given.{AnalysisFits, BodyFits};
ghost use Rattle.loop_marker.specs.privatizer.Views.{UsesFit, uses_tree};
ghost use Rattle.loop_marker.specs.Known.{known_module};
ghost use Rattle.loop_marker.specs.Marks.{verdict_of as verdict_of_is, with_own};
ghost use Rattle.reductions.specs.Reduced.{reduction_with as reduction_with_is, reduction_from, reduction_of as reduction_of_is, is_carried as is_carried_is, found_at, reduced_of};

use crate::variable::part_of;
use f77_ast::{At, Loop, Mark, Reason, StmtId, Variable, union};
use fx_lists::List;
use loop_marker::dependence_test::{Analysis, body_of, loop_in};
use loop_marker::privatizer::uses_of;
use loop_marker::{Looked, Verdict, inner_in, verdict_of, written_in};
use result_lines::{Part, Reduction};
use std::alloc::{AllocError as Memory, Global};

fn push_own(numbers: &mut List<u32>, v: &Variable) -> Result<(), Memory>
    ensures { OnOk result (numbers.new ≡ with_own numbers.old v.now) }
{
    match v {
        Variable::Own(number) => numbers.push(*number),
        Variable::Block(_) | Variable::Saved(..) => Ok(()),
    }
}

/// None without a reduction variable.
fn reduction_with(private: List<u32>, parts: List<Part>) -> Option<Reduction>
    ensures { result ≡ reduction_with_is private parts }
{
    if parts.is_empty() {
        return None;
    }
    Some(Reduction { private, parts })
}

/// Of the variables of a DO: those of which iterations have copies, and the reduction variables; None where another one is an obstacle.
#[tactic(auto, using(crate::proofs::Steps::lists))]
fn by_variables(
    alloc: Global,
    a: &Analysis<'_>,
    looked: &Looked<'_>,
    variables: &[Variable],
) -> Result<Option<Reduction>, Memory>
    requires body { BodyFits looked.now.body }
    requires uses { UsesFit looked.now.uses }
    ensures { IfOk result (λ r. r ≡ reduction_from (known_module a.now) a.now.view.now.graph.now.order (loop_tree looked.now.the_loop.now) (verdict_of_is (known_module a.now) looked.now.body (uses_tree looked.now.uses) (loop_tree looked.now.the_loop.now) looked.now.inner) [] [] variables.now) }
{
    let mut private = List::new(alloc);
    let mut parts = List::new(alloc);
    let mut rest = variables;
    while let [v, more @ ..] = rest {
        match verdict_of(alloc, a, looked, v)? {
            Verdict::Free => {}
            Verdict::Copied => push_own(&mut private, v)?,
            Verdict::Bad(_, _) => match part_of(a.view, looked.the_loop, v) {
                None => return Ok(None),
                Some(part) => parts.push(part)?,
            },
        }
        rest = more;
    }
    Ok(reduction_with(private, parts))
}

/// What the directive of the DO `l` says, whose statement has the number `at`; None where a variable stands against it that is no reduction
/// variable.
fn reduction_of(
    alloc: Global,
    a: &Analysis<'_>,
    at: StmtId,
    l: &Loop,
) -> Result<Option<Reduction>, Memory>
    requires { AnalysisFits a.now }
    ensures { IfOk result (λ r. r ≡ reduction_of_is (known_module a.now) a.now.view.now.graph.now.order at (loop_tree l.now)) }
{
    let looked = Looked {
        the_loop: l,
        body: body_of(alloc, a, l)?,
        uses: uses_of(alloc, a, at, l)?,
        inner: inner_in(alloc, a.view, l)?,
    };
    let written = written_in(alloc, looked.body.regions.as_slice())?;
    let variables = union(alloc, &looked.inner, &written)?;
    by_variables(alloc, a, &looked, variables.as_slice())
}

/// Whether a variable is the obstacle.
fn is_carried(mark: &Mark) -> bool
    ensures { result ≡ is_carried_is mark.now }
{
    match mark {
        Mark::Parallel(_) => false,
        Mark::Serial(reason) => match reason {
            Reason::Carries(..) => true,
            Reason::Jump | Reason::InputOutput | Reason::Step | Reason::Index => false,
        },
    }
}

/// Adds what is found of the DO with a mark.
fn push_found(
    alloc: Global,
    a: &Analysis<'_>,
    mark: &At<Mark>,
    found: &mut List<At<Reduction>>,
) -> Result<(), Memory>
    requires { AnalysisFits a.now }
    ensures { OnOk result (found.new ≡ found.old ++ found_at (known_module a.now) a.now.view.now.graph.now.order mark.now) }
{
    if !is_carried(&mark.value) {
        return Ok(());
    }
    let Some(l) = loop_in(mark.id, &a.view.module.body) else {
        return Ok(());
    };
    match reduction_of(alloc, a, mark.id, l)? {
        None => Ok(()),
        Some(value) => found.push(At { id: mark.id, value }),
    }
}

/// The DO statements of a module that run in parallel with reduction variables, by their numbers, in the order of the marks: those whose obstacle
/// is a variable, where each variable that is an obstacle is a reduction variable.
#[tactic(auto, using(crate::proofs::Steps::lists))]
pub fn reduced(
    alloc: Global,
    a: &Analysis<'_>,
    marks: &List<At<Mark>>,
) -> Result<List<At<Reduction>>, Memory>
    requires { AnalysisFits a.now }
    ensures { IfOk result (λ rs. rs ≡ reduced_of (known_module a.now) a.now.view.now.graph.now.order marks.now) }
{
    let mut found = List::new(alloc);
    let mut rest = marks.as_slice();
    while let [mark, more @ ..] = rest {
        push_found(alloc, a, mark, &mut found)?;
        rest = more;
    }
    Ok(found)
}
