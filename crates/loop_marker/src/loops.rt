//! The marks of the DO statements of a module.
ghost use Rattle.std.specs.Prelude.{◌≡◌, [], ◌++◌, map, IfOk, OnOk};
ghost use Rattle.f77_ast.specs.PlainStmt.{stmt_tree, stmt_trees, loop_tree, arm_trees};
ghost use Rattle.f77_ast.specs.Shapes.{walk_stmt, walk_list, walk_arms};
ghost use Rattle.dependence_test.specs.Given.{AnalysisFits, BodyFits};
ghost use Rattle.privatizer.specs.Views.{UsesFit, uses_tree};
ghost use Rattle.loop_marker.specs.Known.{known_module};
ghost use Rattle.loop_marker.specs.Marks.{index_is_bad as index_is_bad_is, marked as marked_is, with_own as with_own_is, by_variables as by_variables_is, by_index as by_index_is, by_step as by_step_is, by_io as by_io_is, mark_of as mark_of_is, the_marks, marks_of, verdict_of as verdict_of_is};

use crate::jumps::{may_have_io, may_jump};
use crate::names::is_in_bounds;
use crate::variables::{inner_in, is_of_some, written_in};
use crate::verdict::{Looked, Verdict, verdict_of};
use dependence_test::{Analysis, body_of};
use f77_ast::{
    Arm, At, Loop, Mark, Reason, Shape, Stmt, StmtId, Symbols, Variable, copy_variable, shape_of,
    union,
};
use fx_lists::List;
use privatizer::{may_copy, uses_of};
use std::alloc::{AllocError as Memory, Global};

/// Whether iterations may not have their own variable of the DO, or it is needed afterwards.
fn index_is_bad(a: &Analysis<'_>, looked: &Looked<'_>) -> bool
    ensures { result ≡ index_is_bad_is (known_module a.now) looked.now.body (uses_tree looked.now.uses) (loop_tree looked.now.the_loop.now) }
{
    let index = Variable::Own(looked.body.index);
    !may_copy(a.view, &index)
        || is_of_some(&index, looked.uses.outs)
        || is_in_bounds(a.view.symbols, looked.the_loop, &index)
}

fn push_own(numbers: &mut List<u32>, v: &Variable) -> Result<(), Memory>
    ensures { OnOk result (numbers.new ≡ with_own_is numbers.old v.now) }
{
    match v {
        Variable::Own(number) => numbers.push(*number),
        Variable::Block(_) | Variable::Saved(..) => Ok(()),
    }
}

/// The first of the variables that is an obstacle, else those of which iterations have copies.
#[tactic(auto, using(crate::proofs::Steps::lists))]
fn marked(
    alloc: Global,
    a: &Analysis<'_>,
    looked: &Looked<'_>,
    variables: &[Variable],
) -> Result<Mark, Memory>
    requires body { BodyFits looked.now.body }
    requires uses { UsesFit looked.now.uses }
    ensures { IfOk result (λ m. m ≡ marked_is (verdict_of_is (known_module a.now) looked.now.body (uses_tree looked.now.uses) (loop_tree looked.now.the_loop.now) looked.now.inner) [] variables.now) }
{
    let mut numbers = List::new(alloc);
    let mut rest = variables;
    while let [v, more @ ..] = rest {
        match verdict_of(alloc, a, looked, v)? {
            Verdict::Free => {}
            Verdict::Copied => push_own(&mut numbers, v)?,
            Verdict::Bad(kinds, private) => {
                return Ok(Mark::Serial(Reason::Carries(copy_variable(v)?, kinds, private)));
            }
        }
        rest = more;
    }
    Ok(Mark::Parallel(numbers))
}

/// The mark of a DO that nothing but its variables stands against.
fn by_variables(alloc: Global, a: &Analysis<'_>, looked: &Looked<'_>) -> Result<Mark, Memory>
    requires body { BodyFits looked.now.body }
    requires uses { UsesFit looked.now.uses }
    ensures { IfOk result (λ m. m ≡ by_variables_is (known_module a.now) looked.now.body (uses_tree looked.now.uses) (loop_tree looked.now.the_loop.now) looked.now.inner) }
{
    let written = written_in(alloc, looked.body.regions.as_slice())?;
    let variables = union(alloc, &looked.inner, &written)?;
    marked(alloc, a, looked, variables.as_slice())
}

fn by_index(alloc: Global, a: &Analysis<'_>, looked: &Looked<'_>) -> Result<Mark, Memory>
    requires body { BodyFits looked.now.body }
    requires uses { UsesFit looked.now.uses }
    ensures { IfOk result (λ m. m ≡ by_index_is (known_module a.now) looked.now.body (uses_tree looked.now.uses) (loop_tree looked.now.the_loop.now) looked.now.inner) }
{
    if index_is_bad(a, looked) {
        return Ok(Mark::Serial(Reason::Index));
    }
    by_variables(alloc, a, looked)
}

fn by_step(alloc: Global, a: &Analysis<'_>, looked: &Looked<'_>) -> Result<Mark, Memory>
    requires body { BodyFits looked.now.body }
    requires uses { UsesFit looked.now.uses }
    ensures { IfOk result (λ m. m ≡ by_step_is (known_module a.now) looked.now.body (uses_tree looked.now.uses) (loop_tree looked.now.the_loop.now) looked.now.inner) }
{
    if looked.body.step.is_none() {
        return Ok(Mark::Serial(Reason::Step));
    }
    by_index(alloc, a, looked)
}

fn by_io(alloc: Global, a: &Analysis<'_>, at: StmtId, l: &Loop) -> Result<Mark, Memory>
    requires { AnalysisFits a.now }
    ensures { IfOk result (λ m. m ≡ by_io_is (known_module a.now) at (loop_tree l.now)) }
{
    if may_have_io(&a.effects.at, l) {
        return Ok(Mark::Serial(Reason::InputOutput));
    }
    let looked = Looked {
        the_loop: l,
        body: body_of(alloc, a, l)?,
        uses: uses_of(alloc, a, at, l)?,
        inner: inner_in(alloc, a.view, l)?,
    };
    by_step(alloc, a, &looked)
}

/// The mark of a DO: the first obstacle, in the order of `Reason`, else the variables of which iterations have copies.
fn mark_of(
    alloc: Global,
    a: &Analysis<'_>,
    at: StmtId,
    label: Option<u32>,
    l: &Loop,
) -> Result<Mark, Memory>
    requires { AnalysisFits a.now }
    ensures { IfOk result (λ m. m ≡ mark_of_is (known_module a.now) at label (loop_tree l.now)) }
{
    if may_jump(alloc, &a.view.module.body, &a.effects.at, label, l)? {
        return Ok(Mark::Serial(Reason::Jump));
    }
    by_io(alloc, a, at, l)
}

/// Adds the marks of the DO statements in a statement.
#[cycle(loops)]
#[tactic(auto, using(crate::proofs::Steps::walks))]
fn push_stmt(
    alloc: Global,
    a: &Analysis<'_>,
    s: &Stmt,
    made: &mut List<At<Mark>>,
) -> Result<(), Memory>
    requires { AnalysisFits a.now }
    ensures { OnOk result (made.new ≡ made.old ++ walk_stmt (the_marks (mark_of_is (known_module a.now))) (stmt_tree s.now)) }
{
    match shape_of(&s.what) {
        Shape::Leaf => Ok(()),
        Shape::Inner(_, inner) => push_stmt(alloc, a, inner, made),
        Shape::Body(l) => {
            let value = mark_of(alloc, a, s.id, s.label, l)?;
            made.push(At { id: s.id, value })?;
            push_list(alloc, a, &l.body, made)
        }
        Shape::Arms(arms, other) => {
            push_arms(alloc, a, arms, made)?;
            match other {
                None => Ok(()),
                Some(body) => push_list(alloc, a, body, made),
            }
        }
    }
}

#[cycle(loops)]
#[tactic(auto, using(crate::proofs::Steps::walks))]
fn push_list(
    alloc: Global,
    a: &Analysis<'_>,
    list: &List<Stmt>,
    made: &mut List<At<Mark>>,
) -> Result<(), Memory>
    requires { AnalysisFits a.now }
    ensures { OnOk result (made.new ≡ made.old ++ walk_list (the_marks (mark_of_is (known_module a.now))) (stmt_trees list.now)) }
{
    for s in list.as_slice() {
        push_stmt(alloc, a, s, made)?;
    }
    Ok(())
}

#[cycle(loops)]
#[tactic(auto, using(crate::proofs::Steps::walks))]
fn push_arms(
    alloc: Global,
    a: &Analysis<'_>,
    arms: &List<Arm>,
    made: &mut List<At<Mark>>,
) -> Result<(), Memory>
    requires { AnalysisFits a.now }
    ensures { OnOk result (made.new ≡ made.old ++ walk_arms (the_marks (mark_of_is (known_module a.now))) (arm_trees arms.now)) }
{
    for arm in arms.as_slice() {
        push_list(alloc, a, &arm.body, made)?;
    }
    Ok(())
}

/// Each DO of the module by its number, in the order of the text, with its mark: `Parallel` with the numbers of the variables of which iterations have copies, ascending, or `Serial`
/// with the first obstacle. The body of a nested loop is looked at once for each DO around it.
pub fn marks(alloc: Global, a: &Analysis<'_>) -> Result<List<At<Mark>>, Memory>
    requires { AnalysisFits a.now }
    ensures { IfOk result (λ ms. ms ≡ marks_of (known_module a.now)) }
{
    let mut made = List::new(alloc);
    push_list(alloc, a, &a.view.module.body, &mut made)?;
    Ok(made)
}
