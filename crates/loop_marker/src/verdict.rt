//! What stands against the iterations of a DO by one of its variables.
ghost use Rattle.std.specs.Prelude.{◌≡◌, ◌||◌, ◌++◌, [], map, IfOk, OnOk};
ghost use Rattle.f77_ast.specs.PlainStmt.{loop_tree};
ghost use Rattle.f77_ast.specs.Symbols.{symbol_tree};
ghost use Rattle.dependence_test.specs.Given.{AnalysisFits, BodyFits};
ghost use Rattle.privatizer.specs.Views.{UsesFit, uses_tree};
ghost use Rattle.loop_marker.specs.Known.{known_module};
ghost use Rattle.loop_marker.specs.Marks.{keeps as keeps_is, kept_kinds as kept_kinds_is, kinds_of as kinds_of_is, is_in_bounds as is_in_bounds_is, is_other_result as is_other_result_is, copy_answer as copy_answer_is, by_kinds as by_kinds_is, by_answer as by_answer_is, verdict_of as verdict_of_is, with_kind, or_of_index as or_of_index_is};

use crate::functions::is_other_result;
use crate::names::is_in_bounds;
use crate::variables::is_among;
use dependence_test::{Analysis, Conflict, LoopBody, conflict_of};
use f77_ast::{Kinds, Loop, Private, Symbols, Variable, same_variable};
use fx_lists::List;
use privatizer::{Uses, private_of};
use std::alloc::{AllocError as Memory, Global};

/// What is known of a DO, and of those in its body.
#[derive(Drop)]
pub struct Looked<'a> {
    pub the_loop: &'a Loop,
    pub body: LoopBody,
    pub uses: Uses<'a>,
    /// The variables of which each iteration has one of its own.
    pub inner: List<Variable>,
}

/// What was found of a variable.
#[derive(Drop)]
pub enum Verdict {
    /// Nothing stands against it.
    Free,
    /// Iterations have copies of it.
    Copied,
    /// It is an obstacle: by these kinds of dependence, and for this reason not private.
    Bad(List<Kinds>, Private),
}

/// Whether two iterations may access one unit of the variable so.
fn keeps(
    alloc: Global,
    symbols: &Symbols,
    b: &LoopBody,
    v: &Variable,
    kinds: Kinds,
) -> Result<bool, Memory>
    requires { BodyFits b.now }
    ensures { IfOk result (λ kept. kept ≡ keeps_is (map symbol_tree symbols.now) b.now v.now kinds) }
{
    match conflict_of(alloc, symbols, b, v, kinds)? {
        Conflict::None => Ok(false),
        Conflict::Kept(_) => Ok(true),
    }
}

fn push_kind(made: &mut List<Kinds>, kept: bool, kinds: Kinds) -> Result<(), Memory>
    ensures { OnOk result (made.new ≡ made.old ++ with_kind kept kinds []) }
{
    if kept {
        made.push(kinds)?;
    }
    Ok(())
}

/// The kinds of dependence that are not refuted.
fn kept_kinds(
    alloc: Global,
    symbols: &Symbols,
    b: &LoopBody,
    v: &Variable,
) -> Result<List<Kinds>, Memory>
    requires { BodyFits b.now }
    ensures { IfOk result (λ ks. ks ≡ kept_kinds_is (map symbol_tree symbols.now) b.now v.now) }
{
    let mut made = List::new(alloc);
    let flow = keeps(alloc, symbols, b, v, Kinds::WriteRead)?;
    push_kind(&mut made, flow, Kinds::WriteRead)?;
    let anti = keeps(alloc, symbols, b, v, Kinds::ReadWrite)?;
    push_kind(&mut made, anti, Kinds::ReadWrite)?;
    let output = keeps(alloc, symbols, b, v, Kinds::WriteWrite)?;
    push_kind(&mut made, output, Kinds::WriteWrite)?;
    Ok(made)
}

/// The variable of a DO in the body depends on itself.
fn or_of_index(inner: bool, kinds: List<Kinds>) -> Result<List<Kinds>, Memory>
    ensures { IfOk result (λ ks. ks ≡ or_of_index_is inner kinds) }
{
    let mut kinds = kinds;
    if inner && kinds.is_empty() {
        kinds.push(Kinds::WriteWrite)?;
    }
    Ok(kinds)
}

fn kinds_of(
    alloc: Global,
    symbols: &Symbols,
    looked: &Looked<'_>,
    v: &Variable,
) -> Result<List<Kinds>, Memory>
    requires { BodyFits looked.now.body }
    ensures { IfOk result (λ ks. ks ≡ kinds_of_is (map symbol_tree symbols.now) looked.now.body looked.now.inner v.now) }
{
    let kept = kept_kinds(alloc, symbols, &looked.body, v)?;
    or_of_index(is_among(looked.inner.as_slice(), v), kept)
}

/// Whether the name of a variable has another use, so that there is no copy: the bounds of the DO name it, which OpenMP evaluates where copies have no
/// value yet, or it is the result of a function of which the body takes no value, or which is saved.
fn has_other_use(
    alloc: Global,
    a: &Analysis<'_>,
    looked: &Looked<'_>,
    v: &Variable,
) -> Result<bool, Memory>
    ensures { IfOk result (λ b. b ≡ (is_in_bounds_is (known_module a.now).symbols (loop_tree looked.now.the_loop.now) v.now || is_other_result_is (known_module a.now).tree (known_module a.now).symbols (loop_tree looked.now.the_loop.now) v.now)) }
{
    if is_in_bounds(a.view.symbols, looked.the_loop, v) {
        return Ok(true);
    }
    is_other_result(alloc, a.view, looked.the_loop, v)
}

fn copy_answer(
    alloc: Global,
    a: &Analysis<'_>,
    looked: &Looked<'_>,
    v: &Variable,
) -> Result<Private, Memory>
    requires { UsesFit looked.now.uses }
    ensures { IfOk result (λ p. p ≡ copy_answer_is (known_module a.now) (uses_tree looked.now.uses) (loop_tree looked.now.the_loop.now) v.now) }
{
    match private_of(alloc, a.view, &looked.uses, v)? {
        Private::Yes => {
            if has_other_use(alloc, a, looked, v)? {
                Ok(Private::Name)
            } else {
                Ok(Private::Yes)
            }
        }
        Private::Name => Ok(Private::Name),
        Private::Carried => Ok(Private::Carried),
        Private::Live => Ok(Private::Live),
    }
}

fn by_answer(kinds: List<Kinds>, private: Private) -> Verdict
    ensures { result ≡ by_answer_is kinds private }
{
    match private {
        Private::Yes => Verdict::Copied,
        Private::Name | Private::Carried | Private::Live => Verdict::Bad(kinds, private),
    }
}

/// What is found of a variable.
pub fn verdict_of(
    alloc: Global,
    a: &Analysis<'_>,
    looked: &Looked<'_>,
    v: &Variable,
) -> Result<Verdict, Memory>
    requires body { BodyFits looked.now.body }
    requires uses { UsesFit looked.now.uses }
    ensures { IfOk result (λ d. d ≡ verdict_of_is (known_module a.now) looked.now.body (uses_tree looked.now.uses) (loop_tree looked.now.the_loop.now) looked.now.inner v.now) }
{
    if same_variable(v, &Variable::Own(looked.body.index)) {
        return Ok(Verdict::Free);
    }
    let kinds = kinds_of(alloc, a.view.symbols, looked, v)?;
    if kinds.is_empty() {
        return Ok(Verdict::Free);
    }
    Ok(by_answer(kinds, copy_answer(alloc, a, looked, v)?))
}
