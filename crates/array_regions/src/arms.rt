//! How the parts of an IF are reached, and what is accessed there.
ghost use Rattle.std.specs.Prelude.{◌≡◌, ◌++◌, map, IfOk, OnOk};
ghost use Rattle.affine_systems.specs.Given.{Fits};
ghost use Rattle.hull_projection.specs.Minus.{AllFit};
ghost use Rattle.f77_ast.specs.Plain.{expr_tree};
ghost use Rattle.f77_ast.specs.PlainStmt.{arm_trees};
ghost use Rattle.transformers.specs.call_translation.Scopes.{scope_tree};
ghost use Rattle.region_translation.specs.region_sets.Regions.{RegionFits};
ghost use Rattle.region_translation.specs.region_sets.Sets.{SetFits};
ghost use Rattle.array_regions.specs.Arms.{ReachedFits, always as always_is, if_true as if_true_is, if_false as if_false_is, met_pieces, under_tests as under_tests_is, all_met, test_reads, tests_reads, if_set as if_set_is};

use crate::reads::push_reads;
use affine_forms::{condition_of, no_rows};
use affine_systems::{System, meet};
use f77_ast::{Arm, Expr};
use fx_lists::List;
use region_translation::region_sets::{
    Region, RegionSet, push_region, push_system, remade, unite_all,
};
use std::alloc::{AllocError as Memory, Global};
use transformers::call_translation::CellScope;

/// How a part of an IF is reached.
#[derive(Drop)]
pub struct Reached {
    /// What holds of the analysed scalars where it is.
    pub system: System,
    /// It is reached exactly where the system holds; otherwise it may be reached there.
    pub exact: bool,
}

/// How a part is reached that is executed without a test: no rows, and exact.
pub fn always(alloc: Global) -> Reached
    ensures defined { result ≡ always_is }
    ensures fits { ReachedFits result }
{
    Reached {
        system: no_rows(alloc),
        exact: true,
    }
}

/// How a part is reached that is executed where a test is true; `way`: how the test is reached.
pub fn if_true(
    alloc: Global,
    scope: &CellScope<'_>,
    test: &Expr,
    way: &Reached,
) -> Result<Reached, Memory>
    requires { ReachedFits way.now }
    ensures defined { IfOk result (λ w. w ≡ if_true_is (scope_tree scope.now.symbols.now scope.now.tracked.now) (expr_tree test.now) way.now) }
    ensures fits { IfOk result ReachedFits }
{
    let condition = condition_of(alloc, scope.symbols, scope.tracked, test)?;
    Ok(Reached {
        system: meet(alloc, &way.system, &condition.yes)?,
        exact: way.exact && condition.yes_exact,
    })
}

/// How a part is reached that is executed where a test is false; `way`: how the test is reached.
pub fn if_false(
    alloc: Global,
    scope: &CellScope<'_>,
    test: &Expr,
    way: &Reached,
) -> Result<Reached, Memory>
    requires { ReachedFits way.now }
    ensures defined { IfOk result (λ w. w ≡ if_false_is (scope_tree scope.now.symbols.now scope.now.tracked.now) (expr_tree test.now) way.now) }
    ensures fits { IfOk result ReachedFits }
{
    let condition = condition_of(alloc, scope.symbols, scope.tracked, test)?;
    Ok(Reached {
        system: meet(alloc, &way.system, &condition.no)?,
        exact: way.exact && condition.no_exact,
    })
}

/// A region of a part, where that is reached so.
#[tactic(auto, using(crate::proofs::Fitting::fitting))]
fn under_tests(alloc: Global, way: &Reached, r: &Region) -> Result<Region, Memory>
    requires way { ReachedFits way.now }
    requires region { RegionFits r.now }
    ensures defined { IfOk result (λ q. q ≡ under_tests_is way.now r.now) }
    ensures fits { IfOk result RegionFits }
{
    let mut pieces = List::new(alloc);
    let mut rest = r.pieces.as_slice();
    while let [piece, more @ ..] = rest {
        push_system(&mut pieces, meet(alloc, piece, &way.system)?)?;
        rest = more;
    }
    remade(r, r.exact && way.exact, pieces)
}

/// Appends the regions of a part, in their order, each with what holds where the part is reached; exact where the region is and `way` is.
#[tactic(auto, using(crate::proofs::Fitting::fitting))]
pub fn push_met(
    alloc: Global,
    out: &mut RegionSet,
    way: &Reached,
    set: &[Region],
) -> Result<(), Memory>
    requires out { SetFits out.old }
    requires way { ReachedFits way.now }
    requires set { SetFits set.now }
    ensures added { OnOk result (out.new ≡ out.old ++ all_met way.now set.now) }
    ensures fits { OnOk result (SetFits out.new) }
{
    let mut rest = set;
    while let [r, more @ ..] = rest {
        push_region(out, under_tests(alloc, way, r)?)?;
        rest = more;
    }
    Ok(())
}

/// Adds what a test reads that is reached so.
fn push_test(
    alloc: Global,
    out: &mut RegionSet,
    scope: &CellScope<'_>,
    test: &Expr,
    way: &Reached,
) -> Result<(), Memory>
    requires out { SetFits out.old }
    requires way { ReachedFits way.now }
    ensures added { OnOk result (out.new ≡ out.old ++ test_reads (scope_tree scope.now.symbols.now scope.now.tracked.now) (expr_tree test.now) way.now) }
    ensures fits { OnOk result (SetFits out.new) }
{
    let mut read = List::new(alloc);
    push_reads(alloc, &mut read, scope, test)?;
    push_met(alloc, out, way, read.as_slice())
}

/// Appends the READ regions of the tests of the arms of a block IF (ANSI X3.9-1978, §11.6 to §11.9), each where the tests of the arms before
/// it are false.
#[tactic(auto, using(crate::proofs::Steps::arm_rest))]
pub fn push_tests(
    alloc: Global,
    out: &mut RegionSet,
    scope: &CellScope<'_>,
    arms: &List<Arm>,
) -> Result<(), Memory>
    requires { SetFits out.old }
    ensures added { OnOk result (out.new ≡ out.old ++ tests_reads (arm_trees arms.now) (scope_tree scope.now.symbols.now scope.now.tracked.now) always_is) }
    ensures fits { OnOk result (SetFits out.new) }
{
    let mut way = always(alloc);
    for arm in arms.as_slice() {
        push_test(alloc, out, scope, &arm.test, &way)?;
        way = if_false(alloc, scope, &arm.test, &way)?;
    }
    Ok(())
}

/// The regions of a logical IF (ANSI X3.9-1978, §11.5) whose statement has these: what the test reads, and those of the statement where the
/// test is true.
pub fn if_set(
    alloc: Global,
    scope: &CellScope<'_>,
    test: &Expr,
    inner: &[Region],
) -> Result<RegionSet, Memory>
    requires { SetFits inner.now }
    ensures defined { IfOk result (λ rs. rs ≡ if_set_is (scope_tree scope.now.symbols.now scope.now.tracked.now) (expr_tree test.now) inner.now) }
    ensures fits { IfOk result SetFits }
{
    let mut all = List::new(alloc);
    push_reads(alloc, &mut all, scope, test)?;
    let way = if_true(alloc, scope, test, &always(alloc))?;
    push_met(alloc, &mut all, &way, inner)?;
    unite_all(alloc, all.as_slice())
}
