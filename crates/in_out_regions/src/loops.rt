//! IN of a DO, from IN, READ and WRITE of its body.
ghost use Rattle.std.specs.Prelude.{◌≡◌, ◌++◌, map, IfOk, OnOk, IfSome};
ghost use Rattle.f77_ast.specs.PlainStmt.{loop_tree};
ghost use Rattle.f77_ast.specs.Symbols.{symbol_tree};
ghost use Rattle.hull_projection.specs.Minus.{AllFit};
ghost use Rattle.array_regions.specs.call_translation.Scopes.{scope_tree};
ghost use Rattle.array_regions.specs.transformers.Given.{ResultsFit};
ghost use Rattle.array_regions.specs.transformers.Lists.{transformer_at as transformer_at_is};
ghost use Rattle.array_regions.specs.region_sets.Loops.{RangeFits};
ghost use Rattle.array_regions.specs.region_sets.Regions.{RegionFits};
ghost use Rattle.array_regions.specs.region_sets.Sets.{SetFits};
ghost use Rattle.array_regions.specs.Loops.{range_of as range_of_is};
ghost use Rattle.in_out_regions.specs.Loops.{in_range as in_range_is, less_earlier as less_earlier_is, in_iteration as in_iteration_is, over_maybe, unless_index, all_iterations, do_united, do_with as do_with_is};

use crate::earlier::earlier;
use crate::kinds::push_in;
use crate::lists::all_unless_overlapped;
use crate::loop_rows::index_rows;
use crate::writes::{is_touched, write_of};
use affine_forms::is_cell;
use array_regions::call_translation::CellScope;
use array_regions::region_sets::{
    Access, Range, Region, RegionSet, over_loop, push_region, push_regions, push_system, remade,
    subtract, unite_all, with_flag,
};
use array_regions::transformer_algebra::{Transformer, push_rows};
use array_regions::{push_loop_reads, range_of, scalar};
use f77_ast::{At, Loop, Symbols, Variable, same_variable};
use fx_lists::List;
use std::alloc::{AllocError as Memory, Global};

/// A region of the body where an iteration begins.
#[tactic(auto, using(crate::proofs::Steps::regions))]
fn in_range(alloc: Global, tracked: bool, g: &Range, r: &Region) -> Result<Region, Memory>
    requires range { RangeFits g.now }
    requires region { RegionFits r.now }
    ensures defined { IfOk result (λ q. q ≡ in_range_is tracked g.now r.now) }
    ensures fits { IfOk result RegionFits }
{
    let mut pieces = List::new(alloc);
    let mut rest = r.pieces.as_slice();
    while let [piece, more @ ..] = rest {
        let rows = index_rows(alloc, tracked, g)?;
        push_system(&mut pieces, push_rows(alloc, piece, rows)?)?;
        rest = more;
    }
    remade(r, r.exact, pieces)
}

/// A region less what earlier iterations wrote; where that is not known, exact only where the body, which has these regions, writes neither the variable
/// nor one that shares units with it.
fn less_earlier(
    alloc: Global,
    before: Option<Region>,
    symbols: &Symbols,
    writes: &[Region],
    r: &Region,
) -> Result<Option<Region>, Memory>
    requires before { IfSome before RegionFits }
    requires region { RegionFits r.now }
    ensures defined { IfOk result (λ o. o ≡ less_earlier_is before (map symbol_tree symbols.now) writes.now r.now) }
    ensures fits { IfOk result (λ o. IfSome o RegionFits) }
{
    match before {
        None => {
            let alone = !is_touched(symbols, writes, &r.variable);
            Ok(Some(with_flag(alloc, r, r.exact && alone)?))
        }
        Some(before) => subtract(alloc, r, &before),
    }
}

/// A region of the body where an iteration begins, of what no earlier one has certainly written.
#[tactic(auto, using(crate::proofs::Steps::regions))]
fn in_iteration(
    alloc: Global,
    tracked: bool,
    g: &Range,
    symbols: &Symbols,
    writes: &[Region],
    r: &Region,
) -> Result<Option<Region>, Memory>
    requires range { RangeFits g.now }
    requires writes { SetFits writes.now }
    requires region { RegionFits r.now }
    ensures defined { IfOk result (λ o. o ≡ in_iteration_is tracked g.now (map symbol_tree symbols.now) writes.now r.now) }
    ensures fits { IfOk result (λ o. IfSome o RegionFits) }
{
    let before = earlier(alloc, tracked, g, write_of(&r.variable, writes))?;
    let now = in_range(alloc, tracked, g, r)?;
    less_earlier(alloc, before, symbols, writes, &now)
}

/// Adds the region of an iteration, where there is one, as that of the DO.
fn push_over(alloc: Global, out: &mut RegionSet, g: &Range, r: Option<Region>) -> Result<(), Memory>
    requires out { SetFits out.old }
    requires range { RangeFits g.now }
    requires region { IfSome r RegionFits }
    ensures added { OnOk result (out.new ≡ out.old ++ over_maybe g.now r) }
    ensures fits { OnOk result (SetFits out.new) }
{
    match r {
        None => Ok(()),
        Some(r) => push_region(out, over_loop(alloc, &r, g)?),
    }
}

/// Adds the region of a variable of the body as that of the DO, unless it is that of the index.
#[tactic(auto, using(crate::proofs::Steps::regions))]
fn push_variable(
    alloc: Global,
    out: &mut RegionSet,
    tracked: bool,
    g: &Range,
    symbols: &Symbols,
    writes: &[Region],
    r: &Region,
) -> Result<(), Memory>
    requires out { SetFits out.old }
    requires range { RangeFits g.now }
    requires writes { SetFits writes.now }
    requires region { RegionFits r.now }
    ensures added { OnOk result (out.new ≡ out.old ++ unless_index g.now r.now.variable (over_maybe g.now (in_iteration_is tracked g.now (map symbol_tree symbols.now) writes.now r.now))) }
    ensures fits { OnOk result (SetFits out.new) }
{
    if same_variable(&Variable::Own(g.index), &r.variable) {
        return Ok(());
    }
    let one = in_iteration(alloc, tracked, g, symbols, writes, r)?;
    push_over(alloc, out, g, one)
}

/// Adds the IN regions of the body as those of the DO.
#[tactic(auto, using(crate::proofs::Steps::regions))]
fn push_iterations(
    alloc: Global,
    out: &mut RegionSet,
    tracked: bool,
    g: &Range,
    symbols: &Symbols,
    writes: &[Region],
    set: &[Region],
) -> Result<(), Memory>
    requires out { SetFits out.old }
    requires range { RangeFits g.now }
    requires writes { SetFits writes.now }
    requires set { SetFits set.now }
    ensures added { OnOk result (out.new ≡ out.old ++ all_iterations tracked g.now (map symbol_tree symbols.now) writes.now set.now) }
    ensures fits { OnOk result (SetFits out.new) }
{
    let mut rest = set;
    while let [r, more @ ..] = rest {
        push_variable(alloc, out, tracked, g, symbols, writes, r)?;
        rest = more;
    }
    Ok(())
}

/// What the values read, and the IN regions of the body as those of the DO.
fn united(
    alloc: Global,
    scope: &CellScope<'_>,
    l: &Loop,
    g: &Range,
    writes: &[Region],
    ins: &[Region],
) -> Result<RegionSet, Memory>
    requires range { RangeFits g.now }
    requires writes { SetFits writes.now }
    requires ins { SetFits ins.now }
    ensures defined { IfOk result (λ rs. rs ≡ do_united (scope_tree scope.now.symbols.now scope.now.tracked.now) (loop_tree l.now) g.now writes.now ins.now) }
    ensures fits { IfOk result SetFits }
{
    let mut read = List::new(alloc);
    push_loop_reads(alloc, &mut read, scope, l)?;
    let mut all = List::new(alloc);
    push_in(alloc, &mut all, read.as_slice())?;
    let tracked = is_cell(scope.tracked, g.index);
    push_iterations(alloc, &mut all, tracked, g, scope.symbols, writes, ins)?;
    unite_all(alloc, all.as_slice())
}

/// The IN regions of a DO (ANSI X3.9-1978, §11.10) whose body has these READ and WRITE regions and these of IN: its values are read, and in each iteration
/// what no earlier one has certainly written is read first. Not exact where a variable shares units with the index or with one that the body writes.
pub fn do_set(
    alloc: Global,
    scope: &CellScope<'_>,
    l: &Loop,
    own: &List<At<Transformer>>,
    accesses: &[Region],
    ins: &[Region],
) -> Result<RegionSet, Memory>
    requires own { ResultsFit own.now }
    requires accesses { SetFits accesses.now }
    requires ins { SetFits ins.now }
    ensures defined { IfOk result (λ rs. rs ≡ do_with_is (range_of_is (loop_tree l.now) (scope_tree scope.now.symbols.now scope.now.tracked.now) (transformer_at_is own.now)) (loop_tree l.now) (scope_tree scope.now.symbols.now scope.now.tracked.now) accesses.now ins.now) }
    ensures fits { IfOk result SetFits }
{
    let range = range_of(alloc, scope, l, own)?;
    let set = united(alloc, scope, l, &range, accesses, ins)?;
    let mut writes = List::new(alloc);
    push_region(&mut writes, scalar(alloc, Access::Write, range.index)?)?;
    push_regions(alloc, &mut writes, accesses)?;
    all_unless_overlapped(alloc, scope.symbols, writes.as_slice(), set.as_slice())
}
