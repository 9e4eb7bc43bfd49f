//! IN of a list, from IN, READ and WRITE of its statements.
ghost use Rattle.std.specs.Prelude.{◌≡◌, ◌++◌, true, map, option_to_list, option_copied, IfOk, IfSome, OnOk};
ghost use Rattle.affine_systems.specs.Given.{Fits};
ghost use Rattle.hull_projection.specs.Minus.{AllFit};
ghost use Rattle.f77_ast.specs.PlainStmt.{stmt_trees};
ghost use Rattle.f77_ast.specs.Symbols.{symbol_tree};
ghost use Rattle.array_regions.specs.transformers.Given.{ResultsFit};
ghost use Rattle.array_regions.specs.transformers.Lists.{transformer_at as transformer_at_is};
ghost use Rattle.array_regions.specs.region_sets.Regions.{RegionFits};
ghost use Rattle.array_regions.specs.region_sets.Sets.{SetFits};
ghost use Rattle.array_regions.specs.region_sets.Settled.{IsFixed, AllFixed};
ghost use Rattle.array_regions.specs.region_sets.Lists.{SetsFit, set_at as set_at_is};
ghost use Rattle.in_out_regions.specs.Lists.{less_write as less_write_is, all_unwritten, unless_overlapped as unless_overlapped_is, all_unless_overlapped as all_unless_overlapped_is, before_rest as before_rest_is, ins_in_order, list_in as list_in_is};
ghost use Rattle.in_out_regions.specs.Contexts.{ContextFits};
ghost use Rattle.in_out_regions.specs.ListClaims.{HasListIn, HasListInAlone};

use crate::writes::{is_overlapped, write_of};
use array_regions::push_maybe;
use array_regions::region_sets::{
    Region, RegionSet, all_sets, copy_region, in_any_order, numbers, push_region, push_regions,
    push_settled, set_at, subtract_known, unite_settled, with_flag,
};
use array_regions::transformer_algebra::Transformer;
use array_regions::transformers::{is_unstructured, list_at, transformer_at};
use call_graph::View;
use f77_ast::{At, Results, Stmt, StmtId, Symbols};
use fx_lists::List;
use std::alloc::{AllocError as Memory, Global};

/// What is left of a region after what is written of its variable. `known`: the region is one of a set.
fn less_write(
    alloc: Global,
    known: bool,
    write: Option<&Region>,
    r: &Region,
) -> Result<Option<Region>, Memory>
    requires known { known ≡ true → IsFixed r.now }
    requires write { IfSome (option_copied write) RegionFits }
    requires region { RegionFits r.now }
    ensures defined { IfOk result (λ o. o ≡ less_write_is (option_copied write.entry) r.now) }
    ensures fits { IfOk result (λ o. IfSome o RegionFits) }
{
    match write {
        None => Ok(Some(copy_region(alloc, r)?)),
        Some(w) => subtract_known(alloc, known, r, w),
    }
}

/// Appends what is left of regions after these WRITE regions. `known`: they are those of a set.
#[tactic(auto, using(crate::proofs::Steps::regions))]
pub fn push_unwritten(
    alloc: Global,
    out: &mut RegionSet,
    known: bool,
    writes: &[Region],
    set: &[Region],
) -> Result<(), Memory>
    requires out { SetFits out.old }
    requires known { known ≡ true → AllFixed set.now }
    requires writes { SetFits writes.now }
    requires set { SetFits set.now }
    ensures added { OnOk result (out.new ≡ out.old ++ all_unwritten writes.now set.now) }
    ensures fits { OnOk result (SetFits out.new) }
{
    let mut rest = set;
    while let [r, more @ ..] = rest {
        push_maybe(
            out,
            less_write(alloc, known, write_of(&r.variable, writes), r)?,
        )?;
        rest = more;
    }
    Ok(())
}

/// A region that is not exact where one of these WRITE regions is of a variable that shares units with its own.
fn unless_overlapped(
    alloc: Global,
    symbols: &Symbols,
    writes: &[Region],
    r: &Region,
) -> Result<Region, Memory>
    requires { RegionFits r.now }
    ensures defined { IfOk result (λ q. q ≡ unless_overlapped_is (map symbol_tree symbols.now) writes.now r.now) }
    ensures fits { IfOk result RegionFits }
{
    let alone = !is_overlapped(symbols, writes, &r.variable);
    with_flag(alloc, r, r.exact && alone)
}

/// Regions, of which none is exact whose variable shares units with that of one of these WRITE regions.
#[tactic(auto, using(crate::proofs::Fitting::fitting))]
pub fn all_unless_overlapped(
    alloc: Global,
    symbols: &Symbols,
    writes: &[Region],
    set: &[Region],
) -> Result<RegionSet, Memory>
    requires { SetFits set.now }
    ensures defined { IfOk result (λ qs. qs ≡ all_unless_overlapped_is (map symbol_tree symbols.now) writes.now set.now) }
    ensures fits { IfOk result SetFits }
{
    let mut out = List::new(alloc);
    let mut rest = set;
    while let [r, more @ ..] = rest {
        push_region(&mut out, unless_overlapped(alloc, symbols, writes, r)?)?;
        rest = more;
    }
    Ok(out)
}

/// The set where a statement begins, from that of what follows it. `ins` and `writes`: the IN and WRITE regions of the statement, which does what the
/// transformer describes. `rest` is a set.
#[tactic(auto, using(crate::proofs::FixedLaws::before))]
pub fn before_rest(
    alloc: Global,
    symbols: &Symbols,
    ins: &[Region],
    writes: &[Region],
    t: &Transformer,
    rest: &[Region],
) -> Result<RegionSet, Memory>
    requires ins { SetFits ins.now }
    requires writes { SetFits writes.now }
    requires transformer { Fits t.now.system }
    requires rest { SetFits rest.now }
    requires fixed { AllFixed rest.now }
    ensures defined { IfOk result (λ qs. qs ≡ before_rest_is (map symbol_tree symbols.now) ins.now writes.now t.now rest.now) }
    ensures fits { IfOk result SetFits }
    ensures fixed { IfOk result AllFixed }
{
    let mut later = List::new(alloc);
    push_settled(alloc, &mut later, t, rest)?;
    let later = unite_settled(alloc, rest, List::new(alloc), later)?;
    let mut first = List::new(alloc);
    push_regions(alloc, &mut first, ins)?;
    let mut second = List::new(alloc);
    push_unwritten(alloc, &mut second, true, writes, later.as_slice())?;
    let set = unite_settled(alloc, later.as_slice(), first, second)?;
    let before = all_unless_overlapped(alloc, symbols, writes, set.as_slice())?;
    Ok(before)
}

/// Results for the statements of a module.
#[derive(Drop)]
pub struct ListContext<'a> {
    pub symbols: &'a Symbols,
    pub own: &'a List<At<Transformer>>,
    pub regions: &'a List<At<RegionSet>>,
    pub ins: &'a List<At<RegionSet>>,
}

/// Before the statement of a number, from what follows it.
#[tactic(auto, using(crate::proofs::Steps::regions))]
fn with_rest(
    alloc: Global,
    id: StmtId,
    given: &ListContext<'_>,
    rest: &[Region],
) -> Result<RegionSet, Memory>
    requires given { ContextFits given.now }
    requires rest { SetFits rest.now }
    requires fixed { AllFixed rest.now }
    ensures defined { IfOk result (λ qs. qs ≡ before_rest_is (map symbol_tree given.now.symbols.now) (set_at_is given.now.ins.now id) (set_at_is given.now.regions.now id) (transformer_at_is given.now.own.now id) rest.now) }
    ensures fits { IfOk result SetFits }
    ensures fixed { IfOk result AllFixed }
{
    let t = transformer_at(alloc, given.own, id)?;
    let ins = set_at(given.ins, id);
    let writes = set_at(given.regions, id);
    before_rest(alloc, given.symbols, ins, writes, &t, rest)
}

/// Of statements that are executed from the first to the last; from the last on.
#[tactic(auto, using(crate::proofs::Steps::order_step))]
fn in_order(alloc: Global, ids: &[StmtId], given: &ListContext<'_>) -> Result<RegionSet, Memory>
    requires { ContextFits given.now }
    ensures defined { IfOk result (λ qs. qs ≡ ins_in_order (map symbol_tree given.now.symbols.now) (transformer_at_is given.now.own.now) (set_at_is given.now.regions.now) (set_at_is given.now.ins.now) ids.now) }
    ensures fits { IfOk result SetFits }
{
    let mut set = List::new(alloc);
    let mut left = ids.len();
    while left > 0 {
        left -= 1;
        set = with_rest(alloc, ids[left], given, set.as_slice())?;
    }
    Ok(set)
}

/// Of a list, from what is known of its statements.
pub fn of_list(
    alloc: Global,
    list: &List<Stmt>,
    whole: bool,
    given: &ListContext<'_>,
) -> Result<RegionSet, Memory>
    requires { ContextFits given.now }
    ensures defined { IfOk result (λ qs. qs ≡ list_in_is (map symbol_tree given.now.symbols.now) (transformer_at_is given.now.own.now) (set_at_is given.now.regions.now) (set_at_is given.now.ins.now) whole (stmt_trees list.now)) }
    ensures fits { IfOk result SetFits }
{
    let ids = numbers(alloc, list.as_slice())?;
    if is_unstructured(alloc, list, whole)? {
        let t = list_at(alloc, list, whole, given.own)?;
        let all = all_sets(alloc, ids.as_slice(), given.ins)?;
        in_any_order(alloc, t.cells.as_slice(), all.as_slice())
    } else {
        in_order(alloc, ids.as_slice(), given)
    }
}

/// The IN regions of a list where it begins, from those in `ins` of its direct statements, from their READ and WRITE regions and their transformers.
/// `whole`: the list is the body of the module. What a statement certainly writes is not read first in those after it. Where a GO TO in the list leads to
/// a statement of it, or a RETURN leaves the body early, each statement may come first, the analysed scalars that the list changes may have any value
/// there, and nothing is exact.
pub fn list_in(
    alloc: Global,
    view: &View<'_>,
    list: &List<Stmt>,
    whole: bool,
    own: &Results<Transformer>,
    regions: &List<At<RegionSet>>,
    ins: &List<At<RegionSet>>,
) -> Result<RegionSet, Memory>
    requires own { ResultsFit own.now.at }
    requires regions { SetsFit regions.now }
    requires ins { SetsFit ins.now }
    ensures defined { IfOk result (λ qs. qs ≡ list_in_is (map symbol_tree view.now.symbols.now) (transformer_at_is own.now.at) (set_at_is regions.now) (set_at_is ins.now) whole (stmt_trees list.now)) }
    ensures fits { IfOk result SetFits }
    ensures sound { IfOk result (HasListIn (transformer_at_is own.now.at) (set_at_is regions.now) (set_at_is ins.now) whole (stmt_trees list.now)) }
    ensures exact { IfOk result (HasListInAlone (map symbol_tree view.now.symbols.now) (transformer_at_is own.now.at) (set_at_is regions.now) (set_at_is ins.now) whole (stmt_trees list.now)) }
{
    let given = ListContext {
        symbols: view.symbols,
        own: &own.at,
        regions,
        ins,
    };
    of_list(alloc, list, whole, &given)
}
