//! What comes after each statement of a list that is executed in its order.
ghost use Rattle.std.specs.Prelude.{◌≡◌, ◌++◌, Bool, All, reverse, IfOk};
ghost use Rattle.affine_systems.specs.Given.{Fits};
ghost use Rattle.f77_ast.specs.PlainStmt.{stmt_trees};
ghost use Rattle.f77_ast.specs.Trees as tree;
ghost use Rattle.in_out_regions.specs.region_sets.Sets.{SetFits, unite_all as unite_all_is};
ghost use Rattle.in_out_regions.specs.region_sets.Settled.{AllFixed};
ghost use Rattle.in_out_regions.specs.region_sets.Lists.{all_composed, set_at as set_at_is};
ghost use Rattle.in_out_regions.specs.Lists.{before_rest as before_rest_is};
ghost use Rattle.out_regions.specs.Known.{KnownTree};
ghost use Rattle.out_regions.specs.Contexts.{known_in, KnownFits, RestFits};
ghost use Rattle.out_regions.specs.Lists.{writes as writes_is, writes_at as writes_at_is, rest_of, rest_before, rests_behind};

use crate::context::OutContext;
use crate::leaving::leaves;
use f77_ast::{Stmt, StmtId};
use fx_lists::List;
use in_out_regions::region_sets::{
    Region, RegionSet, copy_region, push_region, push_settled, set_at, unite_settled,
};
use in_out_regions::transformer_algebra::Transformer;
use in_out_regions::transformers::transformer_at;
use in_out_regions::{before_rest, is_write};
use std::alloc::{AllocError as Memory, Global};

/// The WRITE regions of a set.
#[tactic(auto, using(crate::proofs::Fitting::fitting))]
pub fn writes(alloc: Global, set: &[Region]) -> Result<RegionSet, Memory>
    requires { SetFits set.now }
    ensures defined { IfOk result (λ rs. rs ≡ writes_is set.now) }
    ensures fits { IfOk result SetFits }
{
    let mut out = List::new(alloc);
    let mut rest = set;
    while let [r, more @ ..] = rest {
        if is_write(r.kind) {
            push_region(&mut out, copy_region(alloc, r)?)?;
        }
        rest = more;
    }
    Ok(out)
}

/// The WRITE regions of a statement.
#[tactic(auto, using(in_out_regions::proofs::Steps::regions))]
pub fn writes_at(alloc: Global, known: &OutContext<'_>, id: StmtId) -> Result<RegionSet, Memory>
    requires { KnownFits known.now }
    ensures defined { IfOk result (λ rs. rs ≡ writes_at_is (known_in known.now) id) }
    ensures fits { IfOk result SetFits }
{
    writes(alloc, set_at(known.regions, id))
}

/// The rest of a list from a statement on: what it reads before it writes, what it writes, and whether it may leave the list.
#[derive(Drop)]
pub struct Rest {
    pub ins: RegionSet,
    pub writes: RegionSet,
    pub leaves: bool,
}

/// After the last statement.
#[tactic(auto, using(crate::proofs::RestLaws::nothing_after))]
fn nothing(alloc: Global) -> Rest
    ensures defined { (k : KnownTree) (whole : Bool) → result ≡ rest_of k whole tree.no_stmts }
    ensures fits { RestFits result }
{
    Rest {
        ins: List::new(alloc),
        writes: List::new(alloc),
        leaves: false,
    }
}

/// What a statement reads before it writes, and what the rest then does.
#[tactic(auto, using(in_out_regions::proofs::Steps::regions))]
fn ins_with(
    alloc: Global,
    known: &OutContext<'_>,
    id: StmtId,
    t: &Transformer,
    rest: &[Region],
) -> Result<RegionSet, Memory>
    requires known { KnownFits known.now }
    requires transformer { Fits t.now.system }
    requires rest { SetFits rest.now }
    requires fixed { AllFixed rest.now }
    ensures defined { IfOk result (λ rs. rs ≡ before_rest_is (known_in known.now).scope.symbols (set_at_is known.now.ins.now id) (set_at_is known.now.regions.now id) t.now rest.now) }
    ensures fits { IfOk result SetFits }
    ensures fixed { IfOk result AllFixed }
{
    let ins = set_at(known.ins, id);
    let accesses = set_at(known.regions, id);
    before_rest(alloc, known.scope.symbols, ins, accesses, t, rest)
}

/// What a statement writes, and what the rest writes after it.
#[tactic(auto, using(in_out_regions::proofs::FixedLaws::before))]
fn writes_with(
    alloc: Global,
    known: &OutContext<'_>,
    id: StmtId,
    t: &Transformer,
    rest: &[Region],
) -> Result<RegionSet, Memory>
    requires known { KnownFits known.now }
    requires transformer { Fits t.now.system }
    requires rest { SetFits rest.now }
    requires fixed { AllFixed rest.now }
    ensures defined { IfOk result (λ rs. rs ≡ unite_all_is (writes_at_is (known_in known.now) id ++ all_composed t.now rest.now)) }
    ensures fits { IfOk result SetFits }
    ensures fixed { IfOk result AllFixed }
{
    let first = writes_at(alloc, known, id)?;
    let mut second = List::new(alloc);
    push_settled(alloc, &mut second, t, rest)?;
    let all = unite_settled(alloc, rest, first, second)?;
    Ok(all)
}

/// The rest from a statement on, from what follows it; `list` has the statement and all that follows.
fn with_statement(
    alloc: Global,
    known: &OutContext<'_>,
    whole: bool,
    list: &[Stmt],
    id: StmtId,
    after: &Rest,
) -> Result<Rest, Memory>
    requires known { KnownFits known.now }
    requires after { RestFits after.now }
    ensures defined { IfOk result (λ r. r ≡ rest_before (known_in known.now) whole (stmt_trees list.now) id after.now) }
    ensures fits { IfOk result RestFits }
{
    let t = transformer_at(alloc, &known.own.at, id)?;
    let ins = ins_with(alloc, known, id, &t, after.ins.as_slice())?;
    let writes = writes_with(alloc, known, id, &t, after.writes.as_slice())?;
    let leaves = leaves(alloc, whole, list)?;
    Ok(Rest {
        ins,
        writes,
        leaves,
    })
}

/// What comes after each statement of a list, that after the last one first. Memory for two sets for each statement; the labels of each rest are looked
/// at anew, so that time is quadratic in the statements of a list.
#[tactic(auto, using(crate::proofs::RestLaws::rest_steps))]
pub fn all_rests(
    alloc: Global,
    known: &OutContext<'_>,
    whole: bool,
    list: &[Stmt],
) -> Result<Vec<Rest>, Memory>
    requires { KnownFits known.now }
    ensures defined { IfOk result (λ rs. reverse rs.items ≡ rests_behind (known_in known.now) whole (stmt_trees list.now)) }
    ensures fits { IfOk result (λ rs. All RestFits rs.items) }
{
    let mut rests = Vec::new(alloc);
    let mut current = nothing(alloc);
    let mut left = list.len();
    while left > 0 {
        left -= 1;
        let next = with_statement(alloc, known, whole, &list[left..], list[left].id, &current)?;
        rests.push(current)?;
        current = next;
    }
    Ok(rests)
}
