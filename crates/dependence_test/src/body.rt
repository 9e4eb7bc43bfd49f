//! What is known where an iteration of a DO begins.
ghost use Rattle.std.specs.Prelude.{◌≡◌, IfOk};
ghost use Rattle.affine_systems.specs.Given.{Fits};
ghost use Rattle.f77_ast.specs.PlainStmt.{stmt_trees, loop_tree};
ghost use Rattle.preconditions.specs.call_translation.Scopes.{scope_of};
ghost use Rattle.preconditions.specs.Statement.{EachFits};
ghost use Rattle.preconditions.specs.transformers.Given.{ResultsFit};
ghost use Rattle.preconditions.specs.transformers.Lists.{transformer_at};
ghost use Rattle.dependence_test.specs.Body.{system_at as system_at_is, head_of as head_of_is, parts_of as parts_of_is};
ghost use Rattle.dependence_test.specs.Given.{AnalysisFits, BodyFits, known_body};

use crate::Analysis;
use affine_forms::no_rows;
use affine_systems::System;
use call_graph::View;
use f77_ast::{At, Loop, Results, Stmt, StmtId};
use fx_lists::List;
use preconditions::call_translation::{CellScope, tracked_of};
use preconditions::transformer_algebra::{LoopParts, Transformer, joined_cells};
use preconditions::transformers::{list_at, loop_parts, value_at};
use region_sets::{RegionSet, list_regions};
use std::alloc::{AllocError as Memory, Global};

/// What is known where an iteration of a DO begins.
#[derive(Drop)]
pub struct LoopBody {
    /// The number of the DO variable, 0 where no symbol has its name.
    pub index: u32,
    /// The step, where it is a constant and not 0.
    pub step: Option<i32>,
    /// The analysed scalars that the body changes, and the DO variable, ascending.
    pub cells: List<u32>,
    /// What holds of the analysed scalars where the first statement of the body begins.
    pub head: System,
    /// What the body reads and writes.
    pub regions: RegionSet,
}

fn copy_of(s: &System) -> Result<System, Memory>
    requires { Fits s.now }
    ensures defined { IfOk result (λ t. t ≡ s.now) }
    ensures fits { IfOk result Fits }
{
    Ok(System {
        rows: s.rows.clone()?,
        weak: s.weak,
    })
}

/// A copy of what holds where the statement with a number begins, no rows where there is no result.
#[tactic(auto, using(crate::proofs::BodySteps::systems))]
pub fn system_at(
    alloc: Global,
    preconditions: &List<At<System>>,
    id: StmtId,
) -> Result<System, Memory>
    requires { EachFits preconditions.now }
    ensures defined { IfOk result (λ s. s ≡ system_at_is preconditions.now id) }
    ensures fits { IfOk result Fits }
{
    match value_at(preconditions, id) {
        None => Ok(no_rows(alloc)),
        Some(s) => copy_of(s),
    }
}

/// What holds where the first statement of a list begins; no rows where the list is empty.
pub fn head_of(
    alloc: Global,
    preconditions: &List<At<System>>,
    list: &[Stmt],
) -> Result<System, Memory>
    requires { EachFits preconditions.now }
    ensures defined { IfOk result (λ s. s ≡ head_of_is preconditions.now (stmt_trees list.now)) }
    ensures fits { IfOk result Fits }
{
    match list {
        [] => Ok(no_rows(alloc)),
        [s, ..] => system_at(alloc, preconditions, s.id),
    }
}

/// The parts of a DO of a module.
#[tactic(auto, using(crate::proofs::BodySteps::bodies))]
fn parts_of(
    alloc: Global,
    view: &View<'_>,
    l: &Loop,
    own: &List<At<Transformer>>,
) -> Result<LoopParts, Memory>
    requires { ResultsFit own.now }
    ensures defined { IfOk result (λ parts. parts ≡ parts_of_is (loop_tree l.now) (scope_of view.now.«module».now view.now.symbols.now view.now.graph.now.untracked) (transformer_at own.now)) }
{
    let tracked = tracked_of(alloc, view)?;
    let scope = CellScope {
        symbols: view.symbols,
        tracked: &tracked,
    };
    let body = list_at(alloc, &l.body, false, own)?;
    loop_parts(alloc, &scope, l, body)
}

/// What is known of a DO of the module. The cells and the regions are those of its body's list.
#[tactic(auto, using(crate::proofs::BodySteps::bodies))]
pub fn body_of(alloc: Global, a: &Analysis<'_>, l: &Loop) -> Result<LoopBody, Memory>
    requires { AnalysisFits a.now }
    ensures defined { IfOk result (λ b. b ≡ known_body a.now (loop_tree l.now)) }
    ensures fits { IfOk result BodyFits }
{
    let parts = parts_of(alloc, a.view, l, &a.transformers.at)?;
    let cells = joined_cells(alloc, parts.body.cells.as_slice(), &[parts.index])?;
    let head = head_of(alloc, &a.preconditions.at, l.body.as_slice())?;
    let regions = list_regions(alloc, a.view, &l.body, false, a.transformers, &a.regions.at)?;
    Ok(LoopBody {
        index: parts.index,
        step: parts.step,
        cells,
        head,
        regions,
    })
}
