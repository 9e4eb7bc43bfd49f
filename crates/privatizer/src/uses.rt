//! What is known of a DO where private variables are looked for.
ghost use Rattle.std.specs.Prelude.{◌≡◌, map, IfOk};
ghost use Rattle.affine_systems.specs.Given.{Fits};
ghost use Rattle.f77_ast.specs.PlainStmt.{loop_tree};
ghost use Rattle.f77_ast.specs.Symbols.{symbol_tree};
ghost use Rattle.preconditions.specs.Statement.{EachFits};
ghost use Rattle.preconditions.specs.transformers.Lists.{transformer_at};
ghost use Rattle.in_out_regions.specs.region_sets.Lists.{set_at};
ghost use Rattle.in_out_regions.specs.region_sets.Sets.{SetFits};
ghost use Rattle.dependence_test.specs.Given.{AnalysisFits};
ghost use Rattle.privatizer.specs.Uses.{head_in as head_in_is, ins_in as ins_in_is, known_uses};
ghost use Rattle.privatizer.specs.Views.{uses_tree, UsesFit};

use affine_systems::System;
use dependence_test::{Analysis, head_of, system_at};
use f77_ast::{At, Loop, StmtId};
use fx_lists::List;
use in_out_regions::list_in;
use in_out_regions::region_sets::{Region, RegionSet, set_at};
use std::alloc::{AllocError as Memory, Global};

/// What is known of a DO where private variables are looked for.
#[derive(Drop)]
pub struct Uses<'a> {
    /// What holds where an iteration begins.
    pub head: System,
    /// The IN regions of the body there.
    pub ins: RegionSet,
    /// What holds where the DO begins.
    pub before: System,
    /// The OUT regions of the DO.
    pub outs: &'a [Region],
}

/// What holds where an iteration of a DO begins.
#[tactic(auto, using(crate::proofs::Steps::bodies))]
fn head_in(alloc: Global, preconditions: &List<At<System>>, l: &Loop) -> Result<System, Memory>
    requires { EachFits preconditions.now }
    ensures defined { IfOk result (λ s. s ≡ head_in_is preconditions.now (loop_tree l.now)) }
    ensures fits { IfOk result Fits }
{
    head_of(alloc, preconditions, l.body.as_slice())
}

/// The IN regions of the body of a DO.
#[tactic(auto, using(crate::proofs::Steps::bodies))]
fn ins_in(alloc: Global, a: &Analysis<'_>, l: &Loop) -> Result<RegionSet, Memory>
    requires { AnalysisFits a.now }
    ensures defined { IfOk result (λ rs. rs ≡ ins_in_is (map symbol_tree a.now.view.now.symbols.now) (transformer_at a.now.transformers.now.at) (set_at a.now.regions.now.at) (set_at a.now.ins.now.at) (loop_tree l.now)) }
    ensures fits { IfOk result SetFits }
{
    list_in(
        alloc,
        a.view,
        &l.body,
        false,
        a.transformers,
        &a.regions.at,
        &a.ins.at,
    )
}

/// What is known of the DO `l`, whose statement has the number `at`.
pub fn uses_of<'a>(
    alloc: Global,
    a: &Analysis<'a>,
    at: StmtId,
    l: &Loop,
) -> Result<Uses<'a>, Memory>
    requires { AnalysisFits a.now }
    ensures defined { IfOk result (λ u. uses_tree u ≡ known_uses a.now at (loop_tree l.now)) }
    ensures fits { IfOk result UsesFit }
{
    Ok(Uses {
        head: head_in(alloc, &a.preconditions.at, l)?,
        ins: ins_in(alloc, a, l)?,
        before: system_at(alloc, &a.preconditions.at, at)?,
        outs: set_at(&a.outs.at, at),
    })
}
