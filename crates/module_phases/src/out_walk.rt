//! The CALLs in the statements of a module, with OUT at each.
ghost use Rattle.std.specs.Prelude.{◌≡◌, ◌++◌, ◌∷◌, [], ℕ, List, IfOk, bytes_eq, if◌then◌else◌};
ghost use Rattle.f77_ast.specs.PlainStmt.{stmt_tree, stmt_trees, what_tree, loop_tree, arm_trees};
ghost use Rattle.preconditions.specs.call_translation.Sites.{actuals_in};
ghost use Rattle.in_out_regions.specs.region_sets.Lists.{SetsFit, set_at as set_at_is};
ghost use Rattle.in_out_regions.specs.region_sets.Sets.{SetFits};
ghost use Rattle.module_phases.specs.OutPhases.{call_site, stmt_sites, list_sites, arms_sites, loop_sites};
ghost use Rattle.module_phases.specs.OutViews.{SitesFit, caller_in};
ghost use Rattle.preconditions.specs.call_translation.NamedSites.{sites_for};

use crate::out_site::OutSite;
use f77_ast::{Arm, At, Loop, Stmt, StmtId, What};
use fx_lists::{List, Text};
use in_out_regions::call_translation::{CallerScope, NamedSites};
use in_out_regions::region_sets::{RegionSet, push_regions, set_at};
use std::alloc::{AllocError as Memory, Global};
use std::rc::Rc;

/// A module whose CALLs are collected: its scope, its analysed scalars that some statement changes, and OUT at its statements.
#[derive(Drop)]
pub struct OutCaller<'a> {
    pub scope: &'a Rc<CallerScope>,
    pub changed: &'a List<u32>,
    pub outs: &'a List<At<RegionSet>>,
}

/// What is known of the CALL with a number.
#[tactic(auto, using(crate::proofs::Fitting::regions))]
fn site_of(alloc: Global, caller: &OutCaller<'_>, id: StmtId) -> Result<OutSite, Memory>
    requires { SetsFit caller.now.outs.now }
    ensures changed { IfOk result (λ s. s.changed ≡ caller.now.changed.now) }
    ensures out { IfOk result (λ s. s.out ≡ set_at_is caller.now.outs.now id) }
    ensures fits { IfOk result (λ s. SetFits s.out) }
{
    let mut out = List::new(alloc);
    push_regions(alloc, &mut out, set_at(caller.outs, id))?;
    let changed = List::from_slice(alloc, caller.changed.as_slice())?;
    Ok(OutSite { changed, out })
}

/// Adds a CALL to those of what it calls.
fn add_call(
    alloc: Global,
    caller: &OutCaller<'_>,
    call: &Stmt,
    callee: &Text,
    sites: &mut NamedSites<OutSite>,
) -> Result<(), Memory>
    requires outs { SetsFit caller.now.outs.now }
    requires sites { SitesFit sites.old }
    ensures added { IfOk result (λ _. (x : List ℕ) → sites_for sites.new x ≡ sites_for sites.old x ++ (if bytes_eq callee.now x then call_site (caller_in caller.now) (actuals_in (what_tree call.now.what)) call.now.id ∷ [] else [])) }
    ensures fits { IfOk result (λ _. SitesFit sites.new) }
{
    let value = site_of(alloc, caller, call.id)?;
    sites.add(callee, caller.scope, call, value)
}

/// Adds the CALLs in a statement.
#[cycle(sites)]
#[tactic(auto, using(crate::proofs::SiteLaws::part_calls))]
fn add_stmt(
    alloc: Global,
    caller: &OutCaller<'_>,
    s: &Stmt,
    sites: &mut NamedSites<OutSite>,
) -> Result<(), Memory>
    requires outs { SetsFit caller.now.outs.now }
    requires sites { SitesFit sites.old }
    ensures added { IfOk result (λ _. (x : List ℕ) → sites_for sites.new x ≡ sites_for sites.old x ++ stmt_sites (stmt_tree s.now) (caller_in caller.now) x) }
    ensures fits { IfOk result (λ _. SitesFit sites.new) }
{
    match &s.what {
        What::Call(callee, _) => add_call(alloc, caller, s, callee, sites),
        What::If(arms, other) => {
            add_arms(alloc, caller, arms, sites)?;
            match other {
                None => Ok(()),
                Some(body) => add_list(alloc, caller, body, sites),
            }
        }
        What::LogicalIf(_, inner) => add_stmt(alloc, caller, inner, sites),
        What::Do(l) => add_loop(alloc, caller, l, sites),
        What::Assign(..)
        | What::Goto(_)
        | What::Continue
        | What::Return
        | What::Stop(_)
        | What::Print(_)
        | What::Read(_) => Ok(()),
    }
}

#[cycle(sites)]
#[tactic(auto, using(crate::proofs::SiteLaws::body_calls))]
fn add_loop(
    alloc: Global,
    caller: &OutCaller<'_>,
    l: &Loop,
    sites: &mut NamedSites<OutSite>,
) -> Result<(), Memory>
    requires outs { SetsFit caller.now.outs.now }
    requires sites { SitesFit sites.old }
    ensures added { IfOk result (λ _. (x : List ℕ) → sites_for sites.new x ≡ sites_for sites.old x ++ loop_sites (loop_tree l.now) (caller_in caller.now) x) }
    ensures fits { IfOk result (λ _. SitesFit sites.new) }
{
    add_list(alloc, caller, &l.body, sites)
}

#[cycle(sites)]
#[tactic(auto, using(crate::proofs::SiteLaws::arm_calls))]
fn add_arms(
    alloc: Global,
    caller: &OutCaller<'_>,
    arms: &List<Arm>,
    sites: &mut NamedSites<OutSite>,
) -> Result<(), Memory>
    requires outs { SetsFit caller.now.outs.now }
    requires sites { SitesFit sites.old }
    ensures added { IfOk result (λ _. (x : List ℕ) → sites_for sites.new x ≡ sites_for sites.old x ++ arms_sites (arm_trees arms.now) (caller_in caller.now) x) }
    ensures fits { IfOk result (λ _. SitesFit sites.new) }
{
    for arm in arms.as_slice() {
        add_list(alloc, caller, &arm.body, sites)?;
    }
    Ok(())
}

/// Adds the CALLs in a list of statements, at any depth and in the order of the text, each to those of the module that it calls.
#[cycle(sites)]
#[tactic(auto, using(crate::proofs::SiteLaws::statement_calls))]
pub fn add_list(
    alloc: Global,
    caller: &OutCaller<'_>,
    list: &List<Stmt>,
    sites: &mut NamedSites<OutSite>,
) -> Result<(), Memory>
    requires outs { SetsFit caller.now.outs.now }
    requires sites { SitesFit sites.old }
    ensures added { IfOk result (λ _. (x : List ℕ) → sites_for sites.new x ≡ sites_for sites.old x ++ list_sites (stmt_trees list.now) (caller_in caller.now) x) }
    ensures fits { IfOk result (λ _. SitesFit sites.new) }
{
    for s in list.as_slice() {
        add_stmt(alloc, caller, s, sites)?;
    }
    Ok(())
}
