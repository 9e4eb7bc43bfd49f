//! The CALLs in the statements of a module.
ghost use Rattle.std.specs.Prelude.{◌≡◌, ◌++◌, [], ℕ, List, Some, IfOk, bytes_eq, if◌then◌else◌};
ghost use Rattle.affine_systems.specs.Given.{Fits};
ghost use Rattle.f77_ast.specs.PlainStmt.{stmt_tree, stmt_trees, what_tree, loop_tree, arm_trees};
ghost use Rattle.preconditions.specs.call_translation.Sites.{actuals_in};
ghost use Rattle.preconditions.specs.Statement.{EachFits};
ghost use Rattle.preconditions.specs.transformers.Lists.{value_at};
ghost use Rattle.module_phases.specs.ScalarPhases.{site, stmt_sites, list_sites, arms_sites, loop_sites};
ghost use Rattle.module_phases.specs.ScalarViews.{SitesFit, caller_in};
ghost use Rattle.preconditions.specs.call_translation.NamedSites.{sites_for};

use affine_systems::System;
use f77_ast::{Arm, At, Loop, Stmt, What};
use fx_lists::{List, Text};
use in_out_regions::call_translation::{CallerScope, NamedSites};
use preconditions::transformers::value_at;
use std::alloc::AllocError as Memory;
use std::rc::Rc;

/// The scope of a module whose CALLs are collected, and what holds where its statements begin.
#[derive(Drop)]
pub struct Caller<'a> {
    pub scope: &'a Rc<CallerScope>,
    pub holds: &'a List<At<System>>,
}

fn copy_system(system: &System) -> Result<System, Memory>
    ensures { IfOk result (λ s. s ≡ system.now) }
{
    system.clone()
}

/// Adds a CALL where this holds to those of what it calls.
fn add_known(
    caller: &Caller<'_>,
    call: &Stmt,
    callee: &Text,
    holds: &System,
    sites: &mut NamedSites<System>,
) -> Result<(), Memory>
    requires holds { Fits holds.now }
    requires sites { SitesFit sites.old }
    ensures added { IfOk result (λ _. (x : List ℕ) → sites_for sites.new x ≡ sites_for sites.old x ++ (if bytes_eq callee.now x then site (caller_in caller.now).scope (actuals_in (what_tree call.now.what)) (Some holds.now) else [])) }
    ensures fits { IfOk result (λ _. SitesFit sites.new) }
{
    let value = copy_system(holds)?;
    sites.add(callee, caller.scope, call, value)
}

/// Adds a CALL to those of what it calls; one without a result is passed over.
fn add_call(
    caller: &Caller<'_>,
    call: &Stmt,
    callee: &Text,
    sites: &mut NamedSites<System>,
) -> Result<(), Memory>
    requires holds { EachFits caller.now.holds.now }
    requires sites { SitesFit sites.old }
    ensures added { IfOk result (λ _. (x : List ℕ) → sites_for sites.new x ≡ sites_for sites.old x ++ (if bytes_eq callee.now x then site (caller_in caller.now).scope (actuals_in (what_tree call.now.what)) (value_at caller.now.holds.now call.now.id) else [])) }
    ensures fits { IfOk result (λ _. SitesFit sites.new) }
{
    match value_at(caller.holds, call.id) {
        None => Ok(()),
        Some(holds) => add_known(caller, call, callee, holds, sites),
    }
}

/// Adds the CALLs in a statement.
#[cycle(sites)]
#[tactic(auto, using(crate::proofs::SiteLaws::part_calls))]
fn add_stmt(caller: &Caller<'_>, stmt: &Stmt, sites: &mut NamedSites<System>) -> Result<(), Memory>
    requires holds { EachFits caller.now.holds.now }
    requires sites { SitesFit sites.old }
    ensures added { IfOk result (λ _. (x : List ℕ) → sites_for sites.new x ≡ sites_for sites.old x ++ stmt_sites (stmt_tree stmt.now) (caller_in caller.now) x) }
    ensures fits { IfOk result (λ _. SitesFit sites.new) }
{
    match &stmt.what {
        What::Call(callee, _) => add_call(caller, stmt, callee, sites),
        What::If(arms, other) => {
            add_arms(caller, arms, sites)?;
            match other {
                None => Ok(()),
                Some(body) => add_list(caller, body, sites),
            }
        }
        What::LogicalIf(_, inner) => add_stmt(caller, inner, sites),
        What::Do(l) => add_loop(caller, l, sites),
        What::Assign(..)
        | What::Goto(_)
        | What::Continue
        | What::Return
        | What::Stop(_)
        | What::Print(_)
        | What::Read(_) => Ok(()),
    }
}

#[cycle(sites)]
#[tactic(auto, using(crate::proofs::SiteLaws::body_calls))]
fn add_loop(caller: &Caller<'_>, l: &Loop, sites: &mut NamedSites<System>) -> Result<(), Memory>
    requires holds { EachFits caller.now.holds.now }
    requires sites { SitesFit sites.old }
    ensures added { IfOk result (λ _. (x : List ℕ) → sites_for sites.new x ≡ sites_for sites.old x ++ loop_sites (loop_tree l.now) (caller_in caller.now) x) }
    ensures fits { IfOk result (λ _. SitesFit sites.new) }
{
    add_list(caller, &l.body, sites)
}

#[cycle(sites)]
#[tactic(auto, using(crate::proofs::SiteLaws::arm_calls))]
fn add_arms(
    caller: &Caller<'_>,
    arms: &List<Arm>,
    sites: &mut NamedSites<System>,
) -> Result<(), Memory>
    requires holds { EachFits caller.now.holds.now }
    requires sites { SitesFit sites.old }
    ensures added { IfOk result (λ _. (x : List ℕ) → sites_for sites.new x ≡ sites_for sites.old x ++ arms_sites (arm_trees arms.now) (caller_in caller.now) x) }
    ensures fits { IfOk result (λ _. SitesFit sites.new) }
{
    for arm in arms.as_slice() {
        add_list(caller, &arm.body, sites)?;
    }
    Ok(())
}

/// Adds the CALLs in a list of statements, at any depth and in the order of the text, each to those of the module that it calls. A CALL
/// without a result in `holds` is left out.
#[cycle(sites)]
#[tactic(auto, using(crate::proofs::SiteLaws::statement_calls))]
pub fn add_list(
    caller: &Caller<'_>,
    list: &List<Stmt>,
    sites: &mut NamedSites<System>,
) -> Result<(), Memory>
    requires holds { EachFits caller.now.holds.now }
    requires sites { SitesFit sites.old }
    ensures added { IfOk result (λ _. (x : List ℕ) → sites_for sites.new x ≡ sites_for sites.old x ++ list_sites (stmt_trees list.now) (caller_in caller.now) x) }
    ensures fits { IfOk result (λ _. SitesFit sites.new) }
{
    for stmt in list.as_slice() {
        add_stmt(caller, stmt, sites)?;
    }
    Ok(())
}
