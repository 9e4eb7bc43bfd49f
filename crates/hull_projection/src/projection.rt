//! Projection: variables are eliminated in ascending order, and the rest is cleaned.

use crate::cleaning::clean_rows;
use crate::hulls::copy_system;
use crate::variables::in_order;
use affine_systems::items::{items_of, rows_of};
use affine_systems::{System, Var, Vars};
use elimination::{eliminate, without_lone};
use fx_lists::List;
use std::alloc::{AllocError as Memory, Global};

/// A projection: a system without some variables. Where it is `exact`, each point of it extends to one of the system
/// that it came from.
#[derive(Clone, PartialEq, Eq, Debug, Drop)]
pub struct Shadow {
    pub system: System,
    pub exact: bool,
}

ghost use Rattle.std.specs.Prelude.{◌≡◌, ◌<◌, ◌≤◌, length, take, true, IfOk};
ghost use Rattle.affine_systems.specs.Rows.{AllRows};
ghost use Rattle.affine_systems.specs.Given.{IsSmallRow, Fits};
ghost use Rattle.affine_systems.specs.Eliminate.{eliminate as eliminate_is};
ghost use Rattle.hull_projection.specs.Project.{shadow_after, eliminate_each as eliminate_each_is, cleaned_shadow, project as project_is};
ghost use Rattle.hull_projection.specs.Laws.{ProjectsPoints, ExtendsPoints, LacksAll};

/// One variable less.
fn eliminate_more(alloc: Global, s: Shadow, v: Var) -> Result<Shadow, Memory>
    requires { Fits s.system }
    ensures defined { IfOk result (λ t. t ≡ shadow_after s (eliminate_is s.system v)) }
    ensures fits { IfOk result (λ t. Fits t.system) }
{
    let Shadow { system, exact } = s;
    let e = eliminate(alloc, system, v)?;
    Ok(Shadow {
        system: e.system,
        exact: exact && e.exact,
    })
}

/// So few variables are eliminated one by one.
const FEW: usize = 4;

/// The leading variables that one row alone has, taken away with their rows; and how many these are.
fn without_leading(alloc: Global, s: Shadow, vars: &[Var]) -> Result<(Shadow, usize), Memory>
    requires { Fits s.system }
    ensures within { IfOk result (λ r. r.1 ≤ length vars.now) }
    ensures defined { IfOk result (λ r. r.0 ≡ eliminate_each_is s (take r.1 vars.now)) }
    ensures fits { IfOk result (λ r. Fits r.0.system) }
{
    if vars.len() < FEW {
        return Ok((s, 0));
    }
    let Shadow { system, exact } = s;
    let System { rows, weak } = system;
    let items = items_of(alloc, rows.into_vec())?;
    let (left, done) = without_lone(alloc, items.into_vec(), vars);
    let rows = rows_of(alloc, List::from_vec(left))?;
    let shadow = Shadow {
        system: System { rows, weak },
        exact,
    };
    Ok((shadow, done))
}

#[tactic(auto, using(crate::proofs::LoneLaws::each_some))]
/// The leading variables that one row alone has, and one more.
fn eliminate_some(alloc: Global, s: Shadow, vars: &[Var]) -> Result<(Shadow, usize), Memory>
    requires fits { Fits s.system }
    requires some { 0 < length vars.now }
    ensures within { IfOk result (λ r. (0 < r.1) × (r.1 ≤ length vars.now)) }
    ensures defined { IfOk result (λ r. r.0 ≡ eliminate_each_is s (take r.1 vars.now)) }
    ensures fits { IfOk result (λ r. Fits r.0.system) }
{
    let (s, done) = without_leading(alloc, s, vars)?;
    if done == vars.len() {
        return Ok((s, done));
    }
    let s = eliminate_more(alloc, s, vars[done])?;
    Ok((s, done + 1))
}

#[tactic(auto, using(crate::proofs::LoneLaws::each_loop))]
/// The variables eliminated one after the other.
fn eliminate_each(alloc: Global, s: Shadow, vars: &[Var]) -> Result<Shadow, Memory>
    requires { Fits s.system }
    ensures defined { IfOk result (λ t. t ≡ eliminate_each_is s vars.now) }
    ensures fits { IfOk result (λ t. Fits t.system) }
{
    let mut s = s;
    let mut at = 0;
    while at < vars.len() {
        let (next, done) = eliminate_some(alloc, s, &vars[at..])?;
        s = next;
        at += done;
    }
    Ok(s)
}

/// The shadow with its system cleaned.
fn cleaned_system(alloc: Global, s: Shadow) -> Result<Shadow, Memory>
    requires { AllRows IsSmallRow s.system.rows }
    ensures { IfOk result (λ t. t ≡ cleaned_shadow s) }
{
    let Shadow { system, exact } = s;
    let System { rows, weak } = system;
    let rows = clean_rows(alloc, rows)?;
    Ok(Shadow {
        system: System { rows, weak },
        exact,
    })
}

/// The projection that removes these variables of a system that is handed over: it is not copied. They are eliminated in ascending order, whatever
/// that of the list, and what is left is cleaned. No point is lost; exact where each elimination is.
pub fn project_owned(alloc: Global, sys: System, vars: &Vars) -> Result<Shadow, Memory>
    requires fits { Fits sys }
    ensures defined { IfOk result (λ s. s ≡ project_is sys vars.now) }
    ensures fits { IfOk result (λ s. Fits s.system) }
    ensures gone { IfOk result (λ s. LacksAll vars.now s.system.rows) }
    ensures sound { IfOk result (ProjectsPoints sys vars.now) }
    ensures exact { IfOk result (ExtendsPoints sys vars.now) }
{
    let order = in_order(alloc, vars.as_slice())?;
    let start = Shadow {
        system: sys,
        exact: true,
    };
    let left = eliminate_each(alloc, start, order.as_slice())?;
    cleaned_system(alloc, left)
}

/// The projection of a system that removes these variables, cleaned. They are eliminated in ascending order, whatever
/// that of the list. No point is lost; exact where each elimination is.
pub fn project(alloc: Global, sys: &System, vars: &Vars) -> Result<Shadow, Memory>
    requires fits { Fits sys.now }
    ensures defined { IfOk result (λ s. s ≡ project_is sys.now vars.now) }
    ensures fits { IfOk result (λ s. Fits s.system) }
    ensures gone { IfOk result (λ s. LacksAll vars.now s.system.rows) }
    ensures sound { IfOk result (ProjectsPoints sys.now vars.now) }
    ensures exact { IfOk result (ExtendsPoints sys.now vars.now) }
{
    let copy = copy_system(alloc, sys)?;
    project_owned(alloc, copy, vars)
}
