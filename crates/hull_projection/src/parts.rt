//! The parts of a difference, and what they are joined to.
ghost use Rattle.std.specs.Prelude.{◌≡◌, ◌++◌, [], ◌∷◌, map, IfOk, IfSome, OnOk};
ghost use Rattle.affine_systems.specs.Rows.{AllRows};
ghost use Rattle.affine_systems.specs.Given.{IsSmallRow, IsGiven, Fits};
ghost use Rattle.hull_projection.specs.Refute.{negations};
ghost use Rattle.hull_projection.specs.Clean.{clean as clean_is};
ghost use Rattle.hull_projection.specs.Minus.{AllFit, all_negations, parts as parts_is, hull_all as hull_all_is, weaker as weaker_is, minus_parts};

use crate::cleaning::clean;
use crate::entailment::{above, below};
use crate::hulls::{either, hull};
use crate::refutation::refuted;
use affine_systems::{Row, System, push_row};
use fx_lists::List;
use std::alloc::{AllocError as Memory, Global};

/// A difference of systems: a system that has the points of one outside another, or None, which says that there are
/// none. Where it is `exact` and no row was lost it has no other points.
#[derive(Clone, PartialEq, Eq, Debug, Drop)]
pub struct Minus {
    pub system: Option<System>,
    pub exact: bool,
}

#[tactic(auto, using(crate::proofs::PartSteps::part_steps))]
/// Adds the system with the row, unless it is refuted.
fn push_part(alloc: Global, out: &mut Vec<System>, sys: &System, row: &Row) -> Result<(), Memory>
    requires fits { Fits sys.now }
    requires row { IsGiven row.now }
    requires out { AllFit out.old.items }
    ensures added { OnOk result (out.new.items ≡ out.old.items ++ parts_is sys.now (row.now ∷ [])) }
    ensures fits { OnOk result (AllFit out.new.items) }
{
    let part = push_row(alloc, sys, row)?;
    if !refuted(alloc, &part)? {
        out.push(part)?;
    }
    Ok(())
}

#[tactic(auto, using(crate::proofs::PartSteps::parts_steps))]
/// Adds the system with each negation of the row, unless it is refuted.
fn push_parts(alloc: Global, out: &mut Vec<System>, sys: &System, row: &Row) -> Result<(), Memory>
    requires fits { Fits sys.now }
    requires row { IsSmallRow row.now }
    requires out { AllFit out.old.items }
    ensures added { OnOk result (out.new.items ≡ out.old.items ++ parts_is sys.now (negations row.now)) }
    ensures fits { OnOk result (AllFit out.new.items) }
{
    let over = above(alloc, row)?;
    push_part(alloc, out, sys, &over)?;
    if !row.equal {
        return Ok(());
    }
    let under = below(alloc, row)?;
    push_part(alloc, out, sys, &under)
}

#[tactic(auto, using(crate::proofs::PartSteps::parts_steps))]
/// The system with each negation of each row, in order, without those systems that are refuted. An equal row has two
/// negations.
pub fn parts(alloc: Global, sys: &System, rows: &[Row]) -> Result<Vec<System>, Memory>
    requires fits { Fits sys.now }
    requires rows { AllRows IsSmallRow rows.now }
    ensures defined { IfOk result (λ ss. ss.items ≡ parts_is sys.now (all_negations rows.now)) }
    ensures fits { IfOk result (λ ss. AllFit ss.items) }
{
    let mut out = Vec::new(alloc);
    for row in rows {
        push_parts(alloc, &mut out, sys, row)?;
    }
    Ok(out)
}

#[tactic(auto, using(crate::proofs::PartSteps::cleaned_steps))]
/// The systems, each cleaned.
pub fn cleaned_parts(alloc: Global, parts: &[System]) -> Result<List<System>, Memory>
    requires { AllFit parts.now }
    ensures defined { IfOk result (λ ss. ss ≡ map clean_is parts.now) }
    ensures fits { IfOk result AllFit }
{
    let mut out = Vec::new(alloc);
    for sys in parts {
        out.push(clean(alloc, sys)?)?;
    }
    Ok(List::from_vec(out))
}

#[tactic(auto, using(crate::proofs::PartSteps::hulls_steps))]
/// The hull from left to right.
fn hull_all(alloc: Global, first: System, more: &[System]) -> Result<System, Memory>
    requires first { Fits first }
    requires more { AllFit more.now }
    ensures defined { IfOk result (λ s. s ≡ hull_all_is first more.now) }
    ensures fits { IfOk result Fits }
{
    let mut result = first;
    for sys in more {
        result = hull(alloc, &result, sys)?;
    }
    Ok(result)
}

fn weaker(sys: System, weak: bool) -> System
    ensures { result ≡ weaker_is sys weak }
{
    System {
        rows: sys.rows,
        weak: either(sys.weak, weak),
    }
}

/// The difference that these parts make: None, the one part cleaned, or the hull of many from left to right, which
/// alone is not exact. Weak also where `weak`. Memory also where the numbers of auxiliary variables reach 2^32.
pub fn joined_parts(alloc: Global, parts: Vec<System>, weak: bool) -> Result<Minus, Memory>
    requires { AllFit parts.items }
    ensures defined { IfOk result (λ m. m ≡ minus_parts parts.items weak) }
    ensures fits { IfOk result (λ m. IfSome m.system Fits) }
{
    let mut parts = parts;
    if parts.is_empty() {
        return Ok(Minus {
            system: None,
            exact: true,
        });
    }
    let first = parts.remove(0);
    if parts.is_empty() {
        let one = clean(alloc, &first)?;
        return Ok(Minus {
            system: Some(weaker(one, weak)),
            exact: true,
        });
    }
    let all = hull_all(alloc, first, parts.as_slice())?;
    Ok(Minus {
        system: Some(weaker(all, weak)),
        exact: false,
    })
}
