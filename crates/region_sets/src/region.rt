//! Regions: elements of a variable that are accessed.
ghost use Rattle.std.specs.Prelude.{◌≡◌, ◌++◌, ◌∷◌, [], IfOk};
ghost use Rattle.affine_systems.specs.Given.{Fits};
ghost use Rattle.hull_projection.specs.Minus.{AllFit};
ghost use Rattle.region_sets.specs.Regions.{RegionFits, any_weak as any_weak_is, remade as remade_is};

use affine_systems::System;
use f77_ast::{At, Variable, copy_variable};
use fx_lists::List;
use std::alloc::{AllocError as Memory, Global};

/// How elements are accessed.
#[derive(Clone, Copy, PartialEq, Eq)]
pub enum Access {
    /// They are read.
    Read,
    /// They are written.
    Write,
    /// They are read before they are written.
    In,
    /// They are written, and read later before they are written again.
    Out,
}

/// The elements of a variable whose subscripts (`Phi`, the first is 1) satisfy one of the systems, for the values of the analysed scalars
/// (`Cell`) where a statement begins; of a scalar, all of it where one of the systems holds. The analyses make regions of one to four systems.
#[derive(PartialEq, Eq, Drop)]
pub struct Region {
    pub variable: Variable,
    pub kind: Access,
    /// Each of the elements is accessed in each execution that ends normally; otherwise each may be.
    pub exact: bool,
    /// The systems, of which a point satisfies at least one.
    pub pieces: List<System>,
}

/// Regions in the order in which they are written: by kind as in `Access`, then own symbols by their numbers, then other variables by what is
/// written of them; at most one of a variable and kind. What is still to be united has its regions in any order.
pub type RegionSet = List<Region>;

/// Sets of regions of statements, those of the parts of a statement after its own, in the order of the text.
pub type RegionList = List<At<RegionSet>>;

/// Whether one of the systems is over-approximated: it lost a row by a limit.
pub fn any_weak(pieces: &[System]) -> bool
    ensures { result ≡ any_weak_is pieces.now }
{
    let mut rest = pieces;
    while let [piece, more @ ..] = rest {
        if piece.weak {
            return true;
        }
        rest = more;
    }
    false
}

/// A region of these systems, of the variable and kind of another; exact where `exact` and none of the systems is over-approximated.
pub fn remade(r: &Region, exact: bool, pieces: List<System>) -> Result<Region, Memory>
    requires { AllFit pieces }
    ensures defined { IfOk result (λ q. q ≡ remade_is r.now exact pieces) }
    ensures fits { IfOk result RegionFits }
{
    let weak = any_weak(pieces.as_slice());
    Ok(Region {
        variable: copy_variable(&r.variable)?,
        kind: r.kind,
        exact: exact && !weak,
        pieces,
    })
}

/// Appends a system.
#[tactic(auto, using(crate::proofs::Steps::fitting))]
pub fn push_system(out: &mut List<System>, s: System) -> Result<(), Memory>
    requires all { AllFit out.old }
    requires s { Fits s }
    ensures added { IfOk result (λ _. out.new ≡ out.old ++ s ∷ []) }
    ensures fits { IfOk result (λ _. AllFit out.new) }
{
    out.push(s)?;
    Ok(())
}

/// A copy of a system.
pub fn copy_system(piece: &System) -> Result<System, Memory>
    ensures { IfOk result (λ s. s ≡ piece.now) }
{
    Ok(System {
        rows: piece.rows.clone()?,
        weak: piece.weak,
    })
}

/// Appends copies of systems, in their order.
#[tactic(auto, using(crate::proofs::Steps::fitting))]
pub fn push_copies(out: &mut List<System>, pieces: &[System]) -> Result<(), Memory>
    requires all { AllFit out.old }
    requires pieces { AllFit pieces.now }
    ensures added { IfOk result (λ _. out.new ≡ out.old ++ pieces.now) }
    ensures fits { IfOk result (λ _. AllFit out.new) }
{
    let mut rest = pieces;
    while let [piece, more @ ..] = rest {
        push_system(out, copy_system(piece)?)?;
        rest = more;
    }
    Ok(())
}

/// A copy of a region that is exact where `exact` and none of its systems is over-approximated.
pub fn with_flag(alloc: Global, r: &Region, exact: bool) -> Result<Region, Memory>
    requires { RegionFits r.now }
    ensures defined { IfOk result (λ q. q ≡ remade_is r.now exact r.now.pieces) }
    ensures fits { IfOk result RegionFits }
{
    let mut pieces = List::from_vec(Vec::with_capacity(alloc, r.pieces.len())?);
    push_copies(&mut pieces, r.pieces.as_slice())?;
    remade(r, exact, pieces)
}

/// A copy of a region, with its flag as it is.
pub fn copy_region(alloc: Global, r: &Region) -> Result<Region, Memory>
    requires { RegionFits r.now }
    ensures defined { IfOk result (λ q. q ≡ r.now) }
    ensures fits { IfOk result RegionFits }
{
    let mut pieces = List::from_vec(Vec::with_capacity(alloc, r.pieces.len())?);
    push_copies(&mut pieces, r.pieces.as_slice())?;
    Ok(Region {
        variable: copy_variable(&r.variable)?,
        kind: r.kind,
        exact: r.exact,
        pieces,
    })
}
