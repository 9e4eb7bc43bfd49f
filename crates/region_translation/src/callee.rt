//! What a region of the caller is to the module that it calls.
ghost use Rattle.std.specs.Prelude.{◌≡◌, ◌++◌, ◌∷◌, [], map, IfOk, OnOk};
ghost use Rattle.hull_projection.specs.Minus.{AllFit};
ghost use Rattle.region_sets.specs.Regions.{RegionFits};
ghost use Rattle.region_sets.specs.Sets.{SetFits};
ghost use Rattle.call_equations.specs.Sides.{sides_tree};
ghost use Rattle.region_translation.specs.Units.{size_in};
ghost use Rattle.region_translation.specs.Links.{LinkFits, AllLinksFit, subscripts_of as subscripts_of_is};
ghost use Rattle.region_translation.specs.CalleePieces.{piece_in_callee as piece_in_callee_is};
ghost use Rattle.region_translation.specs.CalleeLaws.{SendsUnits};
ghost use Rattle.region_translation.specs.Callee.{by_link as by_link_is, to_callee as to_callee_is};

use crate::callee_pieces::piece_in_callee;
use crate::links::{CalleeLink, callee_links, subscripts_of};
use affine_systems::System;
use call_equations::CallSides;
use call_graph::Graph;
use f77_ast::copy_variable;
use fx_lists::List;
use region_sets::{Region, RegionSet, push_region, push_system, unite_all};
use std::alloc::{AllocError as Memory, Global};

/// Systems of a variable of the caller, which has `rank` subscripts, by a link.
#[tactic(auto, using(region_sets::proofs::Steps::fitting))]
fn all_pieces(
    alloc: Global,
    sides: &CallSides<'_>,
    rank: u32,
    link: &CalleeLink,
    pieces: &[System],
) -> Result<List<System>, Memory>
    requires link { LinkFits link.now }
    requires pieces { AllFit pieces.now }
    ensures defined { IfOk result (λ ss. ss ≡ map (piece_in_callee_is (sides_tree sides.now) link.now.moved rank link.now.rows) pieces.now) }
    ensures fits { IfOk result AllFit }
{
    let mut out = List::new(alloc);
    let mut rest = pieces;
    while let [piece, more @ ..] = rest {
        let one = piece_in_callee(alloc, sides, rank, link, piece)?;
        push_system(&mut out, one)?;
        rest = more;
    }
    Ok(out)
}

/// The systems of a region of the caller by a link.
fn pieces_of(
    alloc: Global,
    sides: &CallSides<'_>,
    link: &CalleeLink,
    r: &Region,
) -> Result<List<System>, Memory>
    requires link { LinkFits link.now }
    requires region { RegionFits r.now }
    ensures defined { IfOk result (λ ss. ss ≡ map (piece_in_callee_is (sides_tree sides.now) link.now.moved (subscripts_of_is (sides_tree sides.now) r.now.variable) link.now.rows) r.now.pieces) }
    ensures fits { IfOk result AllFit }
{
    let rank = subscripts_of(sides, &r.variable)?;
    all_pieces(alloc, sides, rank, link, r.pieces.as_slice())
}

fn by_link(
    alloc: Global,
    sides: &CallSides<'_>,
    link: &CalleeLink,
    r: &Region,
) -> Result<Region, Memory>
    requires link { LinkFits link.now }
    requires region { RegionFits r.now }
    ensures defined { IfOk result (λ q. q ≡ by_link_is (sides_tree sides.now) r.now link.now) }
    ensures fits { IfOk result RegionFits }
{
    let pieces = pieces_of(alloc, sides, link, r)?;
    let variable = copy_variable(&link.variable)?;
    Ok(Region {
        variable,
        kind: r.kind,
        exact: false,
        pieces,
    })
}

/// Adds a region of the caller by a link.
#[tactic(auto, using(region_sets::proofs::Steps::fitting))]
fn push_by_link(
    alloc: Global,
    out: &mut RegionSet,
    sides: &CallSides<'_>,
    link: &CalleeLink,
    r: &Region,
) -> Result<(), Memory>
    requires out { SetFits out.old }
    requires link { LinkFits link.now }
    requires region { RegionFits r.now }
    ensures added { OnOk result (out.new ≡ out.old ++ by_link_is (sides_tree sides.now) r.now link.now ∷ []) }
    ensures fits { OnOk result (SetFits out.new) }
{
    push_region(out, by_link(alloc, sides, link, r)?)
}

#[tactic(auto, using(region_sets::proofs::Steps::fitting))]
fn by_links(
    alloc: Global,
    sides: &CallSides<'_>,
    links: &[CalleeLink],
    r: &Region,
) -> Result<RegionSet, Memory>
    requires links { AllLinksFit links.now }
    requires region { RegionFits r.now }
    ensures defined { IfOk result (λ rs. rs ≡ map (by_link_is (sides_tree sides.now) r.now) links.now) }
    ensures fits { IfOk result SetFits }
{
    let mut all = List::new(alloc);
    let mut rest = links;
    while let [link, more @ ..] = rest {
        push_by_link(alloc, &mut all, sides, link, r)?;
        rest = more;
    }
    Ok(all)
}

fn translated(
    alloc: Global,
    graph: &Graph,
    sides: &CallSides<'_>,
    r: &Region,
) -> Result<RegionSet, Memory>
    requires { RegionFits r.now }
    ensures defined { IfOk result (λ rs. rs ≡ to_callee_is (size_in graph.now.blocks) (sides_tree sides.now) r.now) }
    ensures fits { IfOk result SetFits }
{
    let links = callee_links(alloc, graph, sides, &r.variable)?;
    let all = by_links(alloc, sides, links.as_slice(), r)?;
    unite_all(alloc, all.as_slice())
}

/// The regions of the callee's variables, where it begins, that may have units of a region of the caller at the CALL (ANSI X3.9-1978, §15.9.3,
/// §8.3); of a block, where no variable of the callee has a unit of it. None is exact. Each symbol of the callee is looked at. Err also where the
/// variable, or one of the callee, takes 2^64 units, or has more than 254 subscripts.
pub fn to_callee(
    alloc: Global,
    graph: &Graph,
    sides: &CallSides<'_>,
    r: &Region,
) -> Result<RegionSet, Memory>
    requires { RegionFits r.now }
    ensures defined { IfOk result (λ rs. rs ≡ to_callee_is (size_in graph.now.blocks) (sides_tree sides.now) r.now) }
    ensures fits { IfOk result SetFits }
    ensures sound { IfOk result (SendsUnits (size_in graph.now.blocks) (sides_tree sides.now) r.now) }
{
    translated(alloc, graph, sides, r)
}
