//! What a module accesses where it is entered, and what its callers see.
ghost use Rattle.std.specs.Prelude.{◌≡◌, ◌+◌, ◌++◌, map, filter, IfOk, OnOk};
ghost use Rattle.f77_ast.specs.Symbols.{symbol_tree, bound_tree};
ghost use Rattle.transformers.specs.call_translation.Scopes.{scope_tree};
ghost use Rattle.hull_projection.specs.Minus.{AllFit};
ghost use Rattle.region_translation.specs.region_sets.Regions.{RegionFits};
ghost use Rattle.region_translation.specs.region_sets.Sets.{SetFits};
ghost use Rattle.array_regions.specs.Entry.{bounds_reads, symbols_reads, locals_from, locals as locals_is, names_none as names_none_is, for_callers as for_callers_is, seen, summary_of as summary_of_is};

use crate::reads::{push_maybe_reads, push_reads};
use affine_systems::System;
use call_graph::{is_local, is_visible_to_callers};
use f77_ast::{Bound, Symbols};
use fx_lists::List;
use region_translation::region_sets::{
    Region, RegionSet, has_none, named_cells, push_region, push_regions, push_system, remade,
    unite_all,
};
use std::alloc::{AllocError as Memory, Global};
use transformers::call_translation::{CellScope, next_number};
use transformers::transformer_algebra::without;

/// Adds what the bounds of an array read.
#[tactic(auto, using(crate::proofs::Fitting::fitting))]
fn push_bounds_reads(
    alloc: Global,
    out: &mut RegionSet,
    scope: &CellScope<'_>,
    bounds: &[Bound],
) -> Result<(), Memory>
    requires { SetFits out.old }
    ensures added { OnOk result (out.new ≡ out.old ++ bounds_reads (map bound_tree bounds.now) (scope_tree scope.now.symbols.now scope.now.tracked.now)) }
    ensures fits { OnOk result (SetFits out.new) }
{
    let mut rest = bounds;
    while let [bound, more @ ..] = rest {
        push_reads(alloc, out, scope, &bound.low)?;
        push_maybe_reads(alloc, out, scope, &bound.high)?;
        rest = more;
    }
    Ok(())
}

/// What the bounds of all arrays read.
#[tactic(auto, using(crate::proofs::Fitting::fitting))]
pub fn entry_reads(alloc: Global, scope: &CellScope<'_>) -> Result<RegionSet, Memory>
    ensures defined { IfOk result (λ rs. rs ≡ symbols_reads (map symbol_tree scope.now.symbols.now) (scope_tree scope.now.symbols.now scope.now.tracked.now)) }
    ensures fits { IfOk result SetFits }
{
    let mut out = List::new(alloc);
    let mut rest = scope.symbols.as_slice();
    while let [symbol, more @ ..] = rest {
        push_bounds_reads(alloc, &mut out, scope, symbol.bounds.as_slice())?;
        rest = more;
    }
    Ok(out)
}

/// The numbers of the locals. Memory also where the module has 2^32 symbols or more.
#[tactic(auto, using(crate::proofs::Steps::locals))]
fn locals(alloc: Global, symbols: &Symbols) -> Result<Vec<u32>, Memory>
    ensures { IfOk result (λ ns. ns.items ≡ locals_is (map symbol_tree symbols.now)) }
{
    let mut out = Vec::new(alloc);
    let mut number = 0u32;
    let mut rest = symbols.as_slice();
    while let [symbol, more @ ..] = rest {
        number = next_number(number)?;
        if is_local(&symbol.place) {
            out.push(number)?;
        }
        rest = more;
    }
    Ok(out)
}

/// Whether no system names one of the cells.
#[tactic(auto, using(crate::proofs::Fitting::fitting))]
pub fn names_none(alloc: Global, cells: &[u32], pieces: &[System]) -> Result<bool, Memory>
    ensures { IfOk result (λ b. b ≡ names_none_is cells.now pieces.now) }
{
    let mut rest = pieces;
    while let [piece, more @ ..] = rest {
        if !has_none(named_cells(alloc, cells, piece)?.as_slice()) {
            return Ok(false);
        }
        rest = more;
    }
    Ok(true)
}

/// A region whatever numbers these cells have; not exact where it names one.
#[tactic(auto, using(crate::proofs::Fitting::fitting))]
fn for_callers(alloc: Global, cells: &[u32], r: &Region) -> Result<Region, Memory>
    requires { RegionFits r.now }
    ensures defined { IfOk result (λ q. q ≡ for_callers_is cells.now r.now) }
    ensures fits { IfOk result RegionFits }
{
    let plain = names_none(alloc, cells, r.pieces.as_slice())?;
    let mut pieces = List::new(alloc);
    let mut rest = r.pieces.as_slice();
    while let [piece, more @ ..] = rest {
        push_system(&mut pieces, without(alloc, cells, piece)?)?;
        rest = more;
    }
    remade(r, r.exact && plain, pieces)
}

/// The regions of a set that callers see, without locals.
#[tactic(auto, using(crate::proofs::Fitting::fitting))]
pub fn all_seen(alloc: Global, symbols: &Symbols, set: &[Region]) -> Result<RegionSet, Memory>
    requires { SetFits set.now }
    ensures defined { IfOk result (λ rs. rs ≡ seen (map symbol_tree symbols.now) (locals_is (map symbol_tree symbols.now)) set.now) }
    ensures fits { IfOk result SetFits }
{
    let cells = locals(alloc, symbols)?;
    let mut out = List::new(alloc);
    let mut rest = set;
    while let [r, more @ ..] = rest {
        if is_visible_to_callers(symbols, &r.variable) {
            push_region(&mut out, for_callers(alloc, cells.as_slice(), r)?)?;
        }
        rest = more;
    }
    Ok(out)
}

/// The regions of a module that its callers see, from those of its body: of dummies, of variables of common blocks and of saved variables,
/// for any values of its locals, and not exact where the systems name one. The bounds of its arrays are read where it is entered.
pub fn summary_of(
    alloc: Global,
    scope: &CellScope<'_>,
    body: &[Region],
) -> Result<RegionSet, Memory>
    requires { SetFits body.now }
    ensures defined { IfOk result (λ rs. rs ≡ summary_of_is (scope_tree scope.now.symbols.now scope.now.tracked.now) body.now) }
    ensures fits { IfOk result SetFits }
{
    let mut all = entry_reads(alloc, scope)?;
    push_regions(alloc, &mut all, body)?;
    let set = unite_all(alloc, all.as_slice())?;
    let out = all_seen(alloc, scope.symbols, set.as_slice())?;
    unite_all(alloc, out.as_slice())
}
