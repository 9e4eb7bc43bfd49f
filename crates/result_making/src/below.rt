//! The modules that a module calls, with what is kept of them.
ghost use Rattle.std.specs.Prelude.{◌≡◌, ◌++◌, map, option_to_list, IfOk, IfSome, option_copied};
ghost use Rattle.loop_marker.specs.module_phases.RegionViews.{RegionsFit};
ghost use Rattle.loop_marker.specs.module_phases.Callees.{callee_tree, AllFit, AllSetsFit};
ghost use Rattle.session_texts.specs.pipsmake_meaning.Definitions.{module_named};
ghost use Rattle.session_texts.specs.pipsmake_meaning.Rules.{effects_kept, transformers_kept, regions_kept, ins_kept, callee_with, callees_with};
ghost use Rattle.result_store.specs.Rows.{memo_cells_of};

use crate::modules::own_of;
use f77_ast::{EffectSet, Results};
use fx_lists::Text;
use loop_marker::module_phases::Callee;
use loop_marker::region_sets::RegionSet;
use preconditions::transformer_algebra::Transformer;
use result_store::Store;
use session_texts::Sources;
use std::alloc::{AllocError as Memory, Global};

/// Adds a called module with its effects, where both are there.
fn add_effects<'x>(
    below: &mut Vec<Callee<'x, EffectSet>>,
    sources: &'x Sources,
    store: &'x Store,
    name: &'x Text,
) -> Result<(), Memory>
    ensures { IfOk result (λ _. map callee_tree below.new.items ≡ map callee_tree below.old.items ++ option_to_list (callee_with name.now (module_named sources.now name.now) (effects_kept (memo_cells_of store.now) name.now))) }
{
    let Some(own) = own_of(sources, name) else {
        return Ok(());
    };
    let Some(found) = store.effects(name) else {
        return Ok(());
    };
    below.push(Callee {
        name,
        symbols: own.symbols,
        summary: &found.summary,
    })?;
    Ok(())
}

/// The modules of these names with their effects.
pub(crate) fn effects_below<'x>(
    alloc: Global,
    sources: &'x Sources,
    store: &'x Store,
    names: &'x [Text],
) -> Result<Vec<Callee<'x, EffectSet>>, Memory>
    ensures { IfOk result (λ below. map callee_tree below.items ≡ callees_with (effects_kept (memo_cells_of store.now)) sources.now names.now) }
{
    let mut below = Vec::new(alloc);
    let mut rest = names;
    while let [name, more @ ..] = rest {
        add_effects(&mut below, sources, store, name)?;
        rest = more;
    }
    Ok(below)
}

/// Adds a called module with its transformers, where both are there.
fn add_transformers<'x>(
    below: &mut Vec<Callee<'x, Transformer>>,
    sources: &'x Sources,
    store: &'x Store,
    name: &'x Text,
) -> Result<(), Memory>
    requires { AllFit below.old.items }
    ensures added { IfOk result (λ _. map callee_tree below.new.items ≡ map callee_tree below.old.items ++ option_to_list (callee_with name.now (module_named sources.now name.now) (transformers_kept (memo_cells_of store.now) name.now))) }
    ensures fits { IfOk result (λ _. AllFit below.new.items) }
{
    let Some(own) = own_of(sources, name) else {
        return Ok(());
    };
    let Some(found) = store.transformers(name) else {
        return Ok(());
    };
    below.push(Callee {
        name,
        symbols: own.symbols,
        summary: &found.summary,
    })?;
    Ok(())
}

/// The modules of these names with their transformers.
pub(crate) fn transformers_below<'x>(
    alloc: Global,
    sources: &'x Sources,
    store: &'x Store,
    names: &'x [Text],
) -> Result<Vec<Callee<'x, Transformer>>, Memory>
    ensures defined { IfOk result (λ below. map callee_tree below.items ≡ callees_with (transformers_kept (memo_cells_of store.now)) sources.now names.now) }
    ensures fits { IfOk result (λ below. AllFit below.items) }
{
    let mut below = Vec::new(alloc);
    let mut rest = names;
    while let [name, more @ ..] = rest {
        add_transformers(&mut below, sources, store, name)?;
        rest = more;
    }
    Ok(below)
}

/// Adds a called module with these regions, where both are there.
fn add_regions<'x>(
    below: &mut Vec<Callee<'x, RegionSet>>,
    sources: &'x Sources,
    name: &'x Text,
    kept: Option<&'x Results<RegionSet>>,
) -> Result<(), Memory>
    requires below { AllSetsFit below.old.items }
    requires kept { IfSome kept (λ r. RegionsFit r.now) }
    ensures added { IfOk result (λ _. map callee_tree below.new.items ≡ map callee_tree below.old.items ++ option_to_list (callee_with name.now (module_named sources.now name.now) (option_copied kept.entry))) }
    ensures fits { IfOk result (λ _. AllSetsFit below.new.items) }
{
    let Some(own) = own_of(sources, name) else {
        return Ok(());
    };
    let Some(found) = kept else {
        return Ok(());
    };
    below.push(Callee {
        name,
        symbols: own.symbols,
        summary: &found.summary,
    })?;
    Ok(())
}

/// The modules of these names with their READ and WRITE regions.
pub(crate) fn regions_below<'x>(
    alloc: Global,
    sources: &'x Sources,
    store: &'x Store,
    names: &'x [Text],
) -> Result<Vec<Callee<'x, RegionSet>>, Memory>
    ensures defined { IfOk result (λ below. map callee_tree below.items ≡ callees_with (regions_kept (memo_cells_of store.now)) sources.now names.now) }
    ensures fits { IfOk result (λ below. AllSetsFit below.items) }
{
    let mut below = Vec::new(alloc);
    let mut rest = names;
    while let [name, more @ ..] = rest {
        add_regions(&mut below, sources, name, store.regions(name))?;
        rest = more;
    }
    Ok(below)
}

/// The modules of these names with their IN regions.
pub(crate) fn ins_below<'x>(
    alloc: Global,
    sources: &'x Sources,
    store: &'x Store,
    names: &'x [Text],
) -> Result<Vec<Callee<'x, RegionSet>>, Memory>
    ensures defined { IfOk result (λ below. map callee_tree below.items ≡ callees_with (ins_kept (memo_cells_of store.now)) sources.now names.now) }
    ensures fits { IfOk result (λ below. AllSetsFit below.items) }
{
    let mut below = Vec::new(alloc);
    let mut rest = names;
    while let [name, more @ ..] = rest {
        add_regions(&mut below, sources, name, store.in_regions(name))?;
        rest = more;
    }
    Ok(below)
}
