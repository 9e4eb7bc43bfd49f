//! The modules that call a module, with what is kept of them.
ghost use Rattle.std.specs.Prelude.{◌≡◌, ◌++◌, map, option_to_list, IfOk};
ghost use Rattle.loop_marker.specs.module_phases.Callers.{holds_tree, outs_tree, AllHold, AllOuts};
ghost use Rattle.session_texts.specs.pipsmake_meaning.Definitions.{module_named};
ghost use Rattle.session_texts.specs.pipsmake_meaning.Rules.{preconditions_kept, transformers_kept, outs_kept, holding_with, holding_callers, outs_with, later_callers};
ghost use Rattle.result_store.specs.Rows.{memo_cells_of};

use crate::modules::own_of;
use fx_lists::Text;
use loop_marker::module_phases::{CallerHolds, CallerOuts};
use result_store::Store;
use session_texts::Sources;
use std::alloc::{AllocError as Memory, Global};

/// Adds a calling module with its preconditions, where both are there.
fn add_holding<'x>(
    above: &mut Vec<CallerHolds<'x>>,
    sources: &'x Sources,
    store: &'x Store,
    name: &'x Text,
) -> Result<(), Memory>
    requires { AllHold above.old.items }
    ensures added { IfOk result (λ _. map holds_tree above.new.items ≡ map holds_tree above.old.items ++ option_to_list (holding_with (module_named sources.now name.now) (preconditions_kept (memo_cells_of store.now) name.now))) }
    ensures fits { IfOk result (λ _. AllHold above.new.items) }
{
    let Some(own) = own_of(sources, name) else {
        return Ok(());
    };
    let Some(found) = store.preconditions(name) else {
        return Ok(());
    };
    above.push(CallerHolds {
        module: &own.parsed.module,
        symbols: own.symbols,
        holds: &found.at,
    })?;
    Ok(())
}

/// The modules of these names with their preconditions.
pub(crate) fn holding_above<'x>(
    alloc: Global,
    sources: &'x Sources,
    store: &'x Store,
    names: &'x [Text],
) -> Result<Vec<CallerHolds<'x>>, Memory>
    ensures defined { IfOk result (λ above. map holds_tree above.items ≡ holding_callers (memo_cells_of store.now) sources.now names.now) }
    ensures fits { IfOk result (λ above. AllHold above.items) }
{
    let mut above = Vec::new(alloc);
    let mut rest = names;
    while let [name, more @ ..] = rest {
        add_holding(&mut above, sources, store, name)?;
        rest = more;
    }
    Ok(above)
}

/// Adds a calling module with its transformers and OUT regions, where all are there.
fn add_later<'x>(
    above: &mut Vec<CallerOuts<'x>>,
    sources: &'x Sources,
    store: &'x Store,
    name: &'x Text,
) -> Result<(), Memory>
    requires { AllOuts above.old.items }
    ensures added { IfOk result (λ _. map outs_tree above.new.items ≡ map outs_tree above.old.items ++ option_to_list (outs_with (module_named sources.now name.now) (transformers_kept (memo_cells_of store.now) name.now) (outs_kept (memo_cells_of store.now) name.now))) }
    ensures fits { IfOk result (λ _. AllOuts above.new.items) }
{
    let Some(own) = own_of(sources, name) else {
        return Ok(());
    };
    let Some(transformers) = store.transformers(name) else {
        return Ok(());
    };
    let Some(found) = store.out_regions(name) else {
        return Ok(());
    };
    above.push(CallerOuts {
        module: &own.parsed.module,
        symbols: own.symbols,
        own: transformers,
        outs: &found.at,
    })?;
    Ok(())
}

/// The modules of these names with their transformers and OUT regions.
pub(crate) fn later_above<'x>(
    alloc: Global,
    sources: &'x Sources,
    store: &'x Store,
    names: &'x [Text],
) -> Result<Vec<CallerOuts<'x>>, Memory>
    ensures defined { IfOk result (λ above. map outs_tree above.items ≡ later_callers (memo_cells_of store.now) sources.now names.now) }
    ensures fits { IfOk result (λ above. AllOuts above.items) }
{
    let mut above = Vec::new(alloc);
    let mut rest = names;
    while let [name, more @ ..] = rest {
        add_later(&mut above, sources, store, name)?;
        rest = more;
    }
    Ok(above)
}
