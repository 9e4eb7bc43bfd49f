//! What statements do, callees before callers.
ghost use Rattle.std.specs.Prelude.{◌≡◌, ◌++◌, ◌∷◌, [], ℕ, List, Some, All, map, option_map, option_to_list, IfOk};
ghost use Rattle.affine_systems.specs.Given.{Fits};
ghost use Rattle.f77_ast.specs.PlainStmt.{stmt_trees};
ghost use Rattle.f77_ast.specs.Summaries.{summary_in};
ghost use Rattle.preconditions.specs.transformers.Given.{CalleesFit};
ghost use Rattle.preconditions.specs.transformers.Modules.{transformers_of};
ghost use Rattle.module_phases.specs.ScalarPhases.{scope_of, module_of as module_of_is, no_callees, found_of, maybe_found, with_callee, found_in as found_in_is};
ghost use Rattle.module_phases.specs.ScalarViews.{known_in, modules_in, IsNamed, found_tree, OwnFits, FoundFits};

use crate::program::{Program, module_of};
use call_graph::View;
use f77_ast::{EffectSet, Module, Results, Summaries, Symbols};
use fx_lists::{List, Text};
use in_out_regions::transformers::{copy_transformer, transformers};
use preconditions::transformer_algebra::Transformer;
use std::alloc::{AllocError as Memory, Global};

/// A module with its symbols, the transformers of its statements and, as their summary, what its callers see.
#[derive(Drop)]
pub struct Found<'a> {
    pub module: &'a Module,
    pub symbols: &'a Symbols,
    pub own: Results<Transformer>,
}

fn no_effects(alloc: Global) -> Results<EffectSet> {
    Results {
        at: List::new(alloc),
        summary: EffectSet::none(alloc),
    }
}

/// What the statements of a module do, with the summaries of those that it calls.
fn own_of(
    alloc: Global,
    view: &View<'_>,
    callees: &Summaries<Transformer>,
) -> Result<Results<Transformer>, Memory>
    requires { CalleesFit (summary_in callees.now) }
    ensures defined { IfOk result (λ r. r ≡ transformers_of (known_in view.now).read.body (scope_of view.now.graph.now.untracked (known_in view.now)) (summary_in callees.now)) }
    ensures fits { IfOk result OwnFits }
{
    transformers(alloc, view, &no_effects(alloc), callees)
}

/// Adds the summary of a module.
fn add_summary(
    alloc: Global,
    view: &View<'_>,
    own: &Results<Transformer>,
    callees: &mut Summaries<Transformer>,
) -> Result<(), Memory>
    requires callees { CalleesFit (summary_in callees.old) }
    requires own { Fits own.now.summary.system }
    ensures added { IfOk result (λ _. (x : List ℕ) → summary_in callees.new x ≡ with_callee (Some (record { known = known_in view.now; own = own.now })) (summary_in callees.old) x) }
    ensures fits { IfOk result (λ _. CalleesFit (summary_in callees.new)) }
{
    let summary = copy_transformer(alloc, &own.summary)?;
    callees.add(&view.module.name, view.symbols, summary)
}

/// Adds a module behind others.
#[tactic(auto, using(crate::proofs::ScalarPhaseLaws::one_more))]
fn add_module<'a>(
    alloc: Global,
    view: View<'a>,
    callees: &mut Summaries<Transformer>,
    all: &mut Vec<Found<'a>>,
) -> Result<(), Memory>
    requires callees { CalleesFit (summary_in callees.old) }
    requires all { All FoundFits all.old.items }
    ensures added { IfOk result (λ _. map found_tree all.new.items ≡ map found_tree all.old.items ++ found_of view.entry.graph.now.untracked (summary_in callees.old) (known_in view.entry) ∷ []) }
    ensures callees { IfOk result (λ _. (x : List ℕ) → summary_in callees.new x ≡ with_callee (Some (found_of view.entry.graph.now.untracked (summary_in callees.old) (known_in view.entry))) (summary_in callees.old) x) }
    ensures callees_fit { IfOk result (λ _. CalleesFit (summary_in callees.new)) }
    ensures fits { IfOk result (λ _. All FoundFits all.new.items) }
{
    let own = own_of(alloc, &view, callees)?;
    add_summary(alloc, &view, &own, callees)?;
    all.push(Found {
        module: view.module,
        symbols: view.symbols,
        own,
    })?;
    Ok(())
}

/// Adds the module of a name, where there is one.
#[tactic(auto, using(crate::proofs::ScalarPhaseLaws::one_more))]
fn add_named<'a>(
    alloc: Global,
    program: &Program<'a>,
    name: &Text,
    callees: &mut Summaries<Transformer>,
    all: &mut Vec<Found<'a>>,
) -> Result<(), Memory>
    requires named { IsNamed program.now }
    requires callees { CalleesFit (summary_in callees.old) }
    requires all { All FoundFits all.old.items }
    ensures added { IfOk result (λ _. map found_tree all.new.items ≡ map found_tree all.old.items ++ option_to_list (maybe_found program.now.graph.now.untracked (summary_in callees.old) (module_of_is (modules_in program.now) name.now))) }
    ensures callees { IfOk result (λ _. (x : List ℕ) → summary_in callees.new x ≡ with_callee (maybe_found program.now.graph.now.untracked (summary_in callees.old) (module_of_is (modules_in program.now) name.now)) (summary_in callees.old) x) }
    ensures callees_fit { IfOk result (λ _. CalleesFit (summary_in callees.new)) }
    ensures fits { IfOk result (λ _. All FoundFits all.new.items) }
{
    match module_of(program, name) {
        None => Ok(()),
        Some(view) => add_module(alloc, view, callees, all),
    }
}

/// The transformers of each module, in the order of the graph, callees before callers. A name in the graph without a module is passed over.
#[tactic(auto, using(crate::proofs::ScalarPhaseLaws::found_steps))]
pub fn found_in<'a>(alloc: Global, program: &Program<'a>) -> Result<Vec<Found<'a>>, Memory>
    requires { IsNamed program.now }
    ensures defined { IfOk result (λ all. map found_tree all.items ≡ found_in_is program.now.graph.now.untracked (modules_in program.now) no_callees program.now.graph.now.order) }
    ensures fits { IfOk result (λ all. All FoundFits all.items) }
{
    let mut all = Vec::new(alloc);
    let mut callees = Summaries::new(alloc);
    for name in program.graph.order.as_slice() {
        add_named(alloc, program, name, &mut callees, &mut all)?;
    }
    Ok(all)
}
