//! What holds where statements begin, callers before callees.
ghost use Rattle.std.specs.Prelude.{◌≡◌, ◌++◌, ◌∷◌, [], ℕ, List, All, map, reverse, length, IfOk};
ghost use Rattle.affine_systems.specs.Given.{Fits};
ghost use Rattle.f77_ast.specs.PlainDecl.{parsed_tree};
ghost use Rattle.f77_ast.specs.Symbols.{symbol_tree};
ghost use Rattle.f77_meaning.specs.Modules.{known_of};
ghost use Rattle.preconditions.specs.call_translation.Sites.{sites_in, AllSitesFit};
ghost use Rattle.preconditions.specs.transformers.Lists.{transformer_at};
ghost use Rattle.preconditions.specs.Statement.{EachFits};
ghost use Rattle.preconditions.specs.Entry.{entry_of as entry_of_is};
ghost use Rattle.preconditions.specs.Modules.{preconditions_of};
ghost use Rattle.module_phases.specs.ScalarPhases.{scope_of, caller_of, list_sites, analysis_of as analysis_of_is, analyses_from, analyses as analyses_is};
ghost use Rattle.module_phases.specs.ScalarViews.{known_in, known, found_tree, analysis_tree, OwnFits, FoundFits, AnalysisFits, SitesFit};
ghost use Rattle.preconditions.specs.call_translation.NamedSites.{sites_for};

use crate::Found;
use crate::found::found_in;
use crate::program::Program;
use crate::scalar_walk::{Caller, add_list};
use affine_systems::System;
use call_graph::{Graph, View};
use f77_ast::{Parsed, Results, Symbols};
use fx_lists::List;
use in_out_regions::call_translation::{CallSites, NamedSites, caller_scope};
use preconditions::transformer_algebra::Transformer;
use preconditions::{entry_from, preconditions};
use std::alloc::{AllocError as Memory, Global};
use tracked_cells::Names;

/// The analyses of a module: its transformers, and the preconditions of its statements with, as their summary, what holds where the module is
/// entered.
#[derive(Drop)]
pub struct Analysis<'a> {
    pub found: Found<'a>,
    pub holds: Results<System>,
}

/// What holds where a module is entered, from these CALLs.
fn entry_with(alloc: Global, view: &View<'_>, calls: &CallSites<System>) -> Result<System, Memory>
    requires { AllSitesFit (sites_in calls.now) }
    ensures defined { IfOk result (λ s. s ≡ entry_of_is (known_in view.now).read.main (scope_of view.now.graph.now.untracked (known_in view.now)) (sites_in calls.now)) }
    ensures fits { IfOk result Fits }
{
    entry_from(alloc, view, calls)
}

/// What holds where a module is entered, from the CALLs of it.
fn entry_of(alloc: Global, view: &View<'_>, sites: &NamedSites<System>) -> Result<System, Memory>
    requires { SitesFit sites.now }
    ensures defined { IfOk result (λ s. s ≡ entry_of_is (known_in view.now).read.main (scope_of view.now.graph.now.untracked (known_in view.now)) (sites_for sites.now (known_in view.now).read.name)) }
    ensures fits { IfOk result Fits }
{
    match sites.of(&view.module.name) {
        None => entry_with(alloc, view, &CallSites::new(alloc)),
        Some(calls) => entry_with(alloc, view, calls),
    }
}

/// What holds where the statements of a module begin, from what they do and from what holds where it is entered.
fn holds_of(
    alloc: Global,
    view: &View<'_>,
    own: &Results<Transformer>,
    entry: &System,
) -> Result<Results<System>, Memory>
    requires own { OwnFits own.now }
    requires entry { Fits entry.now }
    ensures defined { IfOk result (λ r. r ≡ preconditions_of (known_in view.now).read.body (scope_of view.now.graph.now.untracked (known_in view.now)) (transformer_at own.now.at) entry.now) }
    ensures fits { IfOk result (λ r. EachFits r.at) }
{
    preconditions(alloc, view, own, entry)
}

/// What the analyses say of a module, from the CALLs of it in those before it.
fn analysis_of<'a>(
    alloc: Global,
    graph: &Graph,
    found: Found<'a>,
    sites: &NamedSites<System>,
) -> Result<Analysis<'a>, Memory>
    requires found { FoundFits found }
    requires sites { SitesFit sites.now }
    ensures defined { IfOk result (λ a. analysis_tree a ≡ analysis_of_is graph.now.untracked (sites_for sites.now (found_tree found.entry).known.read.name) (found_tree found.entry)) }
    ensures fits { IfOk result AnalysisFits }
{
    let view = View {
        module: found.module,
        symbols: found.symbols,
        graph,
    };
    let entry = entry_of(alloc, &view, sites)?;
    let holds = holds_of(alloc, &view, &found.own, &entry)?;
    Ok(Analysis { found, holds })
}

/// Adds the CALLs of a module that was looked at.
fn add_sites(
    alloc: Global,
    graph: &Graph,
    analysis: &Analysis<'_>,
    sites: &mut NamedSites<System>,
) -> Result<(), Memory>
    requires analysis { AnalysisFits analysis.now }
    requires sites { SitesFit sites.old }
    ensures added { IfOk result (λ _. (x : List ℕ) → sites_for sites.new x ≡ sites_for sites.old x ++ list_sites (analysis_tree analysis.now).found.known.read.body (caller_of graph.now.untracked (analysis_tree analysis.now)) x) }
    ensures fits { IfOk result (λ _. SitesFit sites.new) }
{
    let view = View {
        module: analysis.found.module,
        symbols: analysis.found.symbols,
        graph,
    };
    let scope = caller_scope(alloc, &view)?;
    let caller = Caller {
        scope: &scope,
        holds: &analysis.holds.at,
    };
    add_list(&caller, &analysis.found.module.body, sites)
}

/// Adds what the analyses say of a module behind those of its callers, and its CALLs to theirs.
#[tactic(auto, using(crate::proofs::ScalarPhaseLaws::one_more))]
fn add_analysis<'a>(
    alloc: Global,
    graph: &Graph,
    found: Found<'a>,
    sites: &mut NamedSites<System>,
    all: &mut Vec<Analysis<'a>>,
) -> Result<(), Memory>
    requires found { FoundFits found }
    requires sites { SitesFit sites.old }
    requires all { All AnalysisFits all.old.items }
    ensures added { IfOk result (λ _. map analysis_tree all.new.items ≡ map analysis_tree all.old.items ++ analysis_of_is graph.now.untracked (sites_for sites.old (found_tree found.entry).known.read.name) (found_tree found.entry) ∷ []) }
    ensures sites { IfOk result (λ _. let a = analysis_of_is graph.now.untracked (sites_for sites.old (found_tree found.entry).known.read.name) (found_tree found.entry) in (x : List ℕ) → sites_for sites.new x ≡ sites_for sites.old x ++ list_sites a.found.known.read.body (caller_of graph.now.untracked a) x) }
    ensures sites_fit { IfOk result (λ _. SitesFit sites.new) }
    ensures fits { IfOk result (λ _. All AnalysisFits all.new.items) }
{
    let analysis = analysis_of(alloc, graph, found, sites)?;
    add_sites(alloc, graph, &analysis, sites)?;
    all.push(analysis)?;
    Ok(())
}

/// What holds in modules, the last of them first.
#[tactic(auto, using(crate::proofs::ScalarPhaseLaws::analysis_steps))]
fn all_from<'a>(
    alloc: Global,
    graph: &Graph,
    mut left: Vec<Found<'a>>,
) -> Result<Vec<Analysis<'a>>, Memory>
    requires { All FoundFits left.items }
    ensures defined { IfOk result (λ all. map analysis_tree all.items ≡ analyses_from graph.now.untracked [] (reverse (map found_tree left.entry.items))) }
    ensures fits { IfOk result (λ all. All AnalysisFits all.items) }
{
    let mut sites = NamedSites::new(alloc);
    let mut all = Vec::new(alloc);
    while let Some(found) = left.pop() {
        add_analysis(alloc, graph, found, &mut sites, &mut all)?;
    }
    Ok(all)
}

/// The analyses of the analysed scalars of each module of a program that `graph` links, callers before callees. `tables` has the symbols of
/// each module, in the order of `modules`.
#[tactic(auto, using(crate::proofs::ModuleLaws::named))]
pub fn analyses<'a>(
    alloc: Global,
    modules: &'a List<Parsed>,
    tables: &'a List<Symbols>,
    graph: &'a Graph,
) -> Result<Vec<Analysis<'a>>, Memory>
    requires one_each { length modules.now ≡ length tables.now }
    ensures defined { IfOk result (λ all. map analysis_tree all.items ≡ analyses_is (known_of (map parsed_tree modules.now) (map (map symbol_tree) tables.now)) graph.now) }
    ensures fits { IfOk result (λ all. All AnalysisFits all.items) }
{
    let names = Names::of(alloc, modules)?;
    let program = Program {
        modules,
        tables,
        graph,
        names,
    };
    let found = found_in(alloc, &program)?;
    all_from(alloc, graph, found)
}
