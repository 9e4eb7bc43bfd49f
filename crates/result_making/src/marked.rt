//! The marks of the loops of a module.
ghost use Rattle.std.specs.Prelude.{◌≡◌, IfOk, IfSome};
ghost use Rattle.std.specs.Option.{option_map};
ghost use Rattle.loop_marker.specs.dependence_test.Given.{AnalysisFits};
ghost use Rattle.loop_marker.specs.module_phases.ScalarViews.{known_in};
ghost use Rattle.session_texts.specs.pipsmake_meaning.Rules.{rule_of};
ghost use Rattle.session_texts.specs.pipsmake_meaning.Texts.{graph_of};
ghost use Rattle.result_store.specs.Rows.{memo_cells_of};
ghost use Rattle.result_store.specs.Values.{value_tree};
ghost use Rattle.result_making.specs.Making.{MayBeKept};
ghost use Rattle.result_making.specs.Parts.{own_tree, needed_tree, needed_kept, marks_from};

use crate::modules::{Modules, Own};
use call_graph::View;
use f77_ast::{At, Mark};
use fx_lists::{List, Text};
use loop_marker::dependence_test::Analysis;
use loop_marker::marks;
use result_store::{Store, Value};
use session_texts::pipsmake_rules::Kind;
use std::alloc::{AllocError as Memory, Global};

/// A module with the results that its marks need; None where one of them is not kept.
fn analysis_of<'x>(view: &'x View<'x>, store: &'x Store, name: &Text) -> Option<Analysis<'x>>
    ensures kept { option_map needed_tree result ≡ needed_kept (memo_cells_of store.now) name.now }
    ensures view { IfSome result (λ a. a.view.now ≡ view.now) }
    ensures fits { IfSome result AnalysisFits }
{
    let effects = store.effects(name)?;
    let transformers = store.transformers(name)?;
    let preconditions = store.preconditions(name)?;
    let regions = store.regions(name)?;
    let ins = store.in_regions(name)?;
    let outs = store.out_regions(name)?;
    Some(Analysis {
        view,
        effects,
        transformers,
        preconditions,
        regions,
        ins,
        outs,
    })
}

/// The marks of a module, from the results that they need.
fn marks_from(alloc: Global, analysis: &Analysis<'_>) -> Result<List<At<Mark>>, Memory>
    requires { AnalysisFits analysis.now }
    ensures { IfOk result (λ ms. ms ≡ marks_from analysis.now.view.now.graph.now.untracked (known_in analysis.now.view.now) (needed_tree analysis.now)) }
{
    marks(alloc, analysis)
}

/// The marks of the loops of a module; None where a result that they need is not kept.
pub(crate) fn marks_value(
    alloc: Global,
    modules: &Modules<'_>,
    store: &Store,
    own: &Own<'_>,
    name: &Text,
) -> Result<Option<Value>, Memory>
    requires { modules.now.graph.now ≡ graph_of modules.now.sources.now }
    ensures value { IfOk result (λ v. option_map value_tree v ≡ rule_of (memo_cells_of store.now) modules.now.sources.now Kind.Marks name.now (own_tree own.now)) }
    ensures fits { IfOk result MayBeKept }
{
    let view = View {
        module: &own.parsed.module,
        symbols: own.symbols,
        graph: modules.graph,
    };
    let Some(analysis) = analysis_of(&view, store, name) else {
        return Ok(None);
    };
    let made = marks_from(alloc, &analysis)?;
    Ok(Some(Value::Marks(made)))
}
