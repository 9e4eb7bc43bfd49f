//! Conflicts of the iterations of loops, and private variables.
ghost use Rattle.std.specs.Prelude.{◌≡◌, All, length};
ghost use Rattle.region_sets.specs.Lists.{SetsFit};
ghost use Rattle.module_phases.specs.InViews.{ModuleFits};
ghost use Rattle.dependence_test.specs.Given.{AnalysisFits};

use crate::scalars::add_system;
use crate::shown::text_of;
use crate::variables::add_variable;
use call_graph::{Graph, View};
use dependence_test::{Analysis, Conflict, body_of, conflict, loop_in};
use f77_ast::{EffectSet, Kinds, Parsed, Private, Results, StmtId, Symbols, Variable};
use fx_lists::List;
use module_phases::{ModuleIns, all_ins, all_regions, analyses};
use privatizer::may_be_private;
use region_sets::{Access, RegionSet};
use std::alloc::{AllocError as Memory, Global};

/// What is answered of one variable and kinds.
fn add_conflict(
    alloc: Global,
    shown: &mut String,
    a: &Analysis<'_>,
    id: StmtId,
    v: &Variable,
    kinds: Kinds,
) -> Result<(), Memory>
    requires { AnalysisFits a.now }
{
    match conflict(alloc, a, id, v, kinds)? {
        Conflict::None => shown.push_str(" -\n"),
        Conflict::Kept(s) => {
            shown.push_str(" ")?;
            add_system(shown, a.view.symbols, &s)
        }
    }
}

fn word_of(private: Private) -> &'static str {
    match private {
        Private::Yes => " yes",
        Private::Name => " name",
        Private::Carried => " carried",
        Private::Live => " live",
    }
}

/// Whether a variable may be private.
fn add_private(
    alloc: Global,
    shown: &mut String,
    a: &Analysis<'_>,
    id: StmtId,
    v: &Variable,
) -> Result<(), Memory>
    requires { AnalysisFits a.now }
{
    shown.push_str(word_of(may_be_private(alloc, a, id, v)?))
}

/// What is answered of a variable that the body writes. `live` has what is accessed for the OUT regions of the DO.
fn add_written(
    alloc: Global,
    shown: &mut String,
    a: &Analysis<'_>,
    live: &Analysis<'_>,
    id: StmtId,
    v: &Variable,
) -> Result<(), Memory>
    requires analysis { AnalysisFits a.now }
    requires live { AnalysisFits live.now }
{
    write!(shown, "{id}")?;
    add_variable(alloc, shown, a.view.symbols, v)?;
    add_private(alloc, shown, a, id, v)?;
    add_private(alloc, shown, live, id, v)?;
    shown.push_str("\n")?;
    add_conflict(alloc, shown, a, id, v, Kinds::WriteRead)?;
    add_conflict(alloc, shown, a, id, v, Kinds::ReadWrite)?;
    add_conflict(alloc, shown, a, id, v, Kinds::WriteWrite)
}

fn is_write(access: Access) -> bool {
    match access {
        Access::Write => true,
        Access::Read | Access::In | Access::Out => false,
    }
}

/// The statement with a number, where it is a DO.
fn add_loop(
    alloc: Global,
    shown: &mut String,
    a: &Analysis<'_>,
    live: &Analysis<'_>,
    id: StmtId,
) -> Result<(), Memory>
    requires analysis { AnalysisFits a.now }
    requires live { AnalysisFits live.now }
{
    if let Some(l) = loop_in(id, &a.view.module.body) {
        let b = body_of(alloc, a, l)?;
        for r in b.regions.as_slice() {
            if is_write(r.kind) {
                add_written(alloc, shown, a, live, id, &r.variable)?;
            }
        }
    }
    Ok(())
}

fn add_loops(
    alloc: Global,
    shown: &mut String,
    a: &Analysis<'_>,
    live: &Analysis<'_>,
) -> Result<(), Memory>
    requires analysis { AnalysisFits a.now }
    requires live { AnalysisFits live.now }
{
    for at in a.regions.at.as_slice() {
        add_loop(alloc, shown, a, live, at.id)?;
    }
    Ok(())
}

/// What is known of a module, with these sets for its OUT regions.
fn analysis_of<'a>(
    view: &'a View<'a>,
    effects: &'a Results<EffectSet>,
    known: &'a ModuleIns<'_>,
    outs: &'a Results<RegionSet>,
) -> Analysis<'a>
    requires known { ModuleFits known.now }
    requires outs { SetsFit outs.now.at }
    ensures { AnalysisFits result }
{
    let module = &known.known;
    Analysis {
        view,
        effects,
        transformers: &module.analysis.found.own,
        preconditions: &module.analysis.holds,
        regions: &module.regions,
        ins: &known.ins,
        outs,
    }
}

fn add_module<'x>(
    alloc: Global,
    shown: &mut String,
    known: &'x ModuleIns<'x>,
    graph: &'x Graph,
) -> Result<(), Memory>
    requires { ModuleFits known.now }
{
    let found = &known.known.analysis.found;
    let view = View {
        module: found.module,
        symbols: found.symbols,
        graph,
    };
    let effects = Results {
        at: List::new(alloc),
        summary: EffectSet::none(alloc),
    };
    let none = Results {
        at: List::new(alloc),
        summary: List::new(alloc),
    };
    shown.push_str("module ")?;
    shown.push_str(text_of(&found.module.name))?;
    shown.push_str("\n")?;
    let a = analysis_of(&view, &effects, known, &none);
    let live = analysis_of(&view, &effects, known, &known.known.regions);
    add_loops(alloc, shown, &a, &live)
}

#[tactic(auto, using(crate::proofs::Steps::modules))]
fn add_all<'x>(
    alloc: Global,
    shown: &mut String,
    all: &'x [ModuleIns<'x>],
    graph: &'x Graph,
) -> Result<(), Memory>
    requires { All ModuleFits all.now }
{
    for known in all {
        add_module(alloc, shown, known, graph)?;
    }
    Ok(())
}

/// The conflicts in the loops of each module, callees first: of each variable that a body writes.
pub fn add_loop_answers(
    alloc: Global,
    shown: &mut String,
    modules: &List<Parsed>,
    tables: &List<Symbols>,
    graph: &Graph,
) -> Result<(), Memory>
    requires { length modules.now ≡ length tables.now }
{
    let regions = all_regions(alloc, graph, analyses(alloc, modules, tables, graph)?)?;
    let all = all_ins(alloc, graph, regions)?;
    add_all(alloc, shown, all.as_slice(), graph)
}
