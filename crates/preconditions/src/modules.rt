//! What holds in a module where each statement begins.
ghost use Rattle.std.specs.Prelude.{◌≡◌, IfOk};
ghost use Rattle.affine_systems.specs.Given.{Fits};
ghost use Rattle.f77_ast.specs.PlainStmt.{stmt_trees};
ghost use Rattle.transformers.specs.call_translation.Scopes.{scope_of};
ghost use Rattle.transformers.specs.Lists.{transformer_at as transformer_at_is};
ghost use Rattle.transformers.specs.Given.{ResultsFit};
ghost use Rattle.preconditions.specs.Statement.{EachFits};
ghost use Rattle.preconditions.specs.Modules.{preconditions_of};

use crate::statement::{PreconditionContext, after_list};
use affine_systems::System;
use call_graph::View;
use f77_ast::Results;
use fx_lists::List;
use std::alloc::{AllocError as Memory, Global};
use transformers::call_translation::{CellScope, tracked_of};
use transformers::transformer_algebra::Transformer;

/// What holds of the analysed scalars where each executable statement of a module begins, in the order of the text, from the transformers
/// `own` of its statements and from what holds where it is entered, `entry`, which is the summary of the result.
pub fn preconditions(
    alloc: Global,
    view: &View<'_>,
    own: &Results<Transformer>,
    entry: &System,
) -> Result<Results<System>, Memory>
    requires own { ResultsFit own.now.at }
    requires entry { Fits entry.now }
    ensures defined { IfOk result (λ r. r ≡ preconditions_of (stmt_trees view.now.«module».now.body) (scope_of view.now.«module».now view.now.symbols.now view.now.graph.now.untracked) (transformer_at_is own.now.at) entry.now) }
    ensures fits { IfOk result (λ r. EachFits r.at) }
{
    let tracked = tracked_of(alloc, view)?;
    let scope = CellScope {
        symbols: view.symbols,
        tracked: &tracked,
    };
    let known = PreconditionContext {
        scope: &scope,
        own: &own.at,
    };
    let mut at = List::new(alloc);
    let _ = after_list(
        alloc,
        &known,
        &view.module.body,
        true,
        entry.clone()?,
        &mut at,
    )?;
    Ok(Results {
        at,
        summary: entry.clone()?,
    })
}
