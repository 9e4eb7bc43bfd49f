//! The program of a database, written from its kept results with the directives of loops with reduction variables and the lines on references.
ghost use Rattle.std.specs.Prelude.{◌≡◌, ◌++◌, IfOk};
ghost use Rattle.pipsmake_base.specs.pipsmake_db.KeptModules.{KeptFits};
ghost use Rattle.pips_top.specs.Kept.{kept_lines, kept_text, KeptTexts};

use crate::reduced::lines_reduced;
use crate::wanted::Wanted;
use call_graph::View;
use f77_printer::{Added, plain};
use fx_lists::{List, Text};
use pipsmake_base::loop_marker::dependence_test::Analysis;
use pipsmake_base::pipsmake_db::{Db, KeptModule};
use std::alloc::{AllocError as Memory, Global};

/// The lines of a module, from what is kept of it.
fn lines_of(alloc: Global, wanted: Wanted, kept: &KeptModule<'_>) -> Result<List<Added>, Memory>
    requires { KeptFits kept.now }
    ensures { IfOk result (λ lines. lines ≡ kept_lines wanted kept.now) }
{
    let view = View {
        module: kept.module,
        symbols: kept.symbols,
        graph: kept.graph,
    };
    let analysis = Analysis {
        view: &view,
        effects: kept.effects,
        transformers: kept.transformers,
        preconditions: kept.preconditions,
        regions: kept.regions,
        ins: kept.ins,
        outs: kept.outs,
    };
    lines_reduced(alloc, &analysis, kept.marks, wanted)
}

/// The text of a module.
fn text_of(alloc: Global, wanted: Wanted, kept: &KeptModule<'_>) -> Result<Text, Memory>
    requires { KeptFits kept.now }
    ensures { IfOk result (λ text. text ≡ kept_text wanted kept.now) }
{
    let added = lines_of(alloc, wanted, kept)?;
    plain(alloc, kept.places, kept.module, &added)
}

/// The texts of all modules, one after another, from what is kept of them. Err also where something is not.
pub fn reduced_text(alloc: Global, db: &Db, wanted: Wanted) -> Result<Text, Memory>
    ensures { IfOk result (KeptTexts wanted db.now) }
{
    let mut out = Text::new(alloc);
    let mut rest = db.names();
    while let [name, more @ ..] = rest {
        let Some(kept) = db.kept(name) else {
            return Err(Memory);
        };
        let text = text_of(alloc, wanted, &kept)?;
        out.append(text.as_slice())?;
        rest = more;
    }
    Ok(out)
}
