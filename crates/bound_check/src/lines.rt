//! The lines on references.
ghost use Rattle.std.specs.Prelude.{◌≡◌, ◌++◌, map, IfOk, OnOk};
ghost use Rattle.f77_ast.specs.Plain.{expr_tree};
ghost use Rattle.bound_check.specs.CheckLines.{check_lines_of, word_line};
ghost use Rattle.bound_check.specs.Views.{checks_at};

use crate::Checks;
use f77_ast::{At, Expr, StmtId};
use f77_printer::{Added, write_exprs};
use fx_lists::{List, Text};
use std::alloc::{AllocError as Memory, Global};

/// The line with references after a word; none without references.
#[tactic(auto, using(crate::proofs::Steps::lists))]
fn put_line(
    alloc: Global,
    before: StmtId,
    word: &[u8],
    es: &List<Expr>,
    out: &mut List<Added>,
) -> Result<(), Memory>
    ensures { OnOk result (out.new ≡ out.old ++ word_line before word.now (map expr_tree es.now)) }
{
    match es.as_slice() {
        [] => Ok(()),
        [_, ..] => {
            let mut line = Text::from_bytes(alloc, word)?;
            write_exprs(alloc, &mut line, es)?;
            out.push(Added { before, line })
        }
    }
}

/// The lines SAFE, with the references that cannot leave their array, and CHECK, with the others, before each statement that has some. They are
/// as long as the references.
#[tactic(auto, using(crate::proofs::Steps::lists))]
pub fn check_lines(alloc: Global, found: &List<At<Checks>>) -> Result<List<Added>, Memory>
    ensures { IfOk result (λ lines. lines ≡ check_lines_of (map checks_at found.now)) }
{
    let mut out = List::new(alloc);
    let mut rest = found.as_slice();
    while let [at, more @ ..] = rest {
        put_line(alloc, at.id, b"C> SAFE ", &at.value.safe, &mut out)?;
        put_line(alloc, at.id, b"C> CHECK ", &at.value.others, &mut out)?;
        rest = more;
    }
    Ok(out)
}
