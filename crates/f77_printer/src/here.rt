//! Parts of a module as they are written.
ghost use Rattle.std.specs.Prelude.{◌≡◌};
ghost use Rattle.f77_printer.specs.PageText.{is_part};
ghost use Rattle.f77_printer.specs.Here.{here_part};

use f77_ast::{Part, StmtId};

/// A part of a module as it is written: as `Part`, with places, from 0, that need not fit 32 bits.
#[derive(Clone, Copy)]
pub enum Here {
    Title,
    Decl(usize),
    Stmt(StmtId),
    ElseIf(StmtId, usize),
    Else(StmtId),
    Close(StmtId),
    End,
}

/// Whether both are the same part.
pub fn stands_at(here: Here, part: Part) -> bool
    ensures { result ≡ is_part (here_part here) part }
{
    match (here, part) {
        (Here::Title, Part::Title) => true,
        (Here::Decl(n), Part::Decl(m)) => n == m as usize,
        (Here::Stmt(i), Part::Stmt(j)) => i == j,
        (Here::ElseIf(i, n), Part::ElseIf(j, m)) => i == j && n == m as usize,
        (Here::Else(i), Part::Else(j)) => i == j,
        (Here::Close(i), Part::Close(j)) => i == j,
        (Here::End, Part::End) => true,
        _ => false,
    }
}
