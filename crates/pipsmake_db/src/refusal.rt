//! Why a call is refused.
ghost use Rattle.std.specs.Prelude.{◌≡◌};
ghost use Rattle.pipsmake_db.specs.declared.refusal.DbRefusal.TheVariants.{Memory};

use fx_lists::Text;
use std::alloc::{AllocError, AllocFailed};

/// Why a call of a database is refused. Codes are the numbers of `fx_lists`; lines count from 1.
#[derive(Drop)]
pub enum DbRefusal {
    /// No kind of results has the name.
    NoSuchKind,
    /// No module has the name, or the name of the graph is not `*`.
    NoSuchName,
    /// Results of the kind are not shown.
    NotShown,
    /// A source text is not accepted: the line in it, the code, and of what the language leaves out the keyword.
    Source(u32, u32, Text),
    /// The texts do not link: the name of a module, the line in its text, the line of its source where that text begins, and the code. Where there is no
    /// main program the name is empty and both lines are 1.
    Link(Text, u32, u32, u32),
    Memory,
}

impl From<AllocError> for DbRefusal {
    ghost from_gives = { λ _ e. e ≡ Memory };

    fn from(_e: AllocError) -> DbRefusal {
        DbRefusal::Memory
    }
}

impl<T: Drop> From<AllocFailed<T>> for DbRefusal {
    ghost from_gives = { λ _ e. e ≡ Memory };

    fn from(_e: AllocFailed<T>) -> DbRefusal {
        DbRefusal::Memory
    }
}
