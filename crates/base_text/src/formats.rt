//! Which kinds of results a base has, and in which format their values are written.
ghost use Rattle.std.specs.Prelude.{◌≡◌};
ghost use Rattle.base_text.specs.Formats.{is_stored as is_stored_is, format_of as format_of_is};

use session_texts::pipsmake_rules::Kind;

/// Whether results of a kind are kept in bases.
pub fn is_stored(kind: Kind) -> bool
    ensures { result ≡ is_stored_is kind }
{
    match kind {
        Kind::Effects
        | Kind::Transformers
        | Kind::Preconditions
        | Kind::Regions
        | Kind::InRegions
        | Kind::OutRegions
        | Kind::Marks => true,
        Kind::Parsed | Kind::Lines | Kind::Symbols | Kind::CallGraph | Kind::Printed => false,
    }
}

/// The current format number of a kind, from 1: a kind whose values get another JSON text gets the next number, here and in the definition.
pub fn format_of(kind: Kind) -> u32
    ensures { result ≡ format_of_is kind }
{
    match kind {
        Kind::Parsed => 1,
        Kind::Lines => 1,
        Kind::Symbols => 1,
        Kind::CallGraph => 1,
        Kind::Effects => 1,
        Kind::Transformers => 1,
        Kind::Preconditions => 1,
        Kind::Regions => 2,
        Kind::InRegions => 2,
        Kind::OutRegions => 2,
        Kind::Marks => 2,
        Kind::Printed => 1,
    }
}
