//! The results by kind and module.
ghost use Rattle.std.specs.Prelude.{◌≡◌, IfOk};
ghost use Rattle.pipsmake_rules.specs.Keys.{key_of, code_of};

use crate::kind::Kind;
use fx_lists::Text;
use std::alloc::{AllocError as Memory, Global};

/// A result: its kind, and the name of its module. The graph, which is of no module, has the name `*`.
#[derive(PartialEq, Eq, Drop)]
pub struct Key {
    pub kind: Kind,
    pub name: Text,
}

/// The result of a kind that a module needs of a module.
pub fn key_of(alloc: Global, kind: Kind, name: &Text) -> Result<Key, Memory>
    ensures { IfOk result (λ key. key ≡ key_of kind name.now) }
{
    let name = match kind {
        Kind::CallGraph => Text::from_bytes(alloc, b"*")?,
        Kind::Parsed
        | Kind::Lines
        | Kind::Symbols
        | Kind::Effects
        | Kind::Transformers
        | Kind::Preconditions
        | Kind::Regions
        | Kind::InRegions
        | Kind::OutRegions
        | Kind::Marks
        | Kind::Printed => name.clone()?,
    };
    Ok(Key { kind, name })
}

/// The number of the kind, and then the name: the same text for the same result.
pub fn code_of(alloc: Global, key: &Key) -> Result<Text, Memory>
    ensures { IfOk result (λ code. code ≡ code_of key.now) }
{
    let mut code = Text::new(alloc);
    code.push(key.kind.number())?;
    code.append(key.name.as_slice())?;
    Ok(code)
}
