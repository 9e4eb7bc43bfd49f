//! What a result needs.
ghost use Rattle.std.specs.Prelude.{◌≡◌, ◌++◌, map, IfOk};
ghost use Rattle.pipsmake_rules.specs.Table.{kinds_needed};
ghost use Rattle.pipsmake_rules.specs.Keys.{key_of};
ghost use Rattle.pipsmake_rules.specs.Needs.{keys_of, by_module, by_kind, needs_of};

use crate::key::{Key, key_of};
use crate::kind::Kind;
use crate::neighbours::{callees, callers};
use crate::table::{Whose, kinds_needed};
use call_graph::Graph;
use fx_lists::{List, Text};
use std::alloc::{AllocError as Memory, Global};

/// Adds the results of one module.
fn push_own(alloc: Global, found: &mut List<Key>, kinds: &[Kind], name: &Text) -> Result<(), Memory>
    ensures { IfOk result (λ _. found.new ≡ found.old ++ keys_of kinds.now name.now) }
{
    let mut rest = kinds;
    while let [kind, more @ ..] = rest {
        found.push(key_of(alloc, *kind, name)?)?;
        rest = more;
    }
    Ok(())
}

/// Adds for each module its results.
fn push_by_module(
    alloc: Global,
    found: &mut List<Key>,
    kinds: &[Kind],
    names: &[Text],
) -> Result<(), Memory>
    ensures { IfOk result (λ _. found.new ≡ found.old ++ by_module kinds.now names.now) }
{
    let mut rest = names;
    while let [name, more @ ..] = rest {
        push_own(alloc, found, kinds, name)?;
        rest = more;
    }
    Ok(())
}

/// Adds the results of one kind.
fn push_kind(alloc: Global, found: &mut List<Key>, kind: Kind, names: &[Text]) -> Result<(), Memory>
    ensures { IfOk result (λ _. found.new ≡ found.old ++ map (key_of kind) names.now) }
{
    let mut rest = names;
    while let [name, more @ ..] = rest {
        found.push(key_of(alloc, kind, name)?)?;
        rest = more;
    }
    Ok(())
}

/// Adds for each kind the results of all modules.
fn push_by_kind(
    alloc: Global,
    found: &mut List<Key>,
    kinds: &[Kind],
    names: &[Text],
) -> Result<(), Memory>
    ensures { IfOk result (λ _. found.new ≡ found.old ++ by_kind kinds.now names.now) }
{
    let mut rest = kinds;
    while let [kind, more @ ..] = rest {
        push_kind(alloc, found, *kind, names)?;
        rest = more;
    }
    Ok(())
}

/// The results that a result of a kind and a module needs, in the order in which they are made: of its own module, of all modules, of each
/// module that it calls, of each that calls it. `names` has the modules of the program, in the order in which results of all are needed.
pub fn needs(
    alloc: Global,
    names: &[Text],
    graph: &Graph,
    kind: Kind,
    name: &Text,
) -> Result<List<Key>, Memory>
    ensures { IfOk result (λ needs. needs ≡ needs_of names.now graph.now (record { kind = kind; name = name.now })) }
{
    let mut found = List::new(alloc);
    let own = kinds_needed(alloc, kind, Whose::Own)?;
    push_own(alloc, &mut found, own.as_slice(), name)?;
    let all = kinds_needed(alloc, kind, Whose::All)?;
    push_by_kind(alloc, &mut found, all.as_slice(), names)?;
    let of_callees = kinds_needed(alloc, kind, Whose::Callees)?;
    let called = callees(alloc, graph, name)?;
    push_by_module(alloc, &mut found, of_callees.as_slice(), called.as_slice())?;
    let of_callers = kinds_needed(alloc, kind, Whose::Callers)?;
    let calling = callers(alloc, graph, name)?;
    push_by_module(alloc, &mut found, of_callers.as_slice(), calling.as_slice())?;
    Ok(found)
}
