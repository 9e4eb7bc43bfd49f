//! The results that one is made from, each after its needs.
ghost use Rattle.std.specs.Prelude.{◌≡◌, ◌<◌, ◌^◌, [], ◌∷◌, ◌++◌, length, IfOk};
ghost use Rattle.pipsmake_rules.specs.Walk.{walk_from, walk_of};

use crate::key::Key;
use crate::kind::Kind;
use crate::listed::Listed;
use crate::need::needs;
use call_graph::Graph;
use fx_lists::{List, Text};
use std::alloc::{AllocError as Memory, Global};

/// Adds a copy of a result.
fn push_copy(alloc: Global, listed: &mut Listed, key: &Key) -> Result<(), Memory>
    ensures { IfOk result (λ _. listed.new ≡ listed.old ++ key.now ∷ []) }
{
    let name = key.name.clone()?;
    let kind = key.kind;
    listed.push(alloc, Key { kind, name })?;
    Ok(())
}

/// Adds a result after its needs, unless it is there; by fewer than `depth` needs of needs.
#[tactic(auto, using(crate::proofs::StepLaws::walk_steps))]
fn walk_from(
    alloc: Global,
    depth: usize,
    names: &[Text],
    graph: &Graph,
    listed: &mut Listed,
    key: &Key,
) -> Result<(), Memory>
    ensures { IfOk result (λ _. listed.new ≡ walk_from depth names.now graph.now listed.old key.now) }
{
    if depth == 0 {
        return Ok(());
    }
    let there = listed.has(alloc, key)?;
    if there {
        return Ok(());
    }
    let needed = needs(alloc, names, graph, key.kind, &key.name)?;
    let mut rest = needed.as_slice();
    while let [need, more @ ..] = rest {
        walk_from(alloc, depth - 1, names, graph, listed, need)?;
        rest = more;
    }
    push_copy(alloc, listed, key)?;
    Ok(())
}

/// The results that a result of a kind and a module is made from, and itself as the last: each once, after what it needs, the needs of one
/// in their order. `names` has the modules of the program.
pub fn walk(
    alloc: Global,
    names: &[Text],
    graph: &Graph,
    kind: Kind,
    name: &Text,
) -> Result<List<Key>, Memory>
    requires { length graph.now.order < 2 ^ 32 }
    ensures { IfOk result (λ keys. keys ≡ walk_of names.now graph.now (record { kind = kind; name = name.now })) }
{
    let depth = 12 * (graph.order.len() + 1);
    let name = name.clone()?;
    let key = Key { kind, name };
    let mut listed = Listed::new(alloc);
    walk_from(alloc, depth, names, graph, &mut listed, &key)?;
    Ok(listed.into_list())
}
