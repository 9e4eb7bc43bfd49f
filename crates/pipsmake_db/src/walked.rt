//! Walks along the needs of results, one after another.
ghost use Rattle.std.specs.Prelude.{◌≡◌, [], ◌∷◌, ◌++◌, IfOk};
ghost use Rattle.session_texts.specs.pipsmake_rules.Walk.{walk_from};
ghost use Rattle.pipsmake_db.specs.Walked.{AreWalked};

use crate::fresh::copy_key;
use call_graph::Graph;
use fx_lists::{List, Text};
use session_texts::pipsmake_rules::{Key, Listed, needs};
use std::alloc::{AllocError as Memory, Global};

/// Results that were walked, in order.
#[derive(Drop)]
pub(crate) struct Walked {
    /// They are found here in constant time.
    pub listed: Listed,
    /// The same results.
    pub keys: List<Key>,
}

/// No results. Takes no memory.
pub(crate) fn none_walked(alloc: Global) -> Walked
    ensures { AreWalked [] result }
{
    Walked {
        listed: Listed::new(alloc),
        keys: List::new(alloc),
    }
}

/// Adds a copy of a result.
fn push_walked(alloc: Global, walked: &mut Walked, key: &Key) -> Result<(), Memory>
    requires { walked.old.keys ≡ walked.old.listed }
    ensures { IfOk result (λ _. AreWalked (walked.old.listed ++ key.now ∷ []) walked.new) }
{
    walked.keys.push(copy_key(key)?)?;
    walked.listed.push(alloc, copy_key(key)?)?;
    Ok(())
}

/// Adds a result after its needs, unless it is there; by fewer than `depth` needs of needs.
#[tactic(auto, using(crate::proofs::Walking::walk_steps))]
pub(crate) fn walk_on(
    alloc: Global,
    depth: usize,
    names: &[Text],
    graph: &Graph,
    walked: &mut Walked,
    key: &Key,
) -> Result<(), Memory>
    requires { walked.old.keys ≡ walked.old.listed }
    ensures { IfOk result (λ _. AreWalked (walk_from depth names.now graph.now walked.old.listed key.now) walked.new) }
{
    if depth == 0 {
        return Ok(());
    }
    let there = walked.listed.has(alloc, key)?;
    if there {
        return Ok(());
    }
    let needed = needs(alloc, names, graph, key.kind, &key.name)?;
    let mut rest = needed.as_slice();
    while let [need, more @ ..] = rest {
        walk_on(alloc, depth - 1, names, graph, walked, need)?;
        rest = more;
    }
    push_walked(alloc, walked, key)?;
    Ok(())
}
