//! Which results are fresh.
ghost use Rattle.std.specs.Prelude.{◌≡◌, IfOk, OnOk};
ghost use Rattle.pipsmake_db.specs.Fresh.{key_put, keys_put};

use session_texts::pipsmake_rules::{Key, Listed};
use std::alloc::{AllocError as Memory, Global};

/// The same result.
pub fn copy_key(key: &Key) -> Result<Key, Memory>
    ensures { IfOk result (λ copy. copy ≡ key.now) }
{
    let name = key.name.clone()?;
    let kind = key.kind;
    Ok(Key { kind, name })
}

/// Adds a result, unless it is there.
fn put_key(alloc: Global, fresh: &mut Listed, key: &Key) -> Result<(), Memory>
    ensures { OnOk result (fresh.new ≡ key_put key.now fresh.old) }
{
    if fresh.has(alloc, key)? {
        return Ok(());
    }
    let key = copy_key(key)?;
    fresh.push(alloc, key)
}

/// Adds results, but those that are there.
pub(crate) fn put_all(alloc: Global, fresh: &mut Listed, keys: &[Key]) -> Result<(), Memory>
    ensures { OnOk result (fresh.new ≡ keys_put fresh.old keys.now) }
{
    let mut rest = keys;
    while let [key, more @ ..] = rest {
        put_key(alloc, fresh, key)?;
        rest = more;
    }
    Ok(())
}

/// Fresh results, and then those of a walk.
pub(crate) fn with_walk(alloc: Global, fresh: &Listed, walk: &[Key]) -> Result<Listed, Memory>
    ensures { IfOk result (λ all. all ≡ keys_put fresh.now walk.now) }
{
    let mut all = fresh.copied(alloc)?;
    put_all(alloc, &mut all, walk)?;
    Ok(all)
}
