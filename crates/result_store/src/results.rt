//! Equality of the results of analyses.
ghost use Rattle.std.specs.Prelude.{◌≡◌, ◌↔◌, IsTrue};

use affine_systems::System;
use f77_ast::{At, EffectSet, Mark, Results};
use fx_lists::List;
use loop_marker::region_sets::RegionSet;
use preconditions::transformer_algebra::Transformer;

/// Whether two modules have the same effects, at each statement and as a whole. Takes no memory.
pub fn same_effects(a: &Results<EffectSet>, b: &Results<EffectSet>) -> bool
    ensures { IsTrue result ↔ (a.now ≡ b.now) }
{
    a == b
}

/// Whether two modules have the same transformers, at each statement and as a whole, row by row. Takes no memory.
pub fn same_transformers(t: &Results<Transformer>, u: &Results<Transformer>) -> bool
    ensures { IsTrue result ↔ (t.now ≡ u.now) }
{
    t == u
}

/// Whether two modules have the same preconditions, row by row. Takes no memory.
pub fn same_preconditions(p: &Results<System>, q: &Results<System>) -> bool
    ensures { IsTrue result ↔ (p.now ≡ q.now) }
{
    p == q
}

/// Whether two modules have the same regions, in the same order and row by row. Takes no memory.
pub fn same_region_sets(r: &Results<RegionSet>, s: &Results<RegionSet>) -> bool
    ensures { IsTrue result ↔ (r.now ≡ s.now) }
{
    r == s
}

/// Whether the same loops of two modules are marked in the same way, for the same reasons. Takes no memory.
pub fn same_marks(m: &List<At<Mark>>, n: &List<At<Mark>>) -> bool
    ensures { IsTrue result ↔ (m.now ≡ n.now) }
{
    m == n
}
