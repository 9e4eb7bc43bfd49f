//! One result of one module, of a kind that is stored.
ghost use Rattle.std.specs.Prelude.{◌≡◌};
ghost use Rattle.base_values.specs.Sizes.{kind_of};

use affine_systems::System;
use f77_ast::{At, EffectSet, Mark, Results};
use fx_lists::List;
use pipsmake_rules::Kind;
use preconditions::transformer_algebra::Transformer;
use region_sets::RegionSet;

/// One result of one module: what it says of each executable statement (marks: of each DO), in the order of the text, and as a whole.
#[derive(Drop)]
pub enum StoredValue {
    Effects(Results<EffectSet>),
    Transformers(Results<Transformer>),
    /// The summary is what holds at the entry.
    Preconditions(Results<System>),
    Regions(Results<RegionSet>),
    InRegions(Results<RegionSet>),
    OutRegions(Results<RegionSet>),
    Marks(List<At<Mark>>),
}

/// The kind of a result.
pub fn kind_of(value: &StoredValue) -> Kind
    ensures { result ≡ kind_of value.now }
{
    match value {
        StoredValue::Effects(_) => Kind::Effects,
        StoredValue::Transformers(_) => Kind::Transformers,
        StoredValue::Preconditions(_) => Kind::Preconditions,
        StoredValue::Regions(_) => Kind::Regions,
        StoredValue::InRegions(_) => Kind::InRegions,
        StoredValue::OutRegions(_) => Kind::OutRegions,
        StoredValue::Marks(_) => Kind::Marks,
    }
}
