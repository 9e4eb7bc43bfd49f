//! The sizes of the numbers of a result.
ghost use Rattle.std.specs.Prelude.{◌≡◌};
ghost use Rattle.std.specs.List.{list_all};
ghost use Rattle.base_json.specs.Read.{is_small_system as is_small_system_is};
ghost use Rattle.base_values.specs.Sizes.{is_small_transformer as is_small_transformer_is, is_small_region as is_small_region_is, are_small_regions as are_small_regions_is, small_at, is_small_value as is_small_value_is};

use crate::StoredValue;
use affine_systems::System;
use base_json::is_small_system;
use f77_ast::At;
use preconditions::transformer_algebra::Transformer;
use region_sets::{Region, RegionSet};

fn are_small_systems(systems: &[System]) -> bool
    ensures { result ≡ list_all is_small_system_is systems.now }
{
    systems.iter().all(|system| is_small_system(system))
}

fn are_small_regions(regions: &[Region]) -> bool
    ensures { result ≡ are_small_regions_is regions.now }
{
    regions
        .iter()
        .all(|region| are_small_systems(region.pieces.as_slice()))
}

fn small_transformers(at: &[At<Transformer>]) -> bool
    ensures { result ≡ small_at is_small_transformer_is at.now }
{
    at.iter().all(|one| is_small_system(&one.value.system))
}

fn small_systems(at: &[At<System>]) -> bool
    ensures { result ≡ small_at is_small_system_is at.now }
{
    at.iter().all(|one| is_small_system(&one.value))
}

fn small_regions(at: &[At<RegionSet>]) -> bool
    ensures { result ≡ small_at are_small_regions_is at.now }
{
    at.iter().all(|one| are_small_regions(one.value.as_slice()))
}

/// Whether all numbers of the rows of a result are below 2^62 in magnitude.
pub fn is_small_value(value: &StoredValue) -> bool
    ensures { result ≡ is_small_value_is value.now }
{
    match value {
        StoredValue::Effects(_) | StoredValue::Marks(_) => true,
        StoredValue::Transformers(r) => {
            is_small_system(&r.summary.system) && small_transformers(r.at.as_slice())
        }
        StoredValue::Preconditions(r) => {
            is_small_system(&r.summary) && small_systems(r.at.as_slice())
        }
        StoredValue::Regions(r) | StoredValue::InRegions(r) | StoredValue::OutRegions(r) => {
            are_small_regions(r.summary.as_slice()) && small_regions(r.at.as_slice())
        }
    }
}
