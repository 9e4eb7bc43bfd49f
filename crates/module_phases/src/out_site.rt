//! What is known of a CALL for the OUT regions of what it calls.
use fx_lists::List;
use in_out_regions::region_sets::RegionSet;

/// What is known of a CALL for its callee: the caller's analysed scalars that some statement changes, and OUT of the CALL.
#[derive(Drop)]
pub struct OutSite {
    pub changed: List<u32>,
    pub out: RegionSet,
}
