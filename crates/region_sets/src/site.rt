//! What is known of a CALL for its callee.
use crate::RegionSet;
use f77_ast::Results;
use transformers::transformer_algebra::Transformer;

/// What is known of a CALL for its callee: the transformers of the caller, and the OUT regions of the CALL.
#[derive(Drop)]
pub struct SiteOut {
    pub own: Results<Transformer>,
    pub out: RegionSet,
}
