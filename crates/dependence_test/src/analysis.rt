//! What is known of a module where its loops are looked at.
use affine_systems::System;
use call_graph::View;
use f77_ast::{EffectSet, Results};
use preconditions::transformer_algebra::Transformer;
use region_sets::RegionSet;

/// A module and the results of its analyses: the effects, transformers, preconditions, READ and WRITE regions, IN regions and OUT regions of
/// its statements.
#[derive(Drop)]
pub struct Analysis<'a> {
    pub view: &'a View<'a>,
    pub effects: &'a Results<EffectSet>,
    pub transformers: &'a Results<Transformer>,
    pub preconditions: &'a Results<System>,
    pub regions: &'a Results<RegionSet>,
    pub ins: &'a Results<RegionSet>,
    pub outs: &'a Results<RegionSet>,
}
