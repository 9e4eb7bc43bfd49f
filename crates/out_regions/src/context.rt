//! What is known in a module.
use call_graph::View;
use f77_ast::{At, Results};
use fx_lists::List;
use in_out_regions::call_translation::CellScope;
use in_out_regions::region_sets::RegionSet;
use in_out_regions::transformer_algebra::Transformer;

/// A module, the transformers of its statements, and READ, WRITE and IN at each.
#[derive(Drop)]
pub struct OutContext<'a> {
    pub view: &'a View<'a>,
    pub scope: &'a CellScope<'a>,
    pub own: &'a Results<Transformer>,
    pub regions: &'a List<At<RegionSet>>,
    pub ins: &'a List<At<RegionSet>>,
}
