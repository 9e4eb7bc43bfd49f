//! What is known around a statement.
use call_graph::View;
use f77_ast::{Results, Summaries};
use fx_lists::List;
use region_translation::region_sets::RegionSet;
use transformers::call_translation::CellScope;
use transformers::transformer_algebra::Transformer;

/// What is known around a statement: its module, the scope of that, the transformers of its statements, the cells that some of them change, and
/// the summaries of the modules that it calls.
#[derive(Drop)]
pub struct RegionContext<'a> {
    pub view: &'a View<'a>,
    pub scope: &'a CellScope<'a>,
    pub own: &'a Results<Transformer>,
    pub changed: &'a List<u32>,
    pub callees: &'a Summaries<RegionSet>,
}
