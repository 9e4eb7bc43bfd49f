//! What is known around a statement.
use array_regions::RegionContext;
use array_regions::region_sets::RegionSet;
use f77_ast::At;
use fx_lists::List;

/// What is known around a statement: its module, with the IN regions of the modules that it calls, and the READ and WRITE regions of the module's
/// statements.
#[derive(Drop)]
pub struct InContext<'a> {
    pub around: &'a RegionContext<'a>,
    pub regions: &'a List<At<RegionSet>>,
}
