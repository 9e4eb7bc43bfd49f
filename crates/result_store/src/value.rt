//! The values of results.
use affine_systems::System;
use call_graph::Graph;
use f77_ast::{At, EffectSet, Mark, Module, Places, Results, Symbols};
use fx_lists::{List, Text};
use loop_marker::region_sets::RegionSet;
use preconditions::transformer_algebra::Transformer;

/// The text of a module, or the value of a result, one variant for each kind in the order of the kinds.
#[derive(Drop)]
pub enum Value {
    /// The text of a module.
    Source(Text),
    /// The statements of a module, without its lines and comments.
    Parsed(Module),
    /// The lines and comments of a module.
    Lines(Places),
    /// The table of symbols of a module.
    Symbols(Symbols),
    /// The graph of the program.
    CallGraph(Graph),
    /// What each statement reads and writes.
    Effects(Results<EffectSet>),
    /// What each statement does to the analysed scalars.
    Transformers(Results<Transformer>),
    /// What holds where each statement begins.
    Preconditions(Results<System>),
    /// The READ and WRITE regions of each statement.
    Regions(Results<RegionSet>),
    /// The IN regions of each statement.
    InRegions(Results<RegionSet>),
    /// The OUT regions of each statement.
    OutRegions(Results<RegionSet>),
    /// The marks of the loops.
    Marks(List<At<Mark>>),
    /// The text of a module with what is known of its statements.
    Printed(Text),
}
