//! What is kept of a module.
ghost use Rattle.std.specs.Prelude.{◌≡◌, true, IfSome};
ghost use Rattle.std.specs.List.{list_all};
ghost use Rattle.session_texts.specs.pipsmake_rules.Keys.{holds};
ghost use Rattle.pipsmake_db.specs.KeptModules.{are_fresh, IsKept, KeptFits};

use crate::Db;
use affine_systems::System;
use call_graph::Graph;
use f77_ast::{At, EffectSet, Mark, Module, Places, Results, Symbols};
use fx_lists::{List, Text};
use preconditions::transformer_algebra::Transformer;
use region_sets::RegionSet;
use session_texts::pipsmake_rules::{Kind, Listed};

/// The fresh results of a module, and the graph.
#[derive(Drop)]
pub struct KeptModule<'a> {
    pub module: &'a Module,
    pub symbols: &'a Symbols,
    pub graph: &'a Graph,
    pub places: &'a Places,
    pub effects: &'a Results<EffectSet>,
    pub transformers: &'a Results<Transformer>,
    pub preconditions: &'a Results<System>,
    pub regions: &'a Results<RegionSet>,
    pub ins: &'a Results<RegionSet>,
    pub outs: &'a Results<RegionSet>,
    pub marks: &'a List<At<Mark>>,
}

/// The kinds of results of a module that are lent.
const LENT: [Kind; 10] = [
    Kind::Parsed,
    Kind::Lines,
    Kind::Symbols,
    Kind::Effects,
    Kind::Transformers,
    Kind::Preconditions,
    Kind::Regions,
    Kind::InRegions,
    Kind::OutRegions,
    Kind::Marks,
];

/// Whether the results of these kinds and of a name are all there.
fn have_all(fresh: &Listed, kinds: &[Kind], name: &[u8]) -> bool
    ensures { result ≡ list_all (λ k. holds fresh.now (record { kind = k; name = name.now })) kinds.now }
{
    let mut rest = kinds;
    while let [kind, more @ ..] = rest {
        if !fresh.lists(*kind, name) {
            return false;
        }
        rest = more;
    }
    true
}

impl Db {
    /// Whether the results of a module that are lent, and the graph, are fresh.
    fn is_kept(&self, name: &Text) -> bool
        ensures { result ≡ are_fresh self.now.fresh name.now }
    {
        have_all(&self.fresh, LENT.as_slice(), name.as_slice())
            && self.fresh.lists(Kind::CallGraph, b"*")
    }

    /// What is kept of a module. None where one of its results or the graph is not fresh; after want of memory also where one is no longer kept.
    /// Takes no memory.
    pub fn kept(&self, name: &Text) -> Option<KeptModule<'_>>
        ensures fresh { IfSome result (λ _. are_fresh self.now.fresh name.now ≡ true) }
        ensures kept { IfSome result (λ k. IsKept self.now name.now k) }
        ensures fits { IfSome result KeptFits }
    {
        if !self.is_kept(name) {
            return None;
        }
        let sources = self.linked.sources();
        let parsed = sources.parsed_named(name)?;
        let symbols = sources.symbols_named(name)?;
        let graph = self.linked.graph()?;
        let effects = self.store.effects(name)?;
        let transformers = self.store.transformers(name)?;
        let preconditions = self.store.preconditions(name)?;
        let regions = self.store.regions(name)?;
        let ins = self.store.in_regions(name)?;
        let outs = self.store.out_regions(name)?;
        let marks = self.store.marks(name)?;
        Some(KeptModule {
            module: &parsed.module,
            symbols,
            graph,
            places: &parsed.places,
            effects,
            transformers,
            preconditions,
            regions,
            ins,
            outs,
            marks,
        })
    }
}
