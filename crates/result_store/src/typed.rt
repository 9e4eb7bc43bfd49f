//! The kept values of each kind.
ghost use Rattle.std.specs.Prelude.{◌≡◌, IfSome, option_copied};
ghost use Rattle.pipsmake_meaning.specs.Rules.{effects_kept, transformers_kept, preconditions_kept, regions_kept, ins_kept, outs_kept, marks_kept};
ghost use Rattle.preconditions.specs.Statement.{EachFits};
ghost use Rattle.loop_marker.specs.module_phases.RegionViews.{RegionsFit};
ghost use Rattle.loop_marker.specs.module_phases.ScalarViews.{OwnFits};
ghost use Rattle.result_store.specs.Rows.{memo_cells_of};
ghost use Rattle.result_store.specs.Values.{printed_kept};

use crate::forms::{
    effects_of, in_regions_of, marks_of, out_regions_of, preconditions_of, printed_of, regions_of,
    transformers_of,
};
use crate::item::Item;
use crate::store::Store;
use affine_systems::System;
use f77_ast::{At, EffectSet, Mark, Results};
use fx_lists::{List, Text};
use loop_marker::region_sets::RegionSet;
use pipsmake_rules::Kind;
use preconditions::transformer_algebra::Transformer;

impl Store {
    /// The effects that are kept of a module. Takes no memory.
    pub fn effects(&self, name: &Text) -> Option<&Results<EffectSet>>
        ensures { option_copied result ≡ effects_kept (memo_cells_of self.now) name.now }
    {
        effects_of(self.value(Item::Result(Kind::Effects), name)?)
    }

    /// The transformers that are kept of a module. Takes no memory.
    pub fn transformers(&self, name: &Text) -> Option<&Results<Transformer>>
        ensures value { option_copied result ≡ transformers_kept (memo_cells_of self.now) name.now }
        ensures fits { IfSome result (λ r. OwnFits r.now) }
    {
        transformers_of(self.value(Item::Result(Kind::Transformers), name)?)
    }

    /// The preconditions that are kept of a module. Takes no memory.
    pub fn preconditions(&self, name: &Text) -> Option<&Results<System>>
        ensures value { option_copied result ≡ preconditions_kept (memo_cells_of self.now) name.now }
        ensures fits { IfSome result (λ r. EachFits r.now.at) }
    {
        preconditions_of(self.value(Item::Result(Kind::Preconditions), name)?)
    }

    /// The READ and WRITE regions that are kept of a module. Takes no memory.
    pub fn regions(&self, name: &Text) -> Option<&Results<RegionSet>>
        ensures value { option_copied result ≡ regions_kept (memo_cells_of self.now) name.now }
        ensures fits { IfSome result (λ r. RegionsFit r.now) }
    {
        regions_of(self.value(Item::Result(Kind::Regions), name)?)
    }

    /// The IN regions that are kept of a module. Takes no memory.
    pub fn in_regions(&self, name: &Text) -> Option<&Results<RegionSet>>
        ensures value { option_copied result ≡ ins_kept (memo_cells_of self.now) name.now }
        ensures fits { IfSome result (λ r. RegionsFit r.now) }
    {
        in_regions_of(self.value(Item::Result(Kind::InRegions), name)?)
    }

    /// The OUT regions that are kept of a module. Takes no memory.
    pub fn out_regions(&self, name: &Text) -> Option<&Results<RegionSet>>
        ensures value { option_copied result ≡ outs_kept (memo_cells_of self.now) name.now }
        ensures fits { IfSome result (λ r. RegionsFit r.now) }
    {
        out_regions_of(self.value(Item::Result(Kind::OutRegions), name)?)
    }

    /// The marks that are kept of a module. Takes no memory.
    pub fn marks(&self, name: &Text) -> Option<&List<At<Mark>>>
        ensures { option_copied result ≡ marks_kept (memo_cells_of self.now) name.now }
    {
        marks_of(self.value(Item::Result(Kind::Marks), name)?)
    }

    /// The printed text that is kept of a module. Takes no memory.
    pub fn printed(&self, name: &Text) -> Option<&Text>
        ensures { option_copied result ≡ printed_kept (memo_cells_of self.now) name.now }
    {
        printed_of(self.value(Item::Result(Kind::Printed), name)?)
    }
}
