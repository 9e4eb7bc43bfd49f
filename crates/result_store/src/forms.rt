//! The values of one kind.
ghost use Rattle.std.specs.Prelude.{◌≡◌, map, option_copied, option_map};
ghost use Rattle.f77_ast.specs.PlainDecl.{module_tree};
ghost use Rattle.f77_ast.specs.Symbols.{symbol_tree};
ghost use Rattle.pipsmake_meaning.specs.Rules.{effects_in, transformers_in, preconditions_in, regions_in, ins_in, outs_in, marks_in};
ghost use Rattle.result_store.specs.Values.{value_tree, source_in, parsed_in, lines_in, symbols_in, graph_in, printed_in};

use crate::value::Value;
use affine_systems::System;
use call_graph::Graph;
use f77_ast::{At, EffectSet, Mark, Module, Places, Results, Symbols};
use fx_lists::{List, Text};
use loop_marker::region_sets::RegionSet;
use preconditions::transformer_algebra::Transformer;

/// Where it is the text of a module.
pub fn source_of(value: &Value) -> Option<&Text>
    ensures { option_copied result ≡ source_in (value_tree value.now) }
{
    match value {
        Value::Source(x) => Some(x),
        Value::Parsed(_)
        | Value::Lines(_)
        | Value::Symbols(_)
        | Value::CallGraph(_)
        | Value::Effects(_)
        | Value::Transformers(_)
        | Value::Preconditions(_)
        | Value::Regions(_)
        | Value::InRegions(_)
        | Value::OutRegions(_)
        | Value::Marks(_)
        | Value::Printed(_) => None,
    }
}

/// Where it is the statements of a module.
pub fn parsed_of(value: &Value) -> Option<&Module>
    ensures { option_map (λ m. module_tree m.now) result ≡ parsed_in (value_tree value.now) }
{
    match value {
        Value::Parsed(x) => Some(x),
        Value::Source(_)
        | Value::Lines(_)
        | Value::Symbols(_)
        | Value::CallGraph(_)
        | Value::Effects(_)
        | Value::Transformers(_)
        | Value::Preconditions(_)
        | Value::Regions(_)
        | Value::InRegions(_)
        | Value::OutRegions(_)
        | Value::Marks(_)
        | Value::Printed(_) => None,
    }
}

/// Where it is the lines and comments of a module.
pub fn lines_of(value: &Value) -> Option<&Places>
    ensures { option_copied result ≡ lines_in (value_tree value.now) }
{
    match value {
        Value::Lines(x) => Some(x),
        Value::Source(_)
        | Value::Parsed(_)
        | Value::Symbols(_)
        | Value::CallGraph(_)
        | Value::Effects(_)
        | Value::Transformers(_)
        | Value::Preconditions(_)
        | Value::Regions(_)
        | Value::InRegions(_)
        | Value::OutRegions(_)
        | Value::Marks(_)
        | Value::Printed(_) => None,
    }
}

/// Where it is the table of symbols of a module.
pub fn symbols_of(value: &Value) -> Option<&Symbols>
    ensures { option_map (λ s. map symbol_tree s.now) result ≡ symbols_in (value_tree value.now) }
{
    match value {
        Value::Symbols(x) => Some(x),
        Value::Source(_)
        | Value::Parsed(_)
        | Value::Lines(_)
        | Value::CallGraph(_)
        | Value::Effects(_)
        | Value::Transformers(_)
        | Value::Preconditions(_)
        | Value::Regions(_)
        | Value::InRegions(_)
        | Value::OutRegions(_)
        | Value::Marks(_)
        | Value::Printed(_) => None,
    }
}

/// Where it is the graph of the program.
pub fn graph_of(value: &Value) -> Option<&Graph>
    ensures { option_copied result ≡ graph_in (value_tree value.now) }
{
    match value {
        Value::CallGraph(x) => Some(x),
        Value::Source(_)
        | Value::Parsed(_)
        | Value::Lines(_)
        | Value::Symbols(_)
        | Value::Effects(_)
        | Value::Transformers(_)
        | Value::Preconditions(_)
        | Value::Regions(_)
        | Value::InRegions(_)
        | Value::OutRegions(_)
        | Value::Marks(_)
        | Value::Printed(_) => None,
    }
}

/// Where it is the effects of a module.
pub fn effects_of(value: &Value) -> Option<&Results<EffectSet>>
    ensures { option_copied result ≡ effects_in (value_tree value.now) }
{
    match value {
        Value::Effects(x) => Some(x),
        Value::Source(_)
        | Value::Parsed(_)
        | Value::Lines(_)
        | Value::Symbols(_)
        | Value::CallGraph(_)
        | Value::Transformers(_)
        | Value::Preconditions(_)
        | Value::Regions(_)
        | Value::InRegions(_)
        | Value::OutRegions(_)
        | Value::Marks(_)
        | Value::Printed(_) => None,
    }
}

/// Where it is the transformers of a module.
pub fn transformers_of(value: &Value) -> Option<&Results<Transformer>>
    ensures { option_copied result ≡ transformers_in (value_tree value.now) }
{
    match value {
        Value::Transformers(x) => Some(x),
        Value::Source(_)
        | Value::Parsed(_)
        | Value::Lines(_)
        | Value::Symbols(_)
        | Value::CallGraph(_)
        | Value::Effects(_)
        | Value::Preconditions(_)
        | Value::Regions(_)
        | Value::InRegions(_)
        | Value::OutRegions(_)
        | Value::Marks(_)
        | Value::Printed(_) => None,
    }
}

/// Where it is the preconditions of a module.
pub fn preconditions_of(value: &Value) -> Option<&Results<System>>
    ensures { option_copied result ≡ preconditions_in (value_tree value.now) }
{
    match value {
        Value::Preconditions(x) => Some(x),
        Value::Source(_)
        | Value::Parsed(_)
        | Value::Lines(_)
        | Value::Symbols(_)
        | Value::CallGraph(_)
        | Value::Effects(_)
        | Value::Transformers(_)
        | Value::Regions(_)
        | Value::InRegions(_)
        | Value::OutRegions(_)
        | Value::Marks(_)
        | Value::Printed(_) => None,
    }
}

/// Where it is the READ and WRITE regions of a module.
pub fn regions_of(value: &Value) -> Option<&Results<RegionSet>>
    ensures { option_copied result ≡ regions_in (value_tree value.now) }
{
    match value {
        Value::Regions(x) => Some(x),
        Value::Source(_)
        | Value::Parsed(_)
        | Value::Lines(_)
        | Value::Symbols(_)
        | Value::CallGraph(_)
        | Value::Effects(_)
        | Value::Transformers(_)
        | Value::Preconditions(_)
        | Value::InRegions(_)
        | Value::OutRegions(_)
        | Value::Marks(_)
        | Value::Printed(_) => None,
    }
}

/// Where it is the IN regions of a module.
pub fn in_regions_of(value: &Value) -> Option<&Results<RegionSet>>
    ensures { option_copied result ≡ ins_in (value_tree value.now) }
{
    match value {
        Value::InRegions(x) => Some(x),
        Value::Source(_)
        | Value::Parsed(_)
        | Value::Lines(_)
        | Value::Symbols(_)
        | Value::CallGraph(_)
        | Value::Effects(_)
        | Value::Transformers(_)
        | Value::Preconditions(_)
        | Value::Regions(_)
        | Value::OutRegions(_)
        | Value::Marks(_)
        | Value::Printed(_) => None,
    }
}

/// Where it is the OUT regions of a module.
pub fn out_regions_of(value: &Value) -> Option<&Results<RegionSet>>
    ensures { option_copied result ≡ outs_in (value_tree value.now) }
{
    match value {
        Value::OutRegions(x) => Some(x),
        Value::Source(_)
        | Value::Parsed(_)
        | Value::Lines(_)
        | Value::Symbols(_)
        | Value::CallGraph(_)
        | Value::Effects(_)
        | Value::Transformers(_)
        | Value::Preconditions(_)
        | Value::Regions(_)
        | Value::InRegions(_)
        | Value::Marks(_)
        | Value::Printed(_) => None,
    }
}

/// Where it is the marks of a module.
pub fn marks_of(value: &Value) -> Option<&List<At<Mark>>>
    ensures { option_copied result ≡ marks_in (value_tree value.now) }
{
    match value {
        Value::Marks(x) => Some(x),
        Value::Source(_)
        | Value::Parsed(_)
        | Value::Lines(_)
        | Value::Symbols(_)
        | Value::CallGraph(_)
        | Value::Effects(_)
        | Value::Transformers(_)
        | Value::Preconditions(_)
        | Value::Regions(_)
        | Value::InRegions(_)
        | Value::OutRegions(_)
        | Value::Printed(_) => None,
    }
}

/// Where it is the printed text of a module.
pub fn printed_of(value: &Value) -> Option<&Text>
    ensures { option_copied result ≡ printed_in (value_tree value.now) }
{
    match value {
        Value::Printed(x) => Some(x),
        Value::Source(_)
        | Value::Parsed(_)
        | Value::Lines(_)
        | Value::Symbols(_)
        | Value::CallGraph(_)
        | Value::Effects(_)
        | Value::Transformers(_)
        | Value::Preconditions(_)
        | Value::Regions(_)
        | Value::InRegions(_)
        | Value::OutRegions(_)
        | Value::Marks(_) => None,
    }
}
