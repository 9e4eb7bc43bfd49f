//! Equality of values.
ghost use Rattle.std.specs.Prelude.{◌≡◌, ◌↔◌, IsTrue};
ghost use Rattle.result_store.specs.Values.{value_tree};

use crate::forms::{
    effects_of, graph_of, in_regions_of, lines_of, marks_of, out_regions_of, parsed_of,
    preconditions_of, printed_of, regions_of, source_of, symbols_of, transformers_of,
};
use crate::value::Value;
use crate::{same_effects, same_marks, same_preconditions, same_region_sets, same_transformers};
use same_values::{same_graph, same_module, same_places, same_symbols};

/// Whether two values are of one kind and equal. Takes no memory.
pub fn same_value(a: &Value, b: &Value) -> bool
    ensures { IsTrue result ↔ (value_tree a.now ≡ value_tree b.now) }
{
    match a {
        Value::Source(x) => match source_of(b) {
            Some(y) => x == y,
            None => false,
        },
        Value::Parsed(x) => match parsed_of(b) {
            Some(y) => same_module(x, y),
            None => false,
        },
        Value::Lines(x) => match lines_of(b) {
            Some(y) => same_places(x, y),
            None => false,
        },
        Value::Symbols(x) => match symbols_of(b) {
            Some(y) => same_symbols(x, y),
            None => false,
        },
        Value::CallGraph(x) => match graph_of(b) {
            Some(y) => same_graph(x, y),
            None => false,
        },
        Value::Effects(x) => match effects_of(b) {
            Some(y) => same_effects(x, y),
            None => false,
        },
        Value::Transformers(x) => match transformers_of(b) {
            Some(y) => same_transformers(x, y),
            None => false,
        },
        Value::Preconditions(x) => match preconditions_of(b) {
            Some(y) => same_preconditions(x, y),
            None => false,
        },
        Value::Regions(x) => match regions_of(b) {
            Some(y) => same_region_sets(x, y),
            None => false,
        },
        Value::InRegions(x) => match in_regions_of(b) {
            Some(y) => same_region_sets(x, y),
            None => false,
        },
        Value::OutRegions(x) => match out_regions_of(b) {
            Some(y) => same_region_sets(x, y),
            None => false,
        },
        Value::Marks(x) => match marks_of(b) {
            Some(y) => same_marks(x, y),
            None => false,
        },
        Value::Printed(x) => match printed_of(b) {
            Some(y) => x == y,
            None => false,
        },
    }
}
