//! The order of modules, each after those that it calls.
ghost use Rattle.std.specs.Prelude.{◌≡◌, ◌≤◌, ◌++◌, length, slice_get, option_to_list, IfOk};
ghost use Rattle.std.specs.List.{list_all};
ghost use Rattle.call_graph.specs.Modules.{most_modules};
ghost use Rattle.call_graph.specs.Order.{holds, ready, first_ready, order_of, names_at};

use fx_lists::{List, Text};
use std::alloc::{AllocError as Memory, Global};
use tracked_cells::Names;

/// Whether a place is in a list. Linear in its length.
pub fn holds(order: &List<u32>, place: u32) -> bool
    ensures { result ≡ holds order.now place }
{
    order.as_slice().iter().any(|p| *p == place)
}

fn all_held(order: &List<u32>, places: &List<u32>) -> bool
    ensures { result ≡ list_all (λ c. holds order.now c) places.now }
{
    places.as_slice().iter().all(|p| holds(order, *p))
}

/// Whether a module is not in the order yet, and all that it calls are.
fn ready(order: &List<u32>, place: u32, callees: &List<u32>) -> bool
    ensures { result ≡ ready order.now place callees.now }
{
    !holds(order, place) && all_held(order, callees)
}

/// The first module that comes next.
fn first_ready(order: &List<u32>, callees: &List<List<u32>>) -> Option<u32>
    requires { length callees.now ≤ most_modules }
    ensures { result ≡ first_ready 0 callees.now order.now }
{
    let mut place = 0u32;
    let mut rest = callees.as_slice();
    while let [called, more @ ..] = rest {
        if ready(order, place, called) {
            return Some(place);
        }
        place += 1;
        rest = more;
    }
    None
}

/// The modules in order, by their places. For each the order so far is gone through; modules are few.
#[tactic(auto, using(crate::proofs::OrderLaws::order_steps))]
pub(crate) fn order_of(alloc: Global, callees: &List<List<u32>>) -> Result<List<u32>, Memory>
    requires { length callees.now ≤ most_modules }
    ensures { IfOk result (λ order. order ≡ order_of callees.now) }
{
    let mut order = List::new(alloc);
    for _round in 0..callees.len() {
        if let Some(place) = first_ready(&order, callees) {
            order.push(place)?;
        }
    }
    Ok(order)
}

/// Adds the name at a place.
fn put_name(named: &mut List<Text>, names: &Names, place: u32) -> Result<(), Memory>
    ensures { IfOk result (λ _. named.new ≡ named.old ++ option_to_list (slice_get names.now place)) }
{
    match names.name(place) {
        None => Ok(()),
        Some(name) => named.push(name.clone()?),
    }
}

/// The names of the modules in the order of their calls, each after those that it calls; of modules that may come next the
/// first in the text does. `callees` has for each module the places, from 0, of those that it calls. Modules on a cycle of
/// calls, or that call such modules, are left out.
pub fn names_in_order(
    alloc: Global,
    names: &Names,
    callees: &List<List<u32>>,
) -> Result<List<Text>, Memory>
    requires { length callees.now ≤ most_modules }
    ensures { IfOk result (λ order. order ≡ names_at (order_of callees.now) names.now) }
{
    let order = order_of(alloc, callees)?;
    let mut named = List::new(alloc);
    let mut rest = order.as_slice();
    while let [place, more @ ..] = rest {
        put_name(&mut named, names, *place)?;
        rest = more;
    }
    Ok(named)
}
