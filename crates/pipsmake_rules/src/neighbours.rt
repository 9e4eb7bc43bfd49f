//! The modules that a module calls, and those that call it.
ghost use Rattle.std.specs.Prelude.{◌≡◌, [], ◌∷◌, ◌++◌, filter, reverse, IfOk, bytes_eq, if◌then◌else◌};
ghost use Rattle.pipsmake_rules.specs.Neighbours.{has_name, name_put, callees_of, callers_of, caller_in, calling};

use call_graph::{Edge, Graph};
use fx_lists::{List, Text};
use std::alloc::{AllocError as Memory, Global};

/// Whether a name is in a list. Linear in its length.
fn has_name(names: &[Text], name: &Text) -> bool
    ensures { result ≡ has_name names.now name.now }
{
    names.iter().any(|other| other == name)
}

/// Adds a name at the end, unless it is there.
fn put_name(names: &mut List<Text>, name: &Text) -> Result<(), Memory>
    ensures { IfOk result (λ _. names.new ≡ name_put name.now names.old) }
{
    if has_name(names.as_slice(), name) {
        return Ok(());
    }
    names.push(name.clone()?)?;
    Ok(())
}

/// Adds what a CALL calls, if it is in the module of a name.
fn put_callee(names: &mut List<Text>, edge: &Edge, name: &Text) -> Result<(), Memory>
    ensures { IfOk result (λ _. names.new ≡ (if bytes_eq edge.now.caller name.now then name_put edge.now.callee names.old else names.old)) }
{
    if edge.caller == *name {
        return put_name(names, &edge.callee);
    }
    Ok(())
}

/// The names of the modules that a module calls, each once, in the order of its first CALLs. Linear in the number of CALLs of the program.
pub fn callees(alloc: Global, graph: &Graph, name: &Text) -> Result<List<Text>, Memory>
    ensures { IfOk result (λ names. names ≡ callees_of graph.now name.now) }
{
    let mut names = List::new(alloc);
    let mut rest = graph.edges.as_slice();
    while let [edge, more @ ..] = rest {
        put_callee(&mut names, edge, name)?;
        rest = more;
    }
    Ok(names)
}

/// Adds the calling module of a CALL, if it is of the module of a name.
fn put_caller(names: &mut List<Text>, edge: &Edge, name: &Text) -> Result<(), Memory>
    ensures { IfOk result (λ _. names.new ≡ names.old ++ caller_in name.now edge.now) }
{
    if edge.callee == *name {
        names.push(edge.caller.clone()?)?;
    }
    Ok(())
}

/// The calling modules of the CALLs of a module.
fn calling(alloc: Global, edges: &[Edge], name: &Text) -> Result<List<Text>, Memory>
    ensures { IfOk result (λ names. names ≡ calling name.now edges.now) }
{
    let mut names = List::new(alloc);
    let mut rest = edges;
    while let [edge, more @ ..] = rest {
        put_caller(&mut names, edge, name)?;
        rest = more;
    }
    Ok(names)
}

/// Adds a name, if others have it.
fn put_if(names: &mut List<Text>, others: &[Text], name: &Text) -> Result<(), Memory>
    ensures { IfOk result (λ _. names.new ≡ names.old ++ filter (has_name others.now) (name.now ∷ [])) }
{
    if has_name(others, name) {
        names.push(name.clone()?)?;
    }
    Ok(())
}

/// Those of the names that others have.
#[tactic(auto, using(crate::proofs::NeighbourLaws::filter_steps))]
fn among(alloc: Global, names: &[Text], others: &[Text]) -> Result<List<Text>, Memory>
    ensures { IfOk result (λ found. found ≡ filter (has_name others.now) names.now) }
{
    let mut found = List::new(alloc);
    let mut rest = names;
    while let [name, more @ ..] = rest {
        put_if(&mut found, others, name)?;
        rest = more;
    }
    Ok(found)
}

/// The elements of a list, from the last on.
fn reversed(names: List<Text>) -> List<Text>
    ensures { result ≡ reverse names }
{
    let mut names = names.into_vec();
    names.reverse();
    List::from_vec(names)
}

/// The names of the modules that call a module, from the last in the order of the graph to the first. Linear in the number of CALLs of the
/// program, and for each module in the number of CALLs of this one.
#[tactic(auto, using(crate::proofs::NeighbourLaws::two_steps))]
pub fn callers(alloc: Global, graph: &Graph, name: &Text) -> Result<List<Text>, Memory>
    ensures { IfOk result (λ names. names ≡ callers_of graph.now name.now) }
{
    let calling = calling(alloc, graph.edges.as_slice(), name)?;
    let found = among(alloc, graph.order.as_slice(), calling.as_slice())?;
    Ok(reversed(found))
}
