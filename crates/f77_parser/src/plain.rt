//! Modules in which no statement stands for another.
ghost use Rattle.std.specs.Prelude.{◌≡◌, [], not};
ghost use Rattle.f77_ast.specs.PlainStmt.{arm_trees, stmt_tree, stmt_trees, what_tree};
ghost use Rattle.f77_ast.specs.PlainDecl.{module_tree};
ghost use Rattle.f77_structure.specs.Lists.{is_none_of};
ghost use Rattle.f77_parser.specs.Elaborated.{values_arms, values_in, values_of};
ghost use Rattle.f77_parser.specs.References.{assigned_in, is_reference};
ghost use Rattle.f77_parser.specs.Known.{meant_without};

use crate::functions::is_external;
use crate::names::NameSet;
use crate::references::assigned_in;
use f77_ast::{Arm, Module, Shape, Stmt, What, shape_of};
use fx_lists::List;
use std::alloc::Global;

/// Whether the statement is no assignment of the value of a function, where these names have bounds.
fn is_no_reference(bounded: &NameSet, what: &What) -> bool
    ensures { result ≡ not (is_reference bounded.now (assigned_in (what_tree what.now))) }
{
    match assigned_in(what) {
        None => true,
        Some((name, _)) => !is_external(bounded, name),
    }
}

#[cycle(values)]
#[tactic(auto, using(crate::proofs::PlainLaws::value_calls))]
fn has_no_value(bounded: &NameSet, s: &Stmt) -> bool
    ensures { result ≡ is_none_of (values_of (meant_without bounded.now) (stmt_tree s.now)) }
{
    match shape_of(&s.what) {
        Shape::Leaf => is_no_reference(bounded, &s.what),
        Shape::Inner(_, inner) => has_no_value(bounded, inner),
        Shape::Body(l) => has_no_values(bounded, &l.body),
        Shape::Arms(arms, other) => {
            if !have_no_values(bounded, arms) {
                return false;
            }
            match other {
                None => true,
                Some(body) => has_no_values(bounded, body),
            }
        }
    }
}

/// Whether no statement of a list is an assignment of the value of a function, where these names have bounds, and no DO WHILE is in
/// the list.
#[cycle(values)]
#[tactic(auto, using(crate::proofs::PlainLaws::value_calls))]
pub fn has_no_values(bounded: &NameSet, list: &List<Stmt>) -> bool
    ensures { result ≡ is_none_of (values_in (meant_without bounded.now) (stmt_trees list.now)) }
{
    for s in list.as_slice() {
        if !has_no_value(bounded, s) {
            return false;
        }
    }
    true
}

#[cycle(values)]
#[tactic(auto, using(crate::proofs::PlainLaws::value_calls))]
fn have_no_values(bounded: &NameSet, arms: &List<Arm>) -> bool
    ensures { result ≡ is_none_of (values_arms (meant_without bounded.now) (arm_trees arms.now)) }
{
    for arm in arms.as_slice() {
        if !has_no_values(bounded, &arm.body) {
            return false;
        }
    }
    true
}

/// The module, where no block IF of it stands for another statement.
pub fn unchanged(alloc: Global, written: Module) -> Module
    ensures { module_tree result ≡ record (module_tree written) { references = [] } }
{
    let mut made = written;
    made.references = List::new(alloc);
    made
}
