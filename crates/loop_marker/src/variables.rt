//! The variables of a DO that iterations might need copies of.
ghost use Rattle.std.specs.Prelude.{◌≡◌, ◌++◌, ◌∷◌, [], IfOk, OnOk};
ghost use Rattle.f77_ast.specs.PlainStmt.{stmt_tree, stmt_trees, loop_tree, arm_trees};
ghost use Rattle.f77_ast.specs.PlainDecl.{module_tree};
ghost use Rattle.f77_ast.specs.Shapes.{walk_stmt, walk_list, walk_arms};
ghost use Rattle.f77_ast.specs.Index.{names_of};
ghost use Rattle.f77_ast.specs.Symbols.{number_from};
ghost use Rattle.loop_marker.specs.Variables.{own_variable as own_variable_is, index_of as index_of_is, the_indexes, in_order_with, indexes_in as indexes_in_is, with_names as with_names_is, inner_in as inner_in_is, is_write as is_write_is, written_in as written_in_is, is_among as is_among_is, is_of_some as is_of_some_is};

use call_graph::View;
use f77_ast::{
    Arm, Loop, Shape, Stmt, Symbols, Variable, copy_variable, same_variable, shape_of, union,
};
use fx_lists::{List, Text};
use privatizer::own_functions;
use region_sets::{Access, Region};
use std::alloc::{AllocError as Memory, Global};

fn push_own(made: &mut Vec<Variable>, number: Option<u32>) -> Result<(), Memory>
    ensures { OnOk result (made.new.items ≡ made.old.items ++ own_variable_is number) }
{
    match number {
        None => Ok(()),
        Some(number) => {
            made.push(Variable::Own(number))?;
            Ok(())
        }
    }
}

/// The variable of a DO; none where no symbol has its name.
#[tactic(auto, using(crate::proofs::Steps::indexes))]
fn push_index(made: &mut Vec<Variable>, symbols: &Symbols, l: &Loop) -> Result<(), Memory>
    ensures { OnOk result (made.new.items ≡ made.old.items ++ index_of_is (names_of symbols.now) (loop_tree l.now)) }
{
    push_own(made, symbols.number(&l.index))
}

/// Adds the variables of the DO statements in a statement.
#[cycle(indexes)]
#[tactic(auto, using(crate::proofs::Steps::walks))]
fn push_stmt(made: &mut Vec<Variable>, symbols: &Symbols, s: &Stmt) -> Result<(), Memory>
    ensures { OnOk result (made.new.items ≡ made.old.items ++ walk_stmt (the_indexes (names_of symbols.now)) (stmt_tree s.now)) }
{
    match shape_of(&s.what) {
        Shape::Leaf => Ok(()),
        Shape::Inner(_, inner) => push_stmt(made, symbols, inner),
        Shape::Body(l) => {
            push_index(made, symbols, l)?;
            push_list(made, symbols, &l.body)
        }
        Shape::Arms(arms, other) => {
            push_arms(made, symbols, arms)?;
            match other {
                None => Ok(()),
                Some(body) => push_list(made, symbols, body),
            }
        }
    }
}

#[cycle(indexes)]
#[tactic(auto, using(crate::proofs::Steps::walks))]
fn push_list(made: &mut Vec<Variable>, symbols: &Symbols, list: &List<Stmt>) -> Result<(), Memory>
    ensures { OnOk result (made.new.items ≡ made.old.items ++ walk_list (the_indexes (names_of symbols.now)) (stmt_trees list.now)) }
{
    for s in list.as_slice() {
        push_stmt(made, symbols, s)?;
    }
    Ok(())
}

#[cycle(indexes)]
#[tactic(auto, using(crate::proofs::Steps::walks))]
fn push_arms(made: &mut Vec<Variable>, symbols: &Symbols, arms: &List<Arm>) -> Result<(), Memory>
    ensures { OnOk result (made.new.items ≡ made.old.items ++ walk_arms (the_indexes (names_of symbols.now)) (arm_trees arms.now)) }
{
    for arm in arms.as_slice() {
        push_list(made, symbols, &arm.body)?;
    }
    Ok(())
}

fn one_of(alloc: Global, v: &Variable) -> Result<List<Variable>, Memory>
    ensures { IfOk result (λ vs. vs ≡ v.now ∷ []) }
{
    let mut made = List::new(alloc);
    made.push(copy_variable(v)?)?;
    Ok(made)
}

/// These in order, each once; each is put among those before it.
#[tactic(auto, using(crate::proofs::Steps::lists))]
fn in_order(alloc: Global, variables: &[Variable]) -> Result<List<Variable>, Memory>
    ensures { IfOk result (λ vs. vs ≡ in_order_with [] variables.now) }
{
    let mut all = List::new(alloc);
    let mut rest = variables;
    while let [v, more @ ..] = rest {
        let one = one_of(alloc, v)?;
        all = union(alloc, &all, &one)?;
        rest = more;
    }
    Ok(all)
}

/// The variables of the DO statements in a list, in order, each once.
fn indexes_in(alloc: Global, symbols: &Symbols, list: &List<Stmt>) -> Result<List<Variable>, Memory>
    ensures { IfOk result (λ vs. vs ≡ indexes_in_is (names_of symbols.now) (stmt_trees list.now)) }
{
    let mut made = Vec::new(alloc);
    push_list(&mut made, symbols, list)?;
    in_order(alloc, made.as_slice())
}

/// The symbol with a name, where there is one.
fn named(alloc: Global, symbols: &Symbols, name: &Text) -> Result<List<Variable>, Memory>
    ensures { IfOk result (λ vs. vs ≡ own_variable_is (number_from 1 (names_of symbols.now) name.now)) }
{
    let mut made = List::new(alloc);
    match symbols.number(name) {
        None => {}
        Some(number) => made.push(Variable::Own(number))?,
    }
    Ok(made)
}

/// These, and the symbols with the other names, in order, each once.
#[tactic(auto, using(crate::proofs::Steps::lists))]
fn with_names(
    alloc: Global,
    symbols: &Symbols,
    variables: List<Variable>,
    names: &List<Text>,
) -> Result<List<Variable>, Memory>
    ensures { IfOk result (λ vs. vs ≡ with_names_is (names_of symbols.now) variables names.now) }
{
    let mut all = variables;
    let mut rest = names.as_slice();
    while let [name, more @ ..] = rest {
        let one = named(alloc, symbols, name)?;
        all = union(alloc, &all, &one)?;
        rest = more;
    }
    Ok(all)
}

/// The variables of which each iteration of a DO has one of its own: those of the DO statements in its body, and the results of the functions of which
/// it takes values; in order, each once.
#[tactic(auto, using(crate::proofs::Steps::loops))]
pub fn inner_in(alloc: Global, view: &View<'_>, l: &Loop) -> Result<List<Variable>, Memory>
    ensures { IfOk result (λ vs. vs ≡ inner_in_is (names_of view.now.symbols.now) (module_tree view.now.«module».now) (loop_tree l.now)) }
{
    let indexes = indexes_in(alloc, view.symbols, &l.body)?;
    let functions = own_functions(alloc, view.module, &l.body)?;
    with_names(alloc, view.symbols, indexes, &functions)
}

fn is_write(access: Access) -> bool
    ensures { result ≡ is_write_is access }
{
    match access {
        Access::Write => true,
        Access::Read | Access::In | Access::Out => false,
    }
}

/// The variables of WRITE regions, in the order of the set.
#[tactic(auto, using(crate::proofs::Steps::lists))]
pub fn written_in(alloc: Global, regions: &[Region]) -> Result<List<Variable>, Memory>
    ensures { IfOk result (λ vs. vs ≡ written_in_is regions.now) }
{
    let mut made = List::new(alloc);
    let mut rest = regions;
    while let [r, more @ ..] = rest {
        if is_write(r.kind) {
            made.push(copy_variable(&r.variable)?)?;
        }
        rest = more;
    }
    Ok(made)
}

#[tactic(auto, using(crate::proofs::Steps::lists))]
pub fn is_among(variables: &[Variable], v: &Variable) -> bool
    ensures { result ≡ is_among_is variables.now v.now }
{
    let mut rest = variables;
    while let [w, more @ ..] = rest {
        if same_variable(v, w) {
            return true;
        }
        rest = more;
    }
    false
}

/// Whether a region is of the variable.
#[tactic(auto, using(crate::proofs::Steps::lists))]
pub fn is_of_some(v: &Variable, regions: &[Region]) -> bool
    ensures { result ≡ is_of_some_is v.now regions.now }
{
    let mut rest = regions;
    while let [r, more @ ..] = rest {
        if same_variable(v, &r.variable) {
            return true;
        }
        rest = more;
    }
    false
}
