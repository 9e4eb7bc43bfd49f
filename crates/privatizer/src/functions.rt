//! The functions of which a module takes values.
ghost use Rattle.std.specs.Prelude.{◌≡◌, [], ◌++◌, map, IfOk, OnOk};
ghost use Rattle.std.specs.List.{list_any};
ghost use Rattle.f77_ast.specs.PlainDecl.{decl_tree, module_tree};
ghost use Rattle.f77_ast.specs.PlainStmt.{arm_trees, stmt_tree, stmt_trees, what_tree};
ghost use Rattle.f77_ast.specs.Shapes.{walk_arms, walk_list, walk_stmt};
ghost use Rattle.privatizer.specs.Functions.{called_by, functions_in as functions_in_is, is_empty as is_empty_is, is_one_of as is_one_of_is, module_functions as module_functions_is, own_functions as own_functions_is, saves_all as saves_all_is, saves_all_by as saves_all_by_is, the_functions};

use f77_ast::{Arm, Decl, Module, SaveItem, Shape, Stmt, What, shape_of};
use fx_lists::{List, Text};
use std::alloc::{AllocError as Memory, Global};

/// Adds what a CALL calls.
#[tactic(auto, using(crate::proofs::Steps::walks))]
fn push_called(names: &mut List<Text>, what: &What) -> Result<(), Memory>
    ensures { OnOk result (names.new ≡ names.old ++ called_by (what_tree what.now)) }
{
    match what {
        What::Call(callee, _) => names.push(callee.clone()?),
        What::Assign(..)
        | What::If(..)
        | What::LogicalIf(..)
        | What::Do(_)
        | What::Goto(_)
        | What::Continue
        | What::Return
        | What::Stop(_)
        | What::Print(_)
        | What::Read(_) => Ok(()),
    }
}

/// Adds what the hidden CALLs among a statement and its parts call.
#[cycle(functions)]
#[tactic(auto, using(crate::proofs::Steps::walks))]
fn push_stmt(names: &mut List<Text>, s: &Stmt) -> Result<(), Memory>
    ensures { OnOk result (names.new ≡ names.old ++ walk_stmt the_functions (stmt_tree s.now)) }
{
    match shape_of(&s.what) {
        Shape::Leaf => {
            if s.id > 4096 {
                push_called(names, &s.what)?;
            }
            Ok(())
        }
        Shape::Inner(_, inner) => push_stmt(names, inner),
        Shape::Body(l) => push_list(names, &l.body),
        Shape::Arms(arms, other) => {
            push_arms(names, arms)?;
            match other {
                None => Ok(()),
                Some(body) => push_list(names, body),
            }
        }
    }
}

#[cycle(functions)]
#[tactic(auto, using(crate::proofs::Steps::walks))]
fn push_list(names: &mut List<Text>, list: &List<Stmt>) -> Result<(), Memory>
    ensures { OnOk result (names.new ≡ names.old ++ walk_list the_functions (stmt_trees list.now)) }
{
    for s in list.as_slice() {
        push_stmt(names, s)?;
    }
    Ok(())
}

#[cycle(functions)]
#[tactic(auto, using(crate::proofs::Steps::walks))]
fn push_arms(names: &mut List<Text>, arms: &List<Arm>) -> Result<(), Memory>
    ensures { OnOk result (names.new ≡ names.old ++ walk_arms the_functions (arm_trees arms.now)) }
{
    for arm in arms.as_slice() {
        push_list(names, &arm.body)?;
    }
    Ok(())
}

/// The functions of which a list takes values, once for each value, in the order of the text; the names are copied.
fn functions_in(alloc: Global, list: &List<Stmt>) -> Result<List<Text>, Memory>
    ensures { IfOk result (λ names. names ≡ functions_in_is (stmt_trees list.now)) }
{
    let mut names = List::new(alloc);
    push_list(&mut names, list)?;
    Ok(names)
}

/// The functions of which a module takes values. Looks at no statement where the module takes none.
pub fn module_functions(alloc: Global, module: &Module) -> Result<List<Text>, Memory>
    ensures { IfOk result (λ names. names ≡ module_functions_is (module_tree «module».now)) }
{
    if module.references.is_empty() {
        Ok(List::new(alloc))
    } else {
        functions_in(alloc, &module.body)
    }
}

/// Whether a name is one of these.
#[tactic(auto, using(crate::proofs::Steps::parts))]
pub fn is_one_of(names: &List<Text>, name: &Text) -> bool
    ensures { result ≡ is_one_of_is names.now name.now }
{
    let mut rest = names.as_slice();
    while let [other, more @ ..] = rest {
        if name == other {
            return true;
        }
        rest = more;
    }
    false
}

fn is_empty(items: &[SaveItem]) -> bool
    ensures { result ≡ is_empty_is items.now }
{
    match items {
        [] => true,
        [_, ..] => false,
    }
}

/// Whether a statement is a SAVE without a list.
fn saves_all_by(decl: &Decl) -> bool
    ensures { result ≡ saves_all_by_is (decl_tree decl.now) }
{
    match decl {
        Decl::Save(items) => is_empty(items.as_slice()),
        Decl::Implicit(_)
        | Decl::Integer(_)
        | Decl::Logical(_)
        | Decl::Dimension(_)
        | Decl::Parameter(_)
        | Decl::Common(_)
        | Decl::Equivalence(_)
        | Decl::Data(_) => false,
    }
}

/// Whether a module saves all its variables (ANSI X3.9-1978, §8.9).
fn saves_all(module: &Module) -> bool
    ensures { result ≡ saves_all_is (module_tree «module».now) }
{
    let mut rest = module.decls.as_slice();
    while let [decl, more @ ..] = rest {
        if saves_all_by(decl) {
            return true;
        }
        rest = more;
    }
    false
}

/// The functions of which each iteration of a DO of a module has the result for itself: those of which the body of the DO takes values, unless the
/// module saves all its variables.
pub fn own_functions(
    alloc: Global,
    module: &Module,
    body: &List<Stmt>,
) -> Result<List<Text>, Memory>
    ensures { IfOk result (λ names. names ≡ own_functions_is (module_tree «module».now) (stmt_trees body.now)) }
{
    if module.references.is_empty() || saves_all(module) {
        Ok(List::new(alloc))
    } else {
        functions_in(alloc, body)
    }
}
