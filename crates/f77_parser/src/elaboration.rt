//! From a module as it is written to the module with the statements that stand for assignments of the value of a function and for
//! DO WHILEs.
ghost use Rattle.std.specs.Prelude.{◌≡◌, ◌++◌, IfOk, OnOk, map};
ghost use Rattle.f77_ast.specs.Plain.{expr_tree};
ghost use Rattle.f77_ast.specs.PlainStmt.{arm_trees, loop_tree, maybe_tree, stmt_tree, stmt_trees, what_tree};
ghost use Rattle.f77_ast.specs.PlainDecl.{module_tree};
ghost use Rattle.f77_ast.specs.Trees.{assign};
ghost use Rattle.f77_parser.specs.Elaborated.{assigned, elaborated, elaborated_arms, elaborated_in, elaborated_loop, elaborated_stmt, elaborated_what, elaborated_while, hidden_arms, hidden_by, hidden_in, hidden_loop, hidden_to, hidden_while, values_arms, values_by, values_in, values_loop, values_of, values_while};
ghost use Rattle.f77_parser.specs.Known.{meant};

use crate::functions::bounded_names;
use crate::hidden::{guarded, value_block, while_block};
use crate::known::Known;
use crate::numbers::sum;
use crate::plain::{has_no_values, unchanged};
use crate::progress::add_arm;
use crate::references::application_in;
use f77_ast::{Arm, Expr, Loop, Module, Stmt, StmtId, What, copy_expr, copy_exprs};
use fx_lists::{List, Text};
use std::alloc::{AllocError as Memory, Global};

/// What is counted on the way: the hidden statements, and the assignments of the value of a function.
#[derive(Drop)]
struct Count {
    hidden: u32,
    references: List<StmtId>,
}

/// A copy of an assignment.
#[tactic(auto, using(f77_ast::proofs::PlainlyStmt::what_cases))]
fn copy_assign(alloc: Global, left: &Expr, right: &Expr) -> Result<What, Memory>
    ensures { IfOk result (λ w. what_tree w ≡ assign (expr_tree left.now) (expr_tree right.now)) }
{
    let left = copy_expr(alloc, left)?;
    let right = copy_expr(alloc, right)?;
    Ok(What::Assign(left, right))
}

/// An assignment, or what stands for it.
#[tactic(auto, using(crate::proofs::ElaborateLaws::assignments))]
fn assigned(
    alloc: Global,
    known: &Known,
    count: &mut Count,
    id: StmtId,
    left: &Expr,
    right: &Expr,
) -> Result<What, Memory>
    ensures tree { IfOk result (λ w. what_tree w ≡ assigned (meant known.now) count.old.hidden (expr_tree left.now) (expr_tree right.now)) }
    ensures hidden { OnOk result (count.new.hidden ≡ hidden_by (meant known.now) count.old.hidden id (assign (expr_tree left.now) (expr_tree right.now))) }
    ensures values { OnOk result (count.new.references ≡ count.old.references ++ values_by (meant known.now) id (assign (expr_tree left.now) (expr_tree right.now))) }
{
    match application_in(right) {
        None => copy_assign(alloc, left, right),
        Some((function, actuals)) => {
            if !known.is_function(function) {
                return copy_assign(alloc, left, right);
            }
            let what = value_block(alloc, known, count.hidden, left, function, actuals)?;
            count.hidden = sum(3, count.hidden)?;
            count.references.push(id)?;
            Ok(what)
        }
    }
}

fn copy_step(alloc: Global, step: &Option<Expr>) -> Result<Option<Expr>, Memory>
    ensures { IfOk result (λ copy. maybe_tree copy ≡ maybe_tree step.now) }
{
    match step {
        None => Ok(None),
        Some(step) => Ok(Some(copy_expr(alloc, step)?)),
    }
}

fn copy_text(text: &Option<Text>) -> Result<Option<Text>, Memory>
    ensures { IfOk result (λ copy. copy ≡ text.now) }
{
    match text {
        None => Ok(None),
        Some(text) => Ok(Some(text.clone()?)),
    }
}

#[cycle(elaborate)]
fn elaborated_stmt(
    alloc: Global,
    known: &Known,
    count: &mut Count,
    s: &Stmt,
) -> Result<Stmt, Memory>
    ensures tree { IfOk result (λ made. stmt_tree made ≡ elaborated_stmt (meant known.now) count.old.hidden (stmt_tree s.now)) }
    ensures hidden { OnOk result (count.new.hidden ≡ hidden_to (meant known.now) count.old.hidden (stmt_tree s.now)) }
    ensures values { OnOk result (count.new.references ≡ count.old.references ++ values_of (meant known.now) (stmt_tree s.now)) }
{
    let id = s.id;
    let label = s.label;
    let what = elaborated_what(alloc, known, count, id, &s.what)?;
    Ok(Stmt { id, label, what })
}

#[cycle(elaborate)]
#[tactic(auto, using(crate::proofs::ElaborateLaws::what_calls))]
fn elaborated_what(
    alloc: Global,
    known: &Known,
    count: &mut Count,
    id: StmtId,
    what: &What,
) -> Result<What, Memory>
    ensures tree { IfOk result (λ made. what_tree made ≡ elaborated_what (meant known.now) count.old.hidden id (what_tree what.now)) }
    ensures hidden { OnOk result (count.new.hidden ≡ hidden_by (meant known.now) count.old.hidden id (what_tree what.now)) }
    ensures values { OnOk result (count.new.references ≡ count.old.references ++ values_by (meant known.now) id (what_tree what.now)) }
{
    match what {
        What::Assign(left, right) => assigned(alloc, known, count, id, left, right),
        What::If(arms, other) => {
            if known.is_while(id) {
                return elaborated_while(alloc, known, count, id, arms);
            }
            let arms = elaborated_arms(alloc, known, count, arms)?;
            match other {
                None => Ok(What::If(arms, None)),
                Some(body) => {
                    let body = elaborated_list(alloc, known, count, body)?;
                    Ok(What::If(arms, Some(body)))
                }
            }
        }
        What::LogicalIf(test, s) => {
            let test = copy_expr(alloc, test)?;
            guarded(alloc, test, elaborated_stmt(alloc, known, count, s)?)
        }
        What::Do(l) => Ok(What::Do(elaborated_loop(alloc, known, count, l)?)),
        What::Call(name, es) => Ok(What::Call(name.clone()?, copy_exprs(alloc, es)?)),
        What::Goto(label) => Ok(What::Goto(*label)),
        What::Continue => Ok(What::Continue),
        What::Return => Ok(What::Return),
        What::Stop(text) => Ok(What::Stop(copy_text(text)?)),
        What::Print(es) => Ok(What::Print(copy_exprs(alloc, es)?)),
        What::Read(es) => Ok(What::Read(copy_exprs(alloc, es)?)),
    }
}

#[cycle(elaborate)]
#[tactic(auto, using(crate::proofs::ElaborateLaws::arm_calls))]
fn elaborated_while(
    alloc: Global,
    known: &Known,
    count: &mut Count,
    id: StmtId,
    arms: &List<Arm>,
) -> Result<What, Memory>
    ensures tree { IfOk result (λ made. what_tree made ≡ elaborated_while (meant known.now) count.old.hidden id (arm_trees arms.now)) }
    ensures hidden { OnOk result (count.new.hidden ≡ hidden_while (meant known.now) count.old.hidden (arm_trees arms.now)) }
    ensures values { OnOk result (count.new.references ≡ count.old.references ++ values_while (meant known.now) (arm_trees arms.now)) }
{
    match arms.as_slice() {
        [] => Ok(What::If(List::new(alloc), None)),
        [arm, ..] => {
            let before = count.hidden;
            count.hidden = sum(1, before)?;
            let body = elaborated_list(alloc, known, count, &arm.body)?;
            let behind = count.hidden;
            count.hidden = sum(1, behind)?;
            let test = copy_expr(alloc, &arm.test)?;
            while_block(alloc, id, before, behind, test, body)
        }
    }
}

#[cycle(elaborate)]
#[tactic(auto, using(crate::proofs::ElaborateLaws::arm_calls))]
fn elaborated_arms(
    alloc: Global,
    known: &Known,
    count: &mut Count,
    arms: &List<Arm>,
) -> Result<List<Arm>, Memory>
    ensures tree { IfOk result (λ made. arm_trees made ≡ elaborated_arms (meant known.now) count.old.hidden (arm_trees arms.now)) }
    ensures hidden { OnOk result (count.new.hidden ≡ hidden_arms (meant known.now) count.old.hidden (arm_trees arms.now)) }
    ensures values { OnOk result (count.new.references ≡ count.old.references ++ values_arms (meant known.now) (arm_trees arms.now)) }
{
    let mut made = List::new(alloc);
    for arm in arms.as_slice() {
        let test = copy_expr(alloc, &arm.test)?;
        let body = elaborated_list(alloc, known, count, &arm.body)?;
        made = add_arm(made, test, body)?;
    }
    Ok(made)
}

#[cycle(elaborate)]
#[tactic(auto, using(crate::proofs::ElaborateLaws::loop_calls))]
fn elaborated_loop(
    alloc: Global,
    known: &Known,
    count: &mut Count,
    l: &Loop,
) -> Result<Loop, Memory>
    ensures tree { IfOk result (λ made. loop_tree made ≡ elaborated_loop (meant known.now) count.old.hidden (loop_tree l.now)) }
    ensures hidden { OnOk result (count.new.hidden ≡ hidden_loop (meant known.now) count.old.hidden (loop_tree l.now)) }
    ensures values { OnOk result (count.new.references ≡ count.old.references ++ values_loop (meant known.now) (loop_tree l.now)) }
{
    let index = l.index.clone()?;
    let first = copy_expr(alloc, &l.first)?;
    let last = copy_expr(alloc, &l.last)?;
    let step = copy_step(alloc, &l.step)?;
    let body = elaborated_list(alloc, known, count, &l.body)?;
    Ok(Loop {
        index,
        first,
        last,
        step,
        body,
    })
}

#[cycle(elaborate)]
#[tactic(auto, using(crate::proofs::ElaborateLaws::list_calls))]
fn elaborated_list(
    alloc: Global,
    known: &Known,
    count: &mut Count,
    list: &List<Stmt>,
) -> Result<List<Stmt>, Memory>
    ensures tree { IfOk result (λ made. stmt_trees made ≡ elaborated_in (meant known.now) count.old.hidden (stmt_trees list.now)) }
    ensures hidden { OnOk result (count.new.hidden ≡ hidden_in (meant known.now) count.old.hidden (stmt_trees list.now)) }
    ensures values { OnOk result (count.new.references ≡ count.old.references ++ values_in (meant known.now) (stmt_trees list.now)) }
{
    let mut made = List::new(alloc);
    for s in list.as_slice() {
        made.push(elaborated_stmt(alloc, known, count, s)?)?;
    }
    Ok(made)
}

/// The module with other statements, and with its assignments of the value of a function.
fn with_body(written: Module, body: List<Stmt>, references: List<StmtId>) -> Module
    ensures { module_tree result ≡ record (module_tree written) { body = stmt_trees body; references = references } }
{
    let Module {
        name,
        main,
        titled,
        dummies,
        decls,
        body: _,
        function,
        references: _,
        whiles,
    } = written;
    Module {
        name,
        main,
        titled,
        dummies,
        decls,
        body,
        function,
        references,
        whiles,
    }
}

/// The module with the statements that stand for assignments of the value of a function and for DO WHILEs, from the module as it is
/// written. Its statements are copied, unless there are none of these.
pub fn elaborate(alloc: Global, written: Module) -> Result<Module, Memory>
    ensures { IfOk result (λ made. module_tree made ≡ elaborated (module_tree written)) }
{
    let bounded = bounded_names(alloc, &written.decls)?;
    if written.whiles.is_empty() && has_no_values(&bounded, &written.body) {
        return Ok(unchanged(alloc, written));
    }
    let known = Known::of(alloc, bounded, &written)?;
    let mut count = Count {
        hidden: 0,
        references: List::new(alloc),
    };
    let body = elaborated_list(alloc, &known, &mut count, &written.body)?;
    Ok(with_body(written, body, count.references))
}
