//! The order of the statements of a module, how many there are, and their labels.
ghost use Rattle.std.specs.Prelude.{◌≡◌, ◌<◌, ◌≤◌, ◌+◌, ◌*◌, ◌^◌, length, IfOk};
ghost use Rattle.fx_lists.specs.Refusals.{refuse_if};
ghost use Rattle.f77_structure.specs.Order.{is_out_of_order, is_main_after, keep_label, check_next, order_of, has_label};

use crate::first::may_be_first;
use crate::mark::{Mark, Role, label_in, returns_in, statements_in};
use fx_lists::{Code, List, Refusal, refuse_if};
use std::alloc::{AllocError as Memory, Global};

/// How many executable statements a module may have.
pub const MOST_STATEMENTS: usize = 4096;

/// The statements of a module after some of them.
#[derive(Drop)]
pub struct Order {
    /// Whether there was a statement.
    pub begun: bool,
    /// Whether the module is a main program: true until a SUBROUTINE is its first statement.
    pub main: bool,
    /// How many executable statements there were.
    pub count: usize,
    /// Their labels, in the order of the text.
    pub labels: List<u32>,
    /// The first refusal so far.
    pub found: Option<Refusal>,
}

/// Whether the module is still a main program.
fn is_main_after(begun: bool, main: bool, role: Role) -> bool
    ensures { result ≡ is_main_after begun main role }
{
    match role {
        Role::Subroutine => begun && main,
        Role::Program
        | Role::Specification
        | Role::Plain(_)
        | Role::LogicalIf(_)
        | Role::BlockIf
        | Role::ElseIf
        | Role::Else
        | Role::EndIf
        | Role::Do(_)
        | Role::EndDo
        | Role::End => main,
    }
}

/// Whether a statement stands where it may not.
fn is_out_of_order(begun: bool, main: bool, count: usize, role: Role) -> bool
    ensures { result ≡ is_out_of_order begun main count role }
{
    match role {
        Role::Program | Role::Subroutine => begun,
        Role::Specification => 0 < count,
        Role::Plain(_)
        | Role::LogicalIf(_)
        | Role::BlockIf
        | Role::ElseIf
        | Role::Else
        | Role::EndIf
        | Role::Do(_)
        | Role::EndDo
        | Role::End => main && returns_in(role),
    }
}

fn has_label(labels: &[u32], label: u32) -> bool
    ensures { result ≡ has_label label labels.now }
{
    labels.iter().any(|l| *l == label)
}

/// A label that stands already. It is not sought where a fault before it was found.
#[tactic(auto, using(crate::proofs::FirstLemmas::spared))]
fn unless_new(labels: &[u32], label: u32, line: u32, found: Option<Refusal>) -> Option<Refusal>
    ensures { result ≡ refuse_if (has_label label labels.now) line Code.LabelTwice found }
{
    if !may_be_first(line, Code::LabelTwice, found) {
        return found;
    }
    refuse_if(has_label(labels, label), line, Code::LabelTwice, found)
}

/// The label of an executable statement.
fn keep_label(order: Order, line: u32, label: Option<u32>) -> Result<Order, Memory>
    ensures { IfOk result (λ o. o ≡ keep_label line label order) }
{
    match label {
        None => Ok(order),
        Some(label) => {
            let Order {
                begun,
                main,
                count,
                mut labels,
                found,
            } = order;
            let found = unless_new(labels.as_slice(), label, line, found);
            labels.push(label)?;
            Ok(Order {
                begun,
                main,
                count,
                labels,
                found,
            })
        }
    }
}

/// One statement more.
#[tactic(auto, unfolding(crate::specs::Order::check_next))]
fn check_next(order: Order, mark: Mark) -> Result<Order, Memory>
    requires { order.count + 2 < 2 ^ 64 }
    ensures defined { IfOk result (λ o. o ≡ check_next mark order) }
    ensures grows { IfOk result (λ o. o.count ≤ order.count + 2) }
{
    let order = keep_label(order, mark.line, label_in(mark))?;
    let Order {
        begun,
        main,
        count,
        labels,
        found,
    } = order;
    let found = refuse_if(mark.deep, mark.line, Code::TooDeep, found);
    let stray = is_out_of_order(begun, main, count, mark.role);
    let found = refuse_if(stray, mark.line, Code::StrayPart, found);
    let new = count + statements_in(mark);
    let many = count <= MOST_STATEMENTS && MOST_STATEMENTS < new;
    let found = refuse_if(many, mark.line, Code::TooManyStatements, found);
    Ok(Order {
        begun: true,
        main: is_main_after(begun, main, mark.role),
        count: new,
        labels,
        found,
    })
}

/// The first refusal of the order, the number, the labels and the nesting of parentheses of the statements of a module. Each label
/// is compared with those before it; where lines ascend none is past the statement after the last that a module may have.
pub fn order_fault(alloc: Global, marks: &[Mark]) -> Result<Option<Refusal>, Memory>
    ensures { IfOk result (λ found. found ≡ order_of marks.now) }
{
    let mut order = Order {
        begun: false,
        main: true,
        count: 0,
        labels: List::new(alloc),
        found: None,
    };
    let mut rest = marks;
    while let [mark, more @ ..] = rest {
        order = check_next(order, *mark)?;
        rest = more;
    }
    Ok(order.found)
}
