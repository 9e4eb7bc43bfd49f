//! Variables in order, each once.
ghost use Rattle.std.specs.Prelude.{◌≡◌, ◌++◌, IfOk};
ghost use Rattle.f77_ast.specs.Variables.{union};

use crate::Variable;
use crate::ordering::order;
use fx_lists::List;
use std::alloc::{AllocError as Memory, Global};
use std::cmp::Ordering;

/// A copy of a variable.
pub fn copy_variable(v: &Variable) -> Result<Variable, Memory>
    ensures { IfOk result (λ copy. copy ≡ v.now) }
{
    match v {
        Variable::Own(n) => Ok(Variable::Own(*n)),
        Variable::Block(block) => Ok(Variable::Block(block.clone()?)),
        Variable::Saved(module, local) => Ok(Variable::Saved(module.clone()?, local.clone()?)),
    }
}

/// Adds copies of variables at the end, in their order.
pub fn add_copies(made: &mut List<Variable>, variables: &[Variable]) -> Result<(), Memory>
    ensures { IfOk result (λ _. made.new ≡ made.old ++ variables.now) }
{
    let mut rest = variables;
    while let [v, more @ ..] = rest {
        made.push(copy_variable(v)?)?;
        rest = more;
    }
    Ok(())
}

/// The variables of both lists in one, in `order` and without repeats where both lists are so. Linear in the lengths of both.
pub fn union(
    alloc: Global,
    some: &List<Variable>,
    others: &List<Variable>,
) -> Result<List<Variable>, Memory>
    ensures { IfOk result (λ both. both ≡ union some.now others.now) }
{
    let mut made = List::new(alloc);
    let mut left = some.as_slice();
    let mut right = others.as_slice();
    while let [v, more @ ..] = left {
        let [w, later @ ..] = right else {
            break;
        };
        match order(v, w) {
            Ordering::Less => {
                made.push(copy_variable(v)?)?;
                left = more;
            }
            Ordering::Equal => {
                made.push(copy_variable(v)?)?;
                left = more;
                right = later;
            }
            Ordering::Greater => {
                made.push(copy_variable(w)?)?;
                right = later;
            }
        }
    }
    add_copies(&mut made, left)?;
    add_copies(&mut made, right)?;
    Ok(made)
}
