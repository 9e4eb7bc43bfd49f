//! The transformer of a list, from those of its statements.
ghost use Rattle.std.specs.Prelude.{◌≡◌, [], ◌∷◌, ◌++◌, IfOk, OnOk, option_copied};
ghost use Rattle.affine_systems.specs.Given.{Fits};
ghost use Rattle.f77_ast.specs.PlainStmt.{stmt_trees};
ghost use Rattle.f77_ast.specs.Shared.{numbered};
ghost use Rattle.call_translation.specs.transformer_algebra.Transformers.{AllFit};
ghost use Rattle.transformers.specs.Given.{ResultsFit};
ghost use Rattle.transformers.specs.Lists.{first_at, value_at as value_at_is, transformer_at as transformer_at_is, followed_by, in_order as in_order_is, in_any_order as in_any_order_is, list_of as list_of_is, each_at as each_at_is, list_at as list_at_is};

use crate::is_unstructured;
use affine_forms::no_rows;
use call_graph::View;
use call_translation::copy_unit;
use call_translation::transformer_algebra::{
    Transformer, identity_transformer, joined_cells, joined_units, then,
};
use f77_ast::{At, Stmt, StmtId, Unit};
use fx_lists::List;
use std::alloc::{AllocError as Memory, Global};

#[tactic(auto, using(crate::proofs::Steps::lists))]
fn copy_units(alloc: Global, units: &[Unit]) -> Result<List<Unit>, Memory>
    ensures { IfOk result (λ us. us ≡ units.now) }
{
    let mut out = List::new(alloc);
    let mut rest = units;
    while let [unit, more @ ..] = rest {
        out.push(copy_unit(unit)?)?;
        rest = more;
    }
    Ok(out)
}

/// A copy of a transformer.
pub fn copy_transformer(alloc: Global, t: &Transformer) -> Result<Transformer, Memory>
    ensures { IfOk result (λ c. c ≡ t.now) }
{
    Ok(Transformer {
        cells: List::from_slice(alloc, t.cells.as_slice())?,
        foreign: copy_units(alloc, t.foreign.as_slice())?,
        system: t.system.clone()?,
    })
}

/// Appends a transformer.
#[tactic(auto, using(crate::proofs::Steps::fitting))]
pub fn push_transformer(all: &mut Vec<Transformer>, t: Transformer) -> Result<(), Memory>
    requires all { AllFit all.old.items }
    requires t { Fits t.system }
    ensures items { OnOk result (all.new.items ≡ all.old.items ++ t ∷ []) }
    ensures fits { OnOk result (AllFit all.new.items) }
{
    all.push(t)?;
    Ok(())
}

/// After another, one after the other, from left to right.
fn followed_by(
    alloc: Global,
    first: Transformer,
    all: &[Transformer],
) -> Result<Transformer, Memory>
    requires first { Fits first.system }
    requires all { AllFit all.now }
    ensures defined { IfOk result (λ t. t ≡ followed_by first all.now) }
    ensures fits { IfOk result (λ t. Fits t.system) }
{
    let mut whole = first;
    let mut rest = all;
    while let [t, more @ ..] = rest {
        whole = then(alloc, &whole, t)?;
        rest = more;
    }
    Ok(whole)
}

/// One after the other, from left to right.
pub fn in_order(alloc: Global, all: &[Transformer]) -> Result<Transformer, Memory>
    requires { AllFit all.now }
    ensures defined { IfOk result (λ t. t ≡ in_order_is all.now) }
    ensures fits { IfOk result (λ t. Fits t.system) }
{
    match all {
        [] => Ok(identity_transformer(alloc)),
        [first, more @ ..] => {
            let first = copy_transformer(alloc, first)?;
            followed_by(alloc, first, more)
        }
    }
}

/// Each any number of times, in any order. Each cell is looked up among those before it.
pub fn in_any_order(alloc: Global, all: &[Transformer]) -> Result<Transformer, Memory>
    ensures defined { IfOk result (λ t. t ≡ in_any_order_is all.now) }
    ensures fits { IfOk result (λ t. Fits t.system) }
{
    let mut cells = List::new(alloc);
    let mut foreign = List::new(alloc);
    let mut rest = all;
    while let [t, more @ ..] = rest {
        cells = joined_cells(alloc, cells.as_slice(), t.cells.as_slice())?;
        foreign = joined_units(alloc, foreign.as_slice(), t.foreign.as_slice())?;
        rest = more;
    }
    Ok(Transformer {
        cells,
        foreign,
        system: no_rows(alloc),
    })
}

/// The transformer of a list, from those of its statements in the order of the text, `all`: their composition; where `is_unstructured`, one
/// after which all that they change may have any value. `whole`: the list is the body of a module.
pub fn list_of(
    alloc: Global,
    list: &List<Stmt>,
    whole: bool,
    all: &[Transformer],
) -> Result<Transformer, Memory>
    requires { AllFit all.now }
    ensures defined { IfOk result (λ t. t ≡ list_of_is whole (stmt_trees list.now) all.now) }
    ensures fits { IfOk result (λ t. Fits t.system) }
{
    if is_unstructured(alloc, list, whole)? {
        in_any_order(alloc, all)
    } else {
        in_order(alloc, all)
    }
}

fn first_at<T>(all: &[At<T>], id: StmtId) -> Option<&T>
    ensures { option_copied result ≡ first_at id all.now }
{
    let mut rest = all;
    while let [at, more @ ..] = rest {
        if at.id == id {
            return Some(&at.value);
        }
        rest = more;
    }
    None
}

/// The result at the place of a number, from 1.
fn at_place<T>(all: &List<At<T>>, id: StmtId) -> Option<&At<T>>
    ensures { option_copied result ≡ numbered all.now id }
{
    if id == 0 {
        return None;
    }
    all.get(id as usize - 1)
}

/// The result for the statement with a number, from 1; None where there is none. In constant time where the element at this place has the
/// number; otherwise the first element with it is looked for.
pub fn value_at<T>(all: &List<At<T>>, id: StmtId) -> Option<&T>
    ensures { option_copied result ≡ value_at_is all.now id }
{
    match at_place(all, id) {
        None => first_at(all.as_slice(), id),
        Some(at) => {
            if at.id == id {
                Some(&at.value)
            } else {
                first_at(all.as_slice(), id)
            }
        }
    }
}

/// A copy of the transformer of the statement with a number, from 1; the identity transformer where there is no result.
pub fn transformer_at(
    alloc: Global,
    all: &List<At<Transformer>>,
    id: StmtId,
) -> Result<Transformer, Memory>
    requires { ResultsFit all.now }
    ensures defined { IfOk result (λ t. t ≡ transformer_at_is all.now id) }
    ensures fits { IfOk result (λ t. Fits t.system) }
{
    match value_at(all, id) {
        None => Ok(identity_transformer(alloc)),
        Some(t) => copy_transformer(alloc, t),
    }
}

/// The transformers of the statements of a list, from the results for them in `at`: the identity transformer for one without a result.
#[tactic(auto, using(crate::proofs::Steps::lists))]
pub fn each_at(
    alloc: Global,
    list: &List<Stmt>,
    at: &List<At<Transformer>>,
) -> Result<Vec<Transformer>, Memory>
    requires { ResultsFit at.now }
    ensures defined { IfOk result (λ ts. ts.items ≡ each_at_is (transformer_at_is at.now) (stmt_trees list.now)) }
    ensures fits { IfOk result (λ ts. AllFit ts.items) }
{
    let mut all = Vec::new(alloc);
    let mut rest = list.as_slice();
    while let [s, more @ ..] = rest {
        let t = transformer_at(alloc, at, s.id)?;
        push_transformer(&mut all, t)?;
        rest = more;
    }
    Ok(all)
}

/// The transformer of a list, as `list_of`, from the results for its statements in `at`, as `each_at`.
pub fn list_at(
    alloc: Global,
    list: &List<Stmt>,
    whole: bool,
    at: &List<At<Transformer>>,
) -> Result<Transformer, Memory>
    requires { ResultsFit at.now }
    ensures defined { IfOk result (λ t. t ≡ list_at_is (transformer_at_is at.now) whole (stmt_trees list.now)) }
    ensures fits { IfOk result (λ t. Fits t.system) }
{
    let all = each_at(alloc, list, at)?;
    list_of(alloc, list, whole, all.as_slice())
}

/// The transformer of a list, as `list_at`, for callers that have a `View`, which is not used. `whole`: the list is the body of the module.
/// Where a GO TO in the list leads to a statement of it, or a RETURN leaves the body early, all that its statements change may have any
/// value.
pub fn list_transformer(
    alloc: Global,
    _view: &View<'_>,
    list: &List<Stmt>,
    whole: bool,
    at: &List<At<Transformer>>,
) -> Result<Transformer, Memory>
    requires { ResultsFit at.now }
    ensures defined { IfOk result (λ t. t ≡ list_at_is (transformer_at_is at.now) whole (stmt_trees list.now)) }
    ensures fits { IfOk result (λ t. Fits t.system) }
{
    list_at(alloc, list, whole, at)
}
