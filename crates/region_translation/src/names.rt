//! The equations of a CALL the other way round: from the caller to the module that it calls.
ghost use Rattle.std.specs.Prelude.{◌≡◌, ◌++◌, false, IfOk, OnOk};
ghost use Rattle.affine_systems.specs.Given.{IsGiven, IsSmallRow};
ghost use Rattle.affine_systems.specs.Normal.{normal};
ghost use Rattle.affine_systems.specs.Rows.{AllRows};
ghost use Rattle.region_translation.specs.Pieces.{standing as standing_is, names_of as names_of_is, is_own as is_own_is, are_own as are_own_is};
ghost use Rattle.region_translation.specs.Names.{callee_name as callee_name_is, turned_name as turned_name_is, turned_names as turned_names_is, turned_row as turned_row_is, turned_normal, turned_rows as turned_rows_is};

use affine_forms::false_row;
use affine_systems::items::copy_row;
use affine_systems::{Norm, Row, Term, Var, normalise};
use call_equations::cell_name;
use call_translation::transformer_algebra::{Naming, renamed_row};
use std::alloc::{AllocError as Memory, Global};

/// What stands for a variable of the caller, whose variable has `rank` subscripts.
fn standing(moved: bool, rank: u32, v: Var) -> Result<Var, Memory>
    ensures { IfOk result (λ w. w ≡ standing_is moved rank v) }
{
    match v {
        Var::Cell(cell) => cell_name(rank, cell),
        Var::Phi(k) => {
            if moved {
                Ok(Var::Aux(u32::from(k)))
            } else {
                Ok(v)
            }
        }
        Var::Exit(_) | Var::Aux(_) => Ok(v),
    }
}

/// The names of these variables of the caller; its subscripts get one where they are `moved`.
#[tactic(auto, using(crate::proofs::CalleeSteps::lists))]
pub fn names_of(alloc: Global, moved: bool, rank: u32, vars: &[Var]) -> Result<Vec<Naming>, Memory>
    ensures { IfOk result (λ ns. ns.items ≡ names_of_is moved rank vars.now) }
{
    let mut names = Vec::new(alloc);
    let mut rest = vars;
    while let [v, more @ ..] = rest {
        let to = standing(moved, rank, *v)?;
        names.push(Naming { from: *v, to })?;
        rest = more;
    }
    Ok(names)
}

/// Whether a variable is a cell, or a subscript of the caller's variable.
fn is_own(moved: bool, rank: u32, v: Var) -> bool
    ensures { result ≡ is_own_is moved rank v }
{
    match v {
        Var::Cell(_) => true,
        Var::Phi(k) => !moved || (0 < k && u32::from(k) <= rank),
        Var::Exit(_) | Var::Aux(_) => false,
    }
}

pub fn are_own(moved: bool, rank: u32, vars: &[Var]) -> bool
    ensures { result ≡ are_own_is moved rank vars.now }
{
    let mut rest = vars;
    while let [v, more @ ..] = rest {
        if !is_own(moved, rank, *v) {
            return false;
        }
        rest = more;
    }
    true
}

/// The subscript or the cell of the callee that has the name `Aux(number)` in equations. Err also past 254 subscripts.
fn callee_name(rank: u32, number: u32) -> Result<Var, Memory>
    ensures { IfOk result (λ v. v ≡ callee_name_is rank number) }
{
    if number <= rank {
        let k = u8::try_from(number).map_err(|_| Memory)?;
        Ok(Var::Phi(k))
    } else {
        Ok(Var::Cell(number - rank - 1))
    }
}

/// A variable of equations for a variable of the callee with `inner` subscripts, and one of the caller with `outer`, the other way round.
fn turned_name(inner: u32, outer: u32, v: Var) -> Result<Var, Memory>
    ensures { IfOk result (λ w. w ≡ turned_name_is inner outer v) }
{
    match v {
        Var::Cell(cell) => cell_name(outer, cell),
        Var::Exit(_) => Ok(v),
        Var::Phi(k) => Ok(Var::Aux(u32::from(k))),
        Var::Aux(number) => callee_name(inner, number),
    }
}

/// The names of the variables of an equation.
#[tactic(auto, using(crate::proofs::CalleeSteps::lists))]
fn turned_names(
    alloc: Global,
    inner: u32,
    outer: u32,
    terms: &[Term],
) -> Result<Vec<Naming>, Memory>
    ensures { IfOk result (λ ns. ns.items ≡ turned_names_is inner outer terms.now) }
{
    let mut names = Vec::new(alloc);
    let mut rest = terms;
    while let [t, more @ ..] = rest {
        let to = turned_name(inner, outer, t.var)?;
        names.push(Naming { from: t.var, to })?;
        rest = more;
    }
    Ok(names)
}

fn turned_row(alloc: Global, inner: u32, outer: u32, row: &Row) -> Result<Row, Memory>
    requires { IsSmallRow row.now }
    ensures defined { IfOk result (λ r. r ≡ turned_row_is inner outer row.now) }
    ensures fits { IfOk result IsGiven }
{
    let names = turned_names(alloc, inner, outer, row.terms.as_slice())?;
    renamed_row(alloc, names.as_slice(), row)
}

/// Adds an equation the other way round.
#[tactic(auto, using(crate::proofs::CalleeSteps::normal_rows))]
fn push_turned(
    alloc: Global,
    out: &mut Vec<Row>,
    inner: u32,
    outer: u32,
    row: &Row,
) -> Result<(), Memory>
    requires out { AllRows IsGiven out.old.items }
    requires row { IsGiven row.now }
    ensures added { OnOk result (out.new.items ≡ out.old.items ++ turned_normal inner outer (normal false row.now)) }
    ensures fits { OnOk result (AllRows IsGiven out.new.items) }
{
    let mut row = copy_row(alloc, row)?;
    match normalise(&mut row) {
        Norm::Kept => {
            out.push(turned_row(alloc, inner, outer, &row)?)?;
            Ok(())
        }
        Norm::False => {
            out.push(false_row(alloc))?;
            Ok(())
        }
        Norm::True | Norm::TooBig => Ok(()),
    }
}

/// Equations the other way round.
#[tactic(auto, using(crate::proofs::CalleeSteps::rows))]
pub fn turned_rows(alloc: Global, inner: u32, outer: u32, rows: &[Row]) -> Result<Vec<Row>, Memory>
    requires { AllRows IsGiven rows.now }
    ensures defined { IfOk result (λ rs. rs.items ≡ turned_rows_is inner outer rows.now) }
    ensures fits { IfOk result (λ rs. AllRows IsGiven rs.items) }
{
    let mut out = Vec::new(alloc);
    let mut rest = rows;
    while let [row, more @ ..] = rest {
        push_turned(alloc, &mut out, inner, outer, row)?;
        rest = more;
    }
    Ok(out)
}
