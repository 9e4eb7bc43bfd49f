//! A system of the callee as one of the caller.
ghost use Rattle.std.specs.Prelude.{◌≡◌, ◌++◌, suc, IfOk, IfSome, ◌<◌};
ghost use Rattle.affine_systems.specs.Rows.{AllRows};
ghost use Rattle.affine_systems.specs.Given.{Fits, IsGiven};
ghost use Rattle.region_sets.specs.Ready.{IsReady};
ghost use Rattle.call_translation.specs.transformer_algebra.Renaming.{rename_all as rename_all_is};
ghost use Rattle.hull_projection.specs.Variables.{row_vars as row_vars_is};
ghost use Rattle.call_equations.specs.Sides.{sides_tree};
ghost use Rattle.call_equations.specs.Links.{LinkFits};
ghost use Rattle.region_translation.specs.Pieces.{standing as standing_is, names_of as names_of_is, is_own as is_own_is, are_own as are_own_is, linked as linked_is, cell_row as cell_row_is, with_var as with_var_is, with_forms as with_forms_is, one_formless, formless as formless_is, IsAuxRow, subscripts_from, subscripts as subscripts_is, without_all as without_all_is, linked_piece as linked_piece_is, piece_in_caller as piece_in_caller_is};

use crate::putting::aux_row;
use affine_forms::no_rows;
use affine_systems::items::copy_rows;
use affine_systems::{Row, System, Var, tidy};
use call_equations::{CallSides, Link, cell_name, form_of};
use call_translation::transformer_algebra::{Naming, push_rows, rename_all};
use fx_lists::List;
use hull_projection::{Shadow, add_rows, project, project_owned};
use region_sets::put_row;
use std::alloc::{AllocError as Memory, Global};

/// The variables of rows, ascending.
pub fn row_vars(alloc: Global, rows: &[Row]) -> Result<Vec<Var>, Memory>
    ensures { IfOk result (λ vs. vs.items ≡ row_vars_is rows.now) }
{
    let mut vars = Vec::new(alloc);
    add_rows(&mut vars, rows)?;
    Ok(vars)
}

/// What stands for a variable of the callee.
fn standing(link: &Link, v: Var) -> Result<Var, Memory>
    ensures { IfOk result (λ w. w ≡ standing_is link.now.moved link.now.rank v) }
{
    match v {
        Var::Cell(cell) => cell_name(link.rank, cell),
        Var::Phi(k) => {
            if link.moved {
                Ok(Var::Aux(u32::from(k)))
            } else {
                Ok(v)
            }
        }
        Var::Exit(_) | Var::Aux(_) => Ok(v),
    }
}

#[tactic(auto, using(crate::proofs::Steps::lists))]
fn names_of(alloc: Global, link: &Link, vars: &[Var]) -> Result<Vec<Naming>, Memory>
    ensures { IfOk result (λ ns. ns.items ≡ names_of_is link.now.moved link.now.rank vars.now) }
{
    let mut names = Vec::new(alloc);
    let mut rest = vars;
    while let [v, more @ ..] = rest {
        let to = standing(link, *v)?;
        names.push(Naming { from: *v, to })?;
        rest = more;
    }
    Ok(names)
}

/// Whether a variable is a cell, or a subscript of the link's variable.
fn is_own(link: &Link, v: Var) -> bool
    ensures { result ≡ is_own_is link.now.moved link.now.rank v }
{
    match v {
        Var::Cell(_) => true,
        Var::Phi(k) => !link.moved || (0 < k && u32::from(k) <= link.rank),
        Var::Exit(_) | Var::Aux(_) => false,
    }
}

fn are_own(link: &Link, vars: &[Var]) -> bool
    ensures { result ≡ are_own_is link.now.moved link.now.rank vars.now }
{
    let mut rest = vars;
    while let [v, more @ ..] = rest {
        if !is_own(link, *v) {
            return false;
        }
        rest = more;
    }
    true
}

/// The names of the variables of a system.
fn own_names(alloc: Global, link: &Link, s: &System) -> Result<Vec<Naming>, Memory>
    ensures { IfOk result (λ ns. ns.items ≡ names_of_is link.now.moved link.now.rank (row_vars_is s.now.rows)) }
{
    let vars = row_vars(alloc, s.rows.as_slice())?;
    names_of(alloc, link, vars.as_slice())
}

/// A system with the names of the link.
fn renamed(alloc: Global, link: &Link, s: &System) -> Result<System, Memory>
    requires { Fits s.now }
    ensures defined { IfOk result (λ t. t ≡ rename_all_is (names_of_is link.now.moved link.now.rank (row_vars_is s.now.rows)) s.now) }
    ensures fits { IfOk result Fits }
{
    let names = own_names(alloc, link, s)?;
    rename_all(alloc, s, names.as_slice())
}

/// A system with the names of the link, and its equations.
fn linked(alloc: Global, link: &Link, s: &System) -> Result<System, Memory>
    requires fits { Fits s.now }
    requires link { LinkFits link.now }
    ensures defined { IfOk result (λ t. t ≡ linked_is link.now s.now) }
    ensures fits { IfOk result Fits }
{
    let own = renamed(alloc, link, s)?;
    let rows = copy_rows(alloc, link.rows.as_slice())?;
    push_rows(alloc, &own, rows)
}

/// The row that says what the name of a cell of the callee is.
fn cell_row(
    alloc: Global,
    sides: &CallSides<'_>,
    rank: u32,
    number: u32,
) -> Result<Option<Row>, Memory>
    requires { rank < number }
    ensures defined { IfOk result (λ o. o ≡ cell_row_is (sides_tree sides.now) rank number) }
    ensures says { IfOk result (λ o. IfSome o (IsAuxRow number)) }
{
    let form = form_of(alloc, sides, number - rank - 1)?;
    aux_row(alloc, number, &form)
}

/// Puts in what a variable is, where it is the name of a cell; one without a form is added to `formless`.
#[tactic(auto, using(crate::proofs::PutSteps::aux_rows))]
fn with_var(
    alloc: Global,
    sides: &CallSides<'_>,
    rank: u32,
    v: Var,
    s: System,
    formless: &mut List<Var>,
) -> Result<System, Memory>
    requires rows { AllRows IsReady s.rows }
    ensures defined { IfOk result (λ t. t ≡ with_var_is (sides_tree sides.now) rank v s) }
    ensures ready { IfOk result (λ t. AllRows IsReady t.rows) }
    ensures added { IfOk result (λ _. formless.new ≡ formless.old ++ one_formless (sides_tree sides.now) rank v) }
{
    match v {
        Var::Aux(number) => {
            if number <= rank {
                return Ok(s);
            }
            match cell_row(alloc, sides, rank, number)? {
                None => {
                    formless.push(v)?;
                    Ok(s)
                }
                Some(by) => put_row(alloc, Var::Aux(number), &by, s),
            }
        }
        Var::Cell(_) | Var::Exit(_) | Var::Phi(_) => Ok(s),
    }
}

/// Puts in what each of these is that is the name of a cell, one after the other.
#[tactic(auto, using(crate::proofs::Steps::lists))]
fn with_forms(
    alloc: Global,
    sides: &CallSides<'_>,
    rank: u32,
    vars: &[Var],
    s: System,
    formless: &mut List<Var>,
) -> Result<System, Memory>
    requires rows { AllRows IsReady s.rows }
    ensures defined { IfOk result (λ t. t ≡ with_forms_is (sides_tree sides.now) rank vars.now s) }
    ensures ready { IfOk result (λ t. AllRows IsReady t.rows) }
    ensures added { IfOk result (λ _. formless.new ≡ formless.old ++ formless_is (sides_tree sides.now) rank vars.now) }
{
    let mut left = s;
    let mut rest = vars;
    while let [v, more @ ..] = rest {
        left = with_var(alloc, sides, rank, *v, left, formless)?;
        rest = more;
    }
    Ok(left)
}

/// The callee's subscripts, where they are moved.
#[tactic(auto, using(crate::proofs::Steps::subscript_loop))]
fn subscripts(alloc: Global, link: &Link) -> Result<List<Var>, Memory>
    ensures { IfOk result (λ vs. vs ≡ subscripts_is link.now) }
{
    let mut vars = List::new(alloc);
    if link.moved {
        for k in 0..link.rank {
            vars.push(Var::Aux(k + 1))?;
        }
    }
    Ok(vars)
}

/// A system without the variables of two lists, one list after the other; not exact where the first has any.
fn without_all(
    alloc: Global,
    formless: &List<Var>,
    subscripts: &List<Var>,
    s: &System,
) -> Result<Shadow, Memory>
    requires { Fits s.now }
    ensures defined { IfOk result (λ t. t ≡ without_all_is formless.now subscripts.now s.now) }
    ensures fits { IfOk result (λ t. Fits t.system) }
{
    if formless.is_empty() {
        return project(alloc, s, subscripts);
    }
    let known = project(alloc, s, formless)?.system;
    Ok(Shadow {
        system: project_owned(alloc, known, subscripts)?.system,
        exact: false,
    })
}

#[tactic(auto, using(crate::proofs::Steps::ready_lists))]
fn linked_piece(
    alloc: Global,
    sides: &CallSides<'_>,
    link: &Link,
    s: System,
) -> Result<Shadow, Memory>
    requires { Fits s }
    ensures defined { IfOk result (λ t. t ≡ linked_piece_is (sides_tree sides.now) link.now s) }
    ensures fits { IfOk result (λ t. Fits t.system) }
{
    let vars = row_vars(alloc, s.rows.as_slice())?;
    let mut formless = List::new(alloc);
    let formed = with_forms(alloc, sides, link.rank, vars.as_slice(), s, &mut formless)?;
    let inner = subscripts(alloc, link)?;
    without_all(alloc, &formless, &inner, &tidy(alloc, &formed)?)
}

/// A system of the callee as one of the caller. Exact where each point of it is that of a point of the callee's system.
pub fn piece_in_caller(
    alloc: Global,
    sides: &CallSides<'_>,
    link: &Link,
    s: &System,
) -> Result<Shadow, Memory>
    requires fits { Fits s.now }
    requires link { LinkFits link.now }
    ensures defined { IfOk result (λ t. t ≡ piece_in_caller_is (sides_tree sides.now) link.now s.now) }
    ensures fits { IfOk result (λ t. Fits t.system) }
{
    let vars = row_vars(alloc, s.rows.as_slice())?;
    if !are_own(link, vars.as_slice()) {
        return Ok(Shadow {
            system: no_rows(alloc),
            exact: false,
        });
    }
    let linked = linked(alloc, link, s)?;
    linked_piece(alloc, sides, link, linked)
}
