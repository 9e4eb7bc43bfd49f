//! Transformers, and those that come from no other.
ghost use Rattle.std.specs.Prelude.{◌≡◌, IfOk, IfSome};
ghost use Rattle.affine_systems.specs.Given.{Fits};
ghost use Rattle.affine_forms.specs.Forms.{IsSmallForm};
ghost use Rattle.transformer_algebra.specs.Transformers.{identity_transformer as unchanging_is, nowhere as nowhere_is, test as test_is, forgotten as forgotten_is, exit_system as exit_system_is, assign as assign_is};

use crate::{joined_cells, of_rows};
use affine_forms::{Affine, infeasible, no_rows, same_row, var_form};
use affine_systems::{System, Var};
use f77_ast::Unit;
use fx_lists::List;
use std::alloc::{AllocError as Memory, Global};

/// The transition relation of a statement, from an arrival to its normal end.
#[derive(PartialEq, Eq, Drop)]
pub struct Transformer {
    /// The analysed scalars that it may change, by the numbers of their symbols, ascending, each once.
    pub cells: List<u32>,
    /// The storage units of common blocks that it may change and that the module cannot name, in the order of the names
    /// of the blocks and of the offsets, each once.
    pub foreign: List<Unit>,
    /// What holds of the analysed scalars before it (`Cell`) and of those in `cells` after it (`Exit`).
    pub system: System,
}

/// The transformer that changes nothing and ends normally only where the system holds.
pub fn test(alloc: Global, system: System) -> Transformer
    requires { Fits system }
    ensures defined { result ≡ test_is system }
    ensures fits { Fits result.system }
{
    Transformer {
        cells: List::new(alloc),
        foreign: List::new(alloc),
        system,
    }
}

/// The identity transformer: changes nothing. Takes no memory.
pub fn identity_transformer(alloc: Global) -> Transformer
    ensures defined { result ≡ unchanging_is }
    ensures fits { Fits result.system }
{
    test(alloc, no_rows(alloc))
}

/// The empty transformer, of a statement that has no normal end.
pub fn nowhere(alloc: Global) -> Result<Transformer, Memory>
    ensures defined { IfOk result (λ t. t ≡ nowhere_is) }
    ensures fits { IfOk result (λ t. Fits t.system) }
{
    let system = infeasible(alloc)?;
    Ok(test(alloc, system))
}

/// The transformer after which these cells, in any order, may have any value; all others stay.
pub fn forgotten(alloc: Global, cells: &[u32]) -> Result<Transformer, Memory>
    ensures defined { IfOk result (λ t. t ≡ forgotten_is cells.now) }
    ensures fits { IfOk result (λ t. Fits t.system) }
{
    Ok(Transformer {
        cells: joined_cells(alloc, cells, &[])?,
        foreign: List::new(alloc),
        system: no_rows(alloc),
    })
}

#[tactic(auto, using(crate::proofs::GivenSteps::given_rows))]
/// The system which says that the cell after the statement is the value that the form has before it; no rows where
/// there is no form.
pub fn exit_system(alloc: Global, cell: u32, form: &Option<Affine>) -> Result<System, Memory>
    requires { IfSome form.now IsSmallForm }
    ensures defined { IfOk result (λ s. s ≡ exit_system_is cell form.now) }
    ensures fits { IfOk result Fits }
{
    match form {
        None => Ok(no_rows(alloc)),
        Some(form) => {
            let exit = var_form(alloc, Var::Exit(cell))?;
            let row = same_row(alloc, &exit, form)?;
            let mut rows = Vec::new(alloc);
            rows.push(row)?;
            of_rows(alloc, rows)
        }
    }
}

/// The transformer of an assignment (ANSI X3.9-1978, §10.1) to a cell, of an expression of this form; where there is no
/// form, the cell may have any value.
pub fn assign(alloc: Global, cell: u32, form: &Option<Affine>) -> Result<Transformer, Memory>
    requires { IfSome form.now IsSmallForm }
    ensures defined { IfOk result (λ t. t ≡ assign_is cell form.now) }
    ensures fits { IfOk result (λ t. Fits t.system) }
{
    let mut cells = List::new(alloc);
    cells.push(cell)?;
    Ok(Transformer {
        cells,
        foreign: List::new(alloc),
        system: exit_system(alloc, cell, form)?,
    })
}
