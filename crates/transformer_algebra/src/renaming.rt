//! Rows with other variables.
ghost use Rattle.std.specs.Prelude.{◌≡◌, map, IfOk};
ghost use Rattle.affine_systems.specs.Terms.{renamed_terms as renamed_terms_is};
ghost use Rattle.affine_systems.specs.Rows.{AllRows, renamed_row as renamed_row_is};
ghost use Rattle.affine_systems.specs.Given.{AreSmall, IsSmallRow, IsGiven, Fits};
ghost use Rattle.transformer_algebra.specs.Renaming.{FactorsGiven, renamed_by, rename_all as rename_all_is};
ghost use Rattle.transformer_algebra.specs.RenamingLaws.{RenamesPoints};

use crate::adding::add_term;
use crate::{Naming, replacement};
use affine_systems::items::tidy_rows;
use affine_systems::{Row, System, Term};
use fx_lists::List;
use std::alloc::{AllocError as Memory, Global};

/// Terms with other variables; of variables that get one name the factors are added.
fn renamed_terms(alloc: Global, names: &[Naming], terms: &[Term]) -> Result<Vec<Term>, Memory>
    requires { AreSmall terms.now }
    ensures defined { IfOk result (λ ts. ts.items ≡ renamed_terms_is (renamed_by names.now) terms.now) }
    ensures fits { IfOk result (λ ts. FactorsGiven ts.items) }
{
    let mut out = Vec::with_capacity(alloc, terms.len())?;
    let mut left = terms.len();
    while left > 0 {
        left -= 1;
        let t = terms[left];
        add_term(&mut out, replacement(names, t.var), t.factor)?;
    }
    Ok(out)
}

/// The row with the replacement of each variable, all at once. Factors of variables that get one name are added. Each
/// variable is looked up among the namings.
pub fn renamed_row(alloc: Global, names: &[Naming], row: &Row) -> Result<Row, Memory>
    requires { IsSmallRow row.now }
    ensures defined { IfOk result (λ r. r ≡ renamed_row_is (renamed_by names.now) row.now) }
    ensures fits { IfOk result IsGiven }
{
    Ok(Row {
        equal: row.equal,
        terms: List::from_vec(renamed_terms(alloc, names, row.terms.as_slice())?),
        bound: row.bound,
    })
}

fn renamed_rows(alloc: Global, names: &[Naming], rows: &[Row]) -> Result<Vec<Row>, Memory>
    requires { AllRows IsSmallRow rows.now }
    ensures defined { IfOk result (λ rs. rs.items ≡ map (renamed_row_is (renamed_by names.now)) rows.now) }
    ensures fits { IfOk result (λ rs. AllRows IsGiven rs.items) }
{
    let mut out = Vec::new(alloc);
    for row in rows {
        out.push(renamed_row(alloc, names, row)?)?;
    }
    Ok(out)
}

/// The system with the replacement of each variable, all at once, tidied. Each variable is looked up among the namings.
pub fn rename_all(alloc: Global, sys: &System, names: &[Naming]) -> Result<System, Memory>
    requires fits { Fits sys.now }
    ensures defined { IfOk result (λ s. s ≡ rename_all_is names.now sys.now) }
    ensures fits { IfOk result Fits }
    ensures sound { IfOk result (RenamesPoints names.now sys.now) }
{
    let rows = renamed_rows(alloc, names, sys.rows.as_slice())?;
    tidy_rows(alloc, rows, sys.weak)
}
