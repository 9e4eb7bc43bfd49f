//! Rows that say what an auxiliary variable is.
ghost use Rattle.std.specs.Prelude.{◌≡◌, true, IfOk, IfSome};
ghost use Rattle.affine_systems.specs.Given.{IsNormal};
ghost use Rattle.affine_systems.specs.Terms.{Ascends};
ghost use Rattle.affine_forms.specs.Forms.{IsSmallForm};
ghost use Rattle.region_translation.specs.Pieces.{is_other_aux as is_other_aux_is, has_other_aux as has_other_aux_is, is_aux_row as is_aux_row_is, aux_row as aux_row_is, IsAuxRow};

use affine_forms::{Affine, same_row, var_form};
use affine_systems::terms::factor_of;
use affine_systems::{Norm, Row, Term, Var, normalise};
use std::alloc::{AllocError as Memory, Global};

fn is_other_aux(number: u32, v: Var) -> bool
    ensures { result ≡ is_other_aux_is number v }
{
    match v {
        Var::Cell(_) | Var::Exit(_) | Var::Phi(_) => false,
        Var::Aux(_) => !Var::Aux(number).is_same(v),
    }
}

fn has_other_aux(number: u32, terms: &[Term]) -> bool
    ensures { result ≡ has_other_aux_is number terms.now }
{
    let mut rest = terms;
    while let [t, more @ ..] = rest {
        if is_other_aux(number, t.var) {
            return true;
        }
        rest = more;
    }
    false
}

/// Whether an equal row has the factor 1 or -1 on an auxiliary variable, and no other one.
fn is_aux_row(number: u32, row: &Row) -> bool
    requires { Ascends row.now.terms }
    ensures { result ≡ is_aux_row_is number row.now }
{
    let terms = row.terms.as_slice();
    row.equal
        && factor_of(terms, Var::Aux(number)).unsigned_abs() == 1
        && !has_other_aux(number, terms)
}

/// The row that says that an auxiliary variable has the value of a form; None where a number reaches 2^62.
pub fn aux_row(alloc: Global, number: u32, form: &Option<Affine>) -> Result<Option<Row>, Memory>
    requires { IfSome form.now IsSmallForm }
    ensures defined { IfOk result (λ o. o ≡ aux_row_is number form.now) }
    ensures says { IfOk result (λ o. IfSome o (IsAuxRow number)) }
{
    match form {
        None => Ok(None),
        Some(form) => {
            let own = var_form(alloc, Var::Aux(number))?;
            let mut row = same_row(alloc, &own, form)?;
            match normalise(&mut row) {
                Norm::Kept => {
                    if is_aux_row(number, &row) {
                        Ok(Some(row))
                    } else {
                        Ok(None)
                    }
                }
                Norm::True | Norm::False | Norm::TooBig => Ok(None),
            }
        }
    }
}
