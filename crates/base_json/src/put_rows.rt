//! Rows and systems as compact JSON.
ghost use Rattle.std.specs.Prelude.{◌≡◌, ◌++◌, OnOk};
ghost use Rattle.serde_json.specs.Data.{string};
ghost use Rattle.serde_json.specs.Written.{compact_text};
ghost use Rattle.affine_systems.specs.Terms.{number as number_is};
ghost use Rattle.base_json.specs.RowsWritten.{letter, flag_data, term_data, row_data, system_data};

use crate::{Put, put_flag, put_list, put_number, put_whole};
use affine_systems::{Row, System, Term, Var};
use fx_lists::Text;
use std::alloc::{AllocError as Memory, Global};

/// Variables of rows are written by their numbers: no names are needed.
pub struct Numbers;

/// Appends the letter of a variable.
#[tactic(auto, unfolding(serde_json::proofs::OnLiterals::serde_json_on_literals))]
fn put_letter(var: Var, out: &mut Text) -> Result<(), Memory>
    ensures { OnOk result (out.new ≡ out.old ++ compact_text (string (letter var))) }
{
    match var {
        Var::Cell(_) => out.append(b"\"c\""),
        Var::Exit(_) => out.append(b"\"x\""),
        Var::Phi(_) => out.append(b"\"p\""),
        Var::Aux(_) => out.append(b"\"a\""),
    }
}

/// The number of a variable.
fn number(var: Var) -> u32
    ensures { result ≡ number_is var }
{
    match var {
        Var::Cell(n) | Var::Exit(n) | Var::Aux(n) => n,
        Var::Phi(n) => u32::from(n),
    }
}

impl Put<Numbers> for Term {
    ghost data_of = { λ _ t. term_data t };

    fn put(&self, alloc: Global, _scope: &Numbers, out: &mut Text) -> Result<(), Memory> {
        out.push(b'[')?;
        put_letter(self.var, out)?;
        out.push(b',')?;
        put_number(alloc, u64::from(number(self.var)), out)?;
        out.push(b',')?;
        put_whole(alloc, self.factor, out)?;
        out.push(b']')
    }
}

/// Appends 1 for an equation, 0 for an inequality.
fn put_equal(alloc: Global, equal: bool, out: &mut Text) -> Result<(), Memory>
    ensures { OnOk result (out.new ≡ out.old ++ compact_text (flag_data equal)) }
{
    match equal {
        true => put_number(alloc, 1, out),
        false => put_number(alloc, 0, out),
    }
}

impl Put<Numbers> for Row {
    ghost data_of = { λ _ r. row_data r };

    fn put(&self, alloc: Global, scope: &Numbers, out: &mut Text) -> Result<(), Memory> {
        out.push(b'[')?;
        put_equal(alloc, self.equal, out)?;
        out.push(b',')?;
        put_whole(alloc, self.bound, out)?;
        out.push(b',')?;
        put_list(alloc, scope, self.terms.as_slice(), out)?;
        out.push(b']')
    }
}

impl Put<Numbers> for System {
    ghost data_of = { λ _ s. system_data s };

    #[tactic(auto, unfolding(serde_json::proofs::OnLiterals::serde_json_on_literals))]
    fn put(&self, alloc: Global, scope: &Numbers, out: &mut Text) -> Result<(), Memory> {
        out.append(b"{\"rows\":")?;
        put_list(alloc, scope, self.rows.as_slice(), out)?;
        out.append(b",\"weak\":")?;
        put_flag(self.weak, out)?;
        out.push(b'}')
    }
}

/// Appends a system; null for a number that does not fit 64 bits.
pub fn put_system(alloc: Global, system: &System, out: &mut Text) -> Result<(), Memory>
    ensures { OnOk result (out.new ≡ out.old ++ compact_text (system_data system.now)) }
{
    system.put(alloc, &Numbers, out)
}
