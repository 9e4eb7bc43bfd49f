//! How systems are written.
ghost use Rattle.std.specs.Prelude.{◌≡◌, ◌++◌, ◌∷◌, [], map, if◌then◌else◌, IfOk, List, ℕ, codes, decimal, unsigned_abs};
ghost use Rattle.system_text.specs.SystemText.{rest_text, name_at, var_text, term_text, has_sign, term_texts, bound_text, side_text, each_after, row_side, row_text, is_never as is_never_row, are_never as are_never_rows, rows_text, system_text as written_system, precondition_line as written_line, transformer_line as written_transformer, cells_text, weak_text, joined};

use affine_systems::{Row, System, Term, Var};
use fx_lists::Text;
use std::alloc::{AllocError as Memory, Global};

fn put_decimal(out: &mut Vec<u8>, n: u128) -> Result<(), Memory>
    ensures { IfOk result (λ _. out.new.items ≡ out.old.items ++ decimal n) }
{
    let alloc = *out.allocator();
    let text = format!(in alloc; "{n}")?;
    out.extend_from_slice(text.as_bytes())
}

/// The name with a number from 1; empty where there is none.
fn name_of(names: &[Text], number: u32) -> &[u8]
    ensures { result.now ≡ name_at names.now number }
{
    if number == 0 {
        return b"";
    }
    match names.get(number as usize - 1) {
        Some(name) => name.as_slice(),
        None => b"",
    }
}

fn put_var(out: &mut Vec<u8>, names: &[Text], var: Var) -> Result<(), Memory>
    ensures { IfOk result (λ _. out.new.items ≡ out.old.items ++ var_text names.now var) }
{
    match var {
        Var::Cell(n) => out.extend_from_slice(name_of(names, n)),
        Var::Exit(n) => {
            out.extend_from_slice(name_of(names, n))?;
            out.extend_from_slice(b"'")
        }
        Var::Phi(n) => {
            out.extend_from_slice(b"PHI")?;
            put_decimal(out, n as u128)
        }
        Var::Aux(n) => {
            out.extend_from_slice(b"AUX")?;
            put_decimal(out, n as u128)
        }
    }
}

/// A term without its sign.
fn put_term(out: &mut Vec<u8>, names: &[Text], t: &Term) -> Result<(), Memory>
    ensures { IfOk result (λ _. out.new.items ≡ out.old.items ++ term_text names.now t.now) }
{
    let size = t.factor.unsigned_abs();
    if size != 1 {
        put_decimal(out, size)?;
        out.extend_from_slice(b"*")?;
    }
    put_var(out, names, t.var)
}

/// Whether a number belongs to a side: negative ones, or positive ones.
fn belongs(negative: bool, n: i128) -> bool
    ensures { result ≡ has_sign negative n }
{
    if negative { n < 0 } else { n > 0 }
}

/// A mark before a piece, unless it is the first.
fn put_mark(out: &mut Vec<u8>, any: bool) -> Result<(), Memory>
    ensures { IfOk result (λ _. out.new.items ≡ out.old.items ++ (if any then codes "+" else [])) }
{
    if any {
        out.extend_from_slice(b"+")?;
    }
    Ok(())
}

/// The terms of a side, and whether there are any.
#[tactic(auto, using(crate::proofs::TextLaws::term_steps))]
fn put_terms(out: &mut Vec<u8>, names: &[Text], right: bool, terms: &[Term]) -> Result<bool, Memory>
    ensures { IfOk result (λ any. (rest : List (List ℕ)) → out.new.items ++ rest_text any rest ≡ out.old.items ++ side_text (term_texts right names.now terms.now ++ rest)) }
{
    let mut any = false;
    for t in terms {
        if belongs(right, t.factor) {
            put_mark(out, any)?;
            put_term(out, names, t)?;
            any = true;
        }
    }
    Ok(any)
}

#[tactic(auto, using(crate::proofs::TextLaws::side_steps))]
fn put_side(out: &mut Vec<u8>, names: &[Text], right: bool, row: &Row) -> Result<(), Memory>
    ensures { IfOk result (λ _. out.new.items ≡ out.old.items ++ row_side right names.now row.now) }
{
    let any = put_terms(out, names, right, row.terms.as_slice())?;
    if belongs(!right, row.bound) {
        put_mark(out, any)?;
        put_decimal(out, row.bound.unsigned_abs())
    } else if any {
        Ok(())
    } else {
        out.extend_from_slice(b"0")
    }
}

#[tactic(auto, using(std::proofs::Common::append_assoc))]
fn put_row(out: &mut Vec<u8>, names: &[Text], row: &Row) -> Result<(), Memory>
    ensures { IfOk result (λ _. out.new.items ≡ out.old.items ++ row_text names.now row.now) }
{
    put_side(out, names, false, row)?;
    if row.equal {
        out.extend_from_slice(b"==")?;
    } else {
        out.extend_from_slice(b"<=")?;
    }
    put_side(out, names, true, row)
}

/// Whether the row has no terms and is infeasible, as `0<=-1`.
fn is_never(row: &Row) -> bool
    ensures { result ≡ is_never_row row.now }
{
    !row.equal && row.terms.is_empty() && row.bound < 0
}

fn are_never(rows: &[Row]) -> bool
    ensures { result ≡ are_never_rows rows.now }
{
    rows.len() == 1 && is_never(&rows[0])
}

/// Rows with `, ` between them.
#[tactic(auto, using(crate::proofs::TextLaws::row_steps))]
fn put_each(out: &mut Vec<u8>, names: &[Text], rows: &[Row]) -> Result<(), Memory>
    ensures { IfOk result (λ _. out.new.items ≡ out.old.items ++ joined (codes ", ") (map (row_text names.now) rows.now)) }
{
    let mut any = false;
    for row in rows {
        if any {
            out.extend_from_slice(b", ")?;
        }
        put_row(out, names, row)?;
        any = true;
    }
    Ok(())
}

fn put_rows(out: &mut Vec<u8>, names: &[Text], rows: &[Row]) -> Result<(), Memory>
    ensures { IfOk result (λ _. out.new.items ≡ out.old.items ++ rows_text names.now rows.now) }
{
    if are_never(rows) {
        out.extend_from_slice(b"FALSE")
    } else {
        put_each(out, names, rows)
    }
}

#[tactic(auto, using(std::proofs::Common::append_assoc))]
fn put_system(out: &mut Vec<u8>, names: &[Text], system: &System) -> Result<(), Memory>
    ensures { IfOk result (λ _. out.new.items ≡ out.old.items ++ written_system names.now system.now) }
{
    out.extend_from_slice(b"{")?;
    put_rows(out, names, system.rows.as_slice())?;
    out.extend_from_slice(b"}")?;
    if system.weak {
        out.extend_from_slice(b" WEAK")?;
    }
    Ok(())
}

/// A system as `{row, row}`, followed by ` WEAK` where it is weak; `{FALSE}` where its one row is infeasible. Positive
/// terms are on the left side of a row and negative ones on the right. Cell n is written as the name at index n - 1,
/// its exit with `'` after that, others as `PHI1` and `AUX1`.
pub fn system_text(alloc: Global, names: &[Text], system: &System) -> Result<Text, Memory>
    ensures { IfOk result (λ text. text ≡ written_system names.now system.now) }
{
    let mut out = Vec::new(alloc);
    put_system(&mut out, names, system)?;
    Ok(Text::from_vec(out))
}

/// The comment line of a precondition, `C> P ` and the system, without a line end. It is printed before its statement.
#[tactic(auto, using(std::proofs::Common::append_assoc))]
pub fn precondition_line(alloc: Global, names: &[Text], system: &System) -> Result<Text, Memory>
    ensures { IfOk result (λ text. text ≡ written_line names.now system.now) }
{
    let mut out = Vec::from_slice(alloc, b"C> P ")?;
    put_system(&mut out, names, system)?;
    Ok(Text::from_vec(out))
}

/// Names with `,` between them.
#[tactic(auto, using(crate::proofs::TextLaws::cell_steps))]
fn put_cells(out: &mut Vec<u8>, names: &[Text], cells: &[u32]) -> Result<(), Memory>
    ensures { IfOk result (λ _. out.new.items ≡ out.old.items ++ cells_text names.now cells.now) }
{
    let mut any = false;
    for cell in cells {
        if any {
            out.extend_from_slice(b",")?;
        }
        out.extend_from_slice(name_of(names, *cell))?;
        any = true;
    }
    Ok(())
}

/// The comment line of a transformer, without a line end: `C> T `, the names of the cells that may change, with commas
/// between, and the system that relates their values before and after.
#[tactic(auto, using(std::proofs::Common::append_assoc))]
pub fn transformer_line(
    alloc: Global,
    names: &[Text],
    cells: &[u32],
    system: &System,
) -> Result<Text, Memory>
    ensures { IfOk result (λ text. text ≡ written_transformer names.now cells.now system.now) }
{
    let mut out = Vec::from_slice(alloc, b"C> T ")?;
    put_cells(&mut out, names, cells)?;
    out.extend_from_slice(b" ")?;
    put_system(&mut out, names, system)?;
    Ok(Text::from_vec(out))
}
