//! The text of answers.

use affine_forms::{Affine, Condition};
use affine_systems::{Row, System, Term, Var};
use std::alloc::{AllocError, Global};
use transformer_algebra::Transformer;

fn write_var(out: &mut String, var: Var) -> Result<(), AllocError> {
    match var {
        Var::Cell(n) => write!(out, "c{n}"),
        Var::Exit(n) => write!(out, "x{n}"),
        Var::Phi(n) => write!(out, "p{n}"),
        Var::Aux(n) => write!(out, "a{n}"),
    }
}

fn write_terms(out: &mut String, terms: &[Term]) -> Result<(), AllocError> {
    for t in terms {
        let factor = t.factor;
        write!(out, "{factor} ")?;
        write_var(out, t.var)?;
        out.push(' ')?;
    }
    Ok(())
}

fn write_row(out: &mut String, row: &Row) -> Result<(), AllocError> {
    write_terms(out, row.terms.as_slice())?;
    let bound = row.bound;
    if row.equal {
        write!(out, "== {bound}")
    } else {
        write!(out, "<= {bound}")
    }
}

pub fn row_text(alloc: Global, row: &Row) -> Result<String, AllocError> {
    let mut out = String::new(alloc);
    write_row(&mut out, row)?;
    Ok(out)
}

fn write_system(out: &mut String, sys: &System) -> Result<(), AllocError> {
    if sys.weak {
        out.push_str("weak ")?;
    }
    let mut later = false;
    for row in sys.rows.as_slice() {
        if later {
            out.push_str(" , ")?;
        }
        write_row(out, row)?;
        later = true;
    }
    Ok(())
}

pub fn system_text(alloc: Global, sys: &System) -> Result<String, AllocError> {
    let mut out = String::new(alloc);
    write_system(&mut out, sys)?;
    Ok(out)
}

/// A system and whether it is exact.
pub fn exact_text(alloc: Global, exact: bool, sys: &System) -> Result<String, AllocError> {
    let mut out = String::from_str(alloc, if exact { "exact ; " } else { "not exact ; " })?;
    write_system(&mut out, sys)?;
    Ok(out)
}

pub fn truth_text(alloc: Global, yes: bool) -> Result<String, AllocError> {
    String::from_str(alloc, if yes { "yes" } else { "no" })
}

pub fn affine_text(alloc: Global, f: &Affine) -> Result<String, AllocError> {
    let mut out = String::new(alloc);
    write_terms(&mut out, f.terms.as_slice())?;
    let constant = f.constant;
    write!(out, "{constant}")?;
    Ok(out)
}

fn write_side(out: &mut String, exact: bool, sys: &System) -> Result<(), AllocError> {
    out.push_str(if exact { "exact " } else { "not exact " })?;
    write_system(out, sys)
}

pub fn condition_text(alloc: Global, c: &Condition) -> Result<String, AllocError> {
    let mut out = String::new(alloc);
    write_side(&mut out, c.yes_exact, &c.yes)?;
    out.push_str(" ; ")?;
    write_side(&mut out, c.no_exact, &c.no)?;
    Ok(out)
}

/// The cells, the units and the system of a transformer.
pub fn transformer_text(alloc: Global, t: &Transformer) -> Result<String, AllocError> {
    let mut out = String::new(alloc);
    for cell in t.cells.as_slice() {
        let cell = *cell;
        write!(out, "{cell} ")?;
    }
    out.push_str("| ")?;
    for unit in t.foreign.as_slice() {
        let offset = unit.offset;
        match str::from_utf8(unit.block.as_slice()) {
            Ok(name) => out.push_str(name)?,
            Err(_) => out.push('?')?,
        }
        write!(out, " {offset} ")?;
    }
    out.push_str("| ")?;
    write_system(&mut out, &t.system)?;
    Ok(out)
}
