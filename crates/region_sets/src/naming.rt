//! The cells that a system names, and namings of cells.
ghost use Rattle.std.specs.Prelude.{◌≡◌, IfOk};
ghost use Rattle.region_sets.specs.Naming.{in_terms as in_terms_is, in_rows as in_rows_is, has_none as has_none_is, named_cells as named_cells_is, to_exits as to_exits_is, exit_vars as exit_vars_is};

use affine_systems::{Row, System, Term, Var};
use fx_lists::List;
use std::alloc::{AllocError as Memory, Global};
use transformers::transformer_algebra::Naming;

/// Whether a variable is in one of the terms.
pub fn in_terms(v: Var, terms: &[Term]) -> bool
    ensures { result ≡ in_terms_is v terms.now }
{
    let mut rest = terms;
    while let [t, more @ ..] = rest {
        if v.is_same(t.var) {
            return true;
        }
        rest = more;
    }
    false
}

/// Whether a variable is in one of the rows.
pub fn in_rows(v: Var, rows: &[Row]) -> bool
    ensures { result ≡ in_rows_is v rows.now }
{
    let mut rest = rows;
    while let [row, more @ ..] = rest {
        if in_terms(v, row.terms.as_slice()) {
            return true;
        }
        rest = more;
    }
    false
}

/// Whether a list of cells is empty.
pub fn has_none(cells: &[u32]) -> bool
    ensures { result ≡ has_none_is cells.now }
{
    match cells {
        [] => true,
        [_, ..] => false,
    }
}

/// Those of the cells whose variable `Cell` is in a row of the system, in the order of `cells`. All rows are searched for each.
#[tactic(auto, using(crate::proofs::Steps::fitting))]
pub fn named_cells(alloc: Global, cells: &[u32], s: &System) -> Result<Vec<u32>, Memory>
    ensures { IfOk result (λ cs. cs.items ≡ named_cells_is cells.now s.now) }
{
    let mut out = Vec::new(alloc);
    let mut rest = cells;
    while let [c, more @ ..] = rest {
        if in_rows(Var::Cell(*c), s.rows.as_slice()) {
            out.push(*c)?;
        }
        rest = more;
    }
    Ok(out)
}

/// The namings of each cell before a statement (`Cell`) as the cell after it (`Exit`), in the order of `cells`.
#[tactic(auto, using(crate::proofs::Steps::fitting))]
pub fn to_exits(alloc: Global, cells: &[u32]) -> Result<Vec<Naming>, Memory>
    ensures { IfOk result (λ ns. ns.items ≡ to_exits_is cells.now) }
{
    let mut out = Vec::new(alloc);
    for c in cells {
        out.push(Naming {
            from: Var::Cell(*c),
            to: Var::Exit(*c),
        })?;
    }
    Ok(out)
}

/// The variables of cells after a statement (`Exit`), in the order of `cells`.
#[tactic(auto, using(crate::proofs::Steps::fitting))]
pub fn exit_vars(alloc: Global, cells: &[u32]) -> Result<List<Var>, Memory>
    ensures { IfOk result (λ vs. vs ≡ exit_vars_is cells.now) }
{
    let mut out = Vec::new(alloc);
    for c in cells {
        out.push(Var::Exit(*c))?;
    }
    Ok(List::from_vec(out))
}
