//! What modules and their statements do to tracked cells, and what holds where they begin.
ghost use Rattle.std.specs.Prelude.{◌≡◌, length};

use crate::shown::{name_of, text_of};
use affine_systems::{Row, System, Var};
use call_graph::Graph;
use f77_ast::{Parsed, Symbols, Unit};
use fx_lists::List;
use module_phases::{Analysis, analyses};
use std::alloc::{AllocError as Memory, Global};
use transformer_algebra::Transformer;

fn add_var(shown: &mut String, symbols: &Symbols, v: Var) -> Result<(), Memory> {
    match v {
        Var::Cell(n) => shown.push_str(name_of(symbols, n)),
        Var::Exit(n) => {
            shown.push_str(name_of(symbols, n))?;
            shown.push_str("'")
        }
        Var::Phi(n) => write!(shown, "PHI{n}"),
        Var::Aux(n) => write!(shown, "AUX{n}"),
    }
}

/// One side of a row: its terms of one sign, and its number; 0 where there is nothing.
fn add_side(
    shown: &mut String,
    symbols: &Symbols,
    row: &Row,
    positive: bool,
) -> Result<(), Memory> {
    let mut later = false;
    for t in row.terms.as_slice() {
        if (t.factor > 0) == positive {
            if later {
                shown.push_str("+")?;
            }
            later = true;
            let size = t.factor.unsigned_abs();
            if size != 1 {
                write!(shown, "{size}*")?;
            }
            add_var(shown, symbols, t.var)?;
        }
    }
    let size = row.bound.unsigned_abs();
    if size != 0 && (row.bound < 0) == positive {
        if later {
            shown.push_str("+")?;
        }
        return write!(shown, "{size}");
    }
    if later { Ok(()) } else { shown.push_str("0") }
}

fn add_row(shown: &mut String, symbols: &Symbols, row: &Row) -> Result<(), Memory> {
    add_side(shown, symbols, row, true)?;
    shown.push_str(if row.equal { "==" } else { "<=" })?;
    add_side(shown, symbols, row, false)
}

/// A line: the rows of a system, and whether it is weak.
pub fn add_system(shown: &mut String, symbols: &Symbols, s: &System) -> Result<(), Memory> {
    shown.push_str("{")?;
    let mut later = false;
    for row in s.rows.as_slice() {
        if later {
            shown.push_str(", ")?;
        }
        later = true;
        add_row(shown, symbols, row)?;
    }
    shown.push_str(if s.weak { "} WEAK\n" } else { "}\n" })
}

fn add_unit(shown: &mut String, unit: &Unit) -> Result<(), Memory> {
    let offset = unit.offset;
    let block = text_of(&unit.block);
    write!(shown, "/{block}/+{offset} ")
}

/// A line: the cells that change, the units that change and have no name, and the system.
fn add_transformer(shown: &mut String, symbols: &Symbols, t: &Transformer) -> Result<(), Memory> {
    for cell in t.cells.as_slice() {
        shown.push_str(name_of(symbols, *cell))?;
        shown.push_str(" ")?;
    }
    for unit in t.foreign.as_slice() {
        add_unit(shown, unit)?;
    }
    add_system(shown, symbols, &t.system)
}

/// A statement: what holds where it begins, and what it does.
fn add_statement(
    shown: &mut String,
    symbols: &Symbols,
    known: &Analysis<'_>,
    place: usize,
) -> Result<(), Memory> {
    let (Some(own), Some(p)) = (known.found.own.at.get(place), known.holds.at.get(place)) else {
        return Ok(());
    };
    let begin = p.id;
    write!(shown, "{begin} P ")?;
    add_system(shown, symbols, &p.value)?;
    let id = own.id;
    write!(shown, "{id} T ")?;
    add_transformer(shown, symbols, &own.value)
}

/// A module: what holds where it is entered, what it does, and the same of each statement.
fn add_module(shown: &mut String, known: &Analysis<'_>) -> Result<(), Memory> {
    let symbols = known.found.symbols;
    shown.push_str("module ")?;
    shown.push_str(text_of(&known.found.module.name))?;
    shown.push_str("\nP ")?;
    add_system(shown, symbols, &known.holds.summary)?;
    shown.push_str("T ")?;
    add_transformer(shown, symbols, &known.found.own.summary)?;
    for place in 0..known.found.own.at.len() {
        add_statement(shown, symbols, known, place)?;
    }
    Ok(())
}

/// The analyses of each module, callers first.
pub fn add_scalars(
    alloc: Global,
    shown: &mut String,
    modules: &List<Parsed>,
    tables: &List<Symbols>,
    graph: &Graph,
) -> Result<(), Memory>
    requires { length modules.now ≡ length tables.now }
{
    let all = analyses(alloc, modules, tables, graph)?;
    for known in all.as_slice() {
        add_module(shown, known)?;
    }
    Ok(())
}
