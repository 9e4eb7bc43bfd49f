//! The lines of regions, in the order of the text.
ghost use Rattle.std.specs.Prelude.{◌≡◌, ◌++◌, IfOk, OnOk, option_copied};
ghost use Rattle.f77_ast.specs.PlainStmt.{stmt_trees};
ghost use Rattle.f77_ast.specs.Index.{names_of as names_of_is};
ghost use Rattle.result_lines.specs.RegionLines.{line_of as line_of_is, set_lines, found_lines, list_lines, entry_lines, region_lines_of};
ghost use Rattle.result_lines.specs.RegionSpots.{spot_lines};

use crate::{LineSpot, line_spots};
use call_graph::View;
use f77_ast::{At, Results, Stmt, StmtId, names_of};
use f77_printer::Added;
use fx_lists::{List, Text};
use region_sets::{Region, RegionSet, region_line};
use std::alloc::{AllocError as Memory, Global};
use transformers::value_at;

/// What is known of a module's statements: the names of its symbols, and the sets of regions.
#[derive(Drop)]
struct Said<'a> {
    names: &'a [Text],
    at: &'a List<At<RegionSet>>,
}

/// The line of a region.
fn line_of(alloc: Global, names: &[Text], r: &Region) -> Result<Text, Memory>
    ensures { IfOk result (λ t. t ≡ line_of_is names.now r.now) }
{
    let mut line = Text::from_bytes(alloc, b"C> ")?;
    let said = region_line(alloc, names, r)?;
    line.append(said.as_slice())?;
    Ok(line)
}

/// The lines of a set.
#[tactic(auto, using(crate::proofs::RegionLineLaws::lines))]
fn put_set(
    alloc: Global,
    names: &[Text],
    before: StmtId,
    set: &[Region],
    out: &mut List<Added>,
) -> Result<(), Memory>
    ensures { OnOk result (out.new ≡ out.old ++ set_lines names.now before set.now) }
{
    let mut rest = set;
    while let [r, more @ ..] = rest {
        let line = line_of(alloc, names, r)?;
        out.push(Added { before, line })?;
        rest = more;
    }
    Ok(())
}

fn put_found(
    alloc: Global,
    names: &[Text],
    before: StmtId,
    found: Option<&RegionSet>,
    out: &mut List<Added>,
) -> Result<(), Memory>
    ensures { OnOk result (out.new ≡ out.old ++ found_lines names.now before (option_copied found.entry)) }
{
    match found {
        None => Ok(()),
        Some(set) => put_set(alloc, names, before, set.as_slice(), out),
    }
}

/// The lines of a statement.
fn put_own(
    alloc: Global,
    said: &Said<'_>,
    spot: &LineSpot,
    out: &mut List<Added>,
) -> Result<(), Memory>
    ensures { OnOk result (out.new ≡ out.old ++ spot_lines said.now.names.now said.now.at.now spot.now) }
{
    let before = spot.before;
    if spot.changes {
        put_found(alloc, said.names, before, value_at(said.at, before), out)?;
    }
    Ok(())
}

/// The lines of statements one after another.
#[tactic(auto, using(crate::proofs::RegionLineLaws::list_steps))]
fn put_list(
    alloc: Global,
    said: &Said<'_>,
    list: &List<Stmt>,
    out: &mut List<Added>,
) -> Result<(), Memory>
    ensures { OnOk result (out.new ≡ out.old ++ list_lines (stmt_trees list.now) said.now.names.now said.now.at.now) }
{
    let spots = line_spots(alloc, list)?;
    for spot in spots.as_slice() {
        put_own(alloc, said, spot, out)?;
    }
    Ok(())
}

/// The lines on what a subroutine accesses as its callers see it; a main program has none.
fn put_entry(
    alloc: Global,
    names: &[Text],
    main: bool,
    summary: &RegionSet,
    out: &mut List<Added>,
) -> Result<(), Memory>
    ensures { OnOk result (out.new ≡ out.old ++ entry_lines main names.now summary.now) }
{
    if main {
        return Ok(());
    }
    put_set(alloc, names, 0, summary.as_slice(), out)
}

/// The comment lines on regions that are added to a module, in the order of the text: of a subroutine or function, first those of its summary;
/// then those of each DO, DO WHILE, CALL and assignment of the value of a function. A statement without a set has none; the statement of a
/// logical IF has none of its own, nor has a hidden one.
pub fn region_lines(
    alloc: Global,
    view: &View<'_>,
    sets: &Results<RegionSet>,
) -> Result<List<Added>, Memory>
    ensures { IfOk result (λ lines. lines ≡ region_lines_of view.now.«module».now.main (stmt_trees view.now.«module».now.body) (names_of_is view.now.symbols.now) sets.now) }
{
    let names = names_of(alloc, view.symbols)?;
    let said = Said {
        names: names.as_slice(),
        at: &sets.at,
    };
    let mut out = List::new(alloc);
    put_entry(
        alloc,
        names.as_slice(),
        view.module.main,
        &sets.summary,
        &mut out,
    )?;
    put_list(alloc, &said, &view.module.body, &mut out)?;
    Ok(out)
}
