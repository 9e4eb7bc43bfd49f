//! How many modules there are, their names, and their main program.
ghost use Rattle.std.specs.Prelude.{◌≡◌, ◌≤◌, length, map};
ghost use Rattle.f77_ast.specs.PlainDecl.{parsed_tree};
ghost use Rattle.call_graph.specs.Modules.{most_modules, module_line, statement_line, is_statement, has_spot, call_line, too_many, is_place, twice_from, main_twice, no_main};

use crate::carriers::carrier_in;
use crate::refusal::Fault;
use f77_ast::{Parsed, Part, Spot, StmtId};
use fx_lists::{Code, List};
use tracked_cells::Names;

/// The first line of a module.
fn module_line(parsed: &Parsed) -> u32
    ensures { result ≡ module_line (parsed_tree parsed.now) }
{
    match parsed.places.spots.as_slice() {
        [] => 0,
        [spot, ..] => spot.first,
    }
}

fn is_statement(part: Part, id: StmtId) -> bool
    ensures { result ≡ is_statement id part }
{
    match part {
        Part::Stmt(own) => own == id,
        Part::Title
        | Part::Decl(_)
        | Part::ElseIf(..)
        | Part::Else(_)
        | Part::Close(_)
        | Part::End => { false }
    }
}

/// The first line of an executable statement, from 1; 0 where no spot is of its number. Linear in the spots.
fn statement_line(spots: &[Spot], id: StmtId) -> u32
    ensures { result ≡ statement_line id spots.now }
{
    let mut rest = spots;
    while let [spot, more @ ..] = rest {
        if is_statement(spot.part, id) {
            return spot.first;
        }
        rest = more;
    }
    0
}

/// The most modules of a program.
pub const MOST_MODULES: usize = 256;

/// Whether an executable statement has a line of its own.
fn has_spot(spots: &[Spot], id: StmtId) -> bool
    ensures { result ≡ has_spot id spots.now }
{
    let mut rest = spots;
    while let [spot, more @ ..] = rest {
        if is_statement(spot.part, id) {
            return true;
        }
        rest = more;
    }
    false
}

/// The line of a CALL, from 1: where it has none of its own, that of the statement of the text that it belongs to. Linear in the statements.
pub fn call_line(parsed: &Parsed, id: StmtId) -> u32
    ensures { result ≡ call_line id (parsed_tree parsed.now) }
{
    let spots = parsed.places.spots.as_slice();
    if has_spot(spots, id) {
        return statement_line(spots, id);
    }
    match carrier_in(id, &parsed.module.body) {
        None => statement_line(spots, id),
        Some(carrier) => statement_line(spots, carrier),
    }
}

/// The fault of the first module after the most that a program may have; None where there are no more.
pub fn too_many(modules: &List<Parsed>) -> Option<Fault>
    ensures { result ≡ too_many (map parsed_tree modules.now) }
{
    let extra = modules.get(MOST_MODULES)?;
    Some(Fault::At(
        MOST_MODULES as u32,
        module_line(extra),
        Code::TooManyModules,
    ))
}

fn is_place(place: u32, found: Option<u32>) -> bool
    ensures { result ≡ is_place place found }
{
    match found {
        None => false,
        Some(other) => other == place,
    }
}

/// The fault of the first module whose name an earlier one has; None where the names differ. `names` are those of the modules.
pub fn name_twice(modules: &List<Parsed>, names: &Names) -> Option<Fault>
    requires { length modules.now ≤ most_modules }
    ensures { result ≡ twice_from 0 names.now (map parsed_tree modules.now) }
{
    let mut place = 0u32;
    let mut rest = modules.as_slice();
    while let [parsed, more @ ..] = rest {
        if !is_place(place, names.place(&parsed.module.name)) {
            return Some(Fault::At(place, module_line(parsed), Code::ModuleTwice));
        }
        place += 1;
        rest = more;
    }
    None
}

/// The fault of the second main program; None where there are not two.
pub fn main_twice(modules: &List<Parsed>) -> Option<Fault>
    requires { length modules.now ≤ most_modules }
    ensures { result ≡ main_twice (map parsed_tree modules.now) }
{
    let mut place = 0u32;
    let mut found = false;
    let mut rest = modules.as_slice();
    while let [parsed, more @ ..] = rest {
        if parsed.module.main && found {
            return Some(Fault::At(place, module_line(parsed), Code::TwoMains));
        }
        found = found || parsed.module.main;
        place += 1;
        rest = more;
    }
    None
}

/// The fault that no module is a main program; None where one is.
pub fn no_main(modules: &List<Parsed>) -> Option<Fault>
    ensures { result ≡ no_main (map parsed_tree modules.now) }
{
    let mut rest = modules.as_slice();
    while let [parsed, more @ ..] = rest {
        if parsed.module.main {
            return None;
        }
        rest = more;
    }
    Some(Fault::NoMain)
}
