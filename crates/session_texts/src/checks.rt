//! The modules of one text beside one another: how many there are, their names, and their main programs.
ghost use Rattle.std.specs.Prelude.{◌≡◌, ◌≤◌, length, map, option_map, IfOk};
ghost use Rattle.f77_ast.specs.PlainDecl.{parsed_tree};
ghost use Rattle.call_graph.specs.Modules.{most_modules, module_line, too_many, is_place, names_of, twice_from, main_twice};
ghost use Rattle.session_texts.specs.Sources.{refusal_for, source_refusal};

use call_graph::MOST_MODULES;
use f77_ast::Parsed;
use f77_parser::ModuleTrees;
use fx_lists::{Code, Refusal};
use std::alloc::{AllocError as Memory, Global};
use tracked_cells::Names;

/// The first line of a module.
fn module_line(parsed: &Parsed) -> u32
    ensures { result ≡ module_line (parsed_tree parsed.now) }
{
    match parsed.places.spots.as_slice() {
        [] => 0,
        [spot, ..] => spot.first,
    }
}

/// The first module after the most that a program may have.
fn too_many(modules: &ModuleTrees) -> Option<Refusal>
    ensures { result ≡ option_map refusal_for (too_many (map parsed_tree modules.now)) }
{
    let extra = modules.get(MOST_MODULES)?;
    Some(Refusal {
        line: module_line(extra),
        code: Code::TooManyModules,
    })
}

fn is_place(place: u32, found: Option<u32>) -> bool
    ensures { result ≡ is_place place found }
{
    match found {
        None => false,
        Some(other) => other == place,
    }
}

/// The first module whose name an earlier one has.
fn name_twice(modules: &ModuleTrees, names: &Names) -> Option<Refusal>
    requires { length modules.now ≤ most_modules }
    ensures { result ≡ option_map refusal_for (twice_from 0 names.now (map parsed_tree modules.now)) }
{
    let mut place = 0u32;
    let mut rest = modules.as_slice();
    while let [parsed, more @ ..] = rest {
        if !is_place(place, names.place(&parsed.module.name)) {
            return Some(Refusal {
                line: module_line(parsed),
                code: Code::ModuleTwice,
            });
        }
        place += 1;
        rest = more;
    }
    None
}

/// The second main program.
fn main_twice(modules: &ModuleTrees) -> Option<Refusal>
    requires { length modules.now ≤ most_modules }
    ensures { result ≡ option_map refusal_for (main_twice (map parsed_tree modules.now)) }
{
    let mut place = 0u32;
    let mut found = false;
    let mut rest = modules.as_slice();
    while let [parsed, more @ ..] = rest {
        if parsed.module.main && found {
            return Some(Refusal {
                line: module_line(parsed),
                code: Code::TwoMains,
            });
        }
        found = found || parsed.module.main;
        place += 1;
        rest = more;
    }
    None
}

/// What is wrong with the modules of one text before they are linked: more than 256, a name twice, two main programs, in this order.
pub(crate) fn source_refusal(
    alloc: Global,
    modules: &ModuleTrees,
) -> Result<Option<Refusal>, Memory>
    ensures { IfOk result (λ found. found ≡ source_refusal (map parsed_tree modules.now)) }
{
    if let Some(refusal) = too_many(modules) {
        return Ok(Some(refusal));
    }
    let names = Names::of(alloc, modules)?;
    if let Some(refusal) = name_twice(modules, &names) {
        return Ok(Some(refusal));
    }
    Ok(main_twice(modules))
}
