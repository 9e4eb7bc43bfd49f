//! A module of a source text.
ghost use Rattle.std.specs.Prelude.{◌≡◌, map, IfOk};
ghost use Rattle.session_texts.specs.Joined.{spot_back, counted_back, made_of, sources_from};

use f77_ast::{Parsed, Places, Spot, Symbols};
use f77_parser::ModuleTrees;
use f77_structure::stack_of;
use fixed_form::Piece;
use fx_lists::{List, Text};
use std::alloc::{AllocError as Memory, Global};

/// The text of a module.
#[derive(Drop)]
pub struct ModuleText {
    pub name: Text,
    pub text: Text,
    /// The line of the source text that the text begins with, from 1.
    pub first: u32,
}

/// A module of a source text that was read.
#[derive(Drop)]
pub struct Source {
    pub text: ModuleText,
    /// Its lines are counted from the first of its own text.
    pub parsed: Parsed,
    pub symbols: Symbols,
}

/// The places of statements, their lines counted back.
fn spots_back(alloc: Global, spots: List<Spot>, by: u32) -> Result<List<Spot>, Memory>
    ensures { IfOk result (λ back. back ≡ map (spot_back by) spots) }
{
    let mut back = List::new(alloc);
    let mut rest = stack_of(spots);
    while let Some(spot) = rest.pop() {
        let Spot {
            part,
            first,
            comments,
        } = spot;
        back.push(Spot {
            part,
            first: first.saturating_sub(by),
            comments,
        })?;
    }
    Ok(back)
}

/// A module with its lines counted back, so many.
fn counted_back(alloc: Global, by: u32, parsed: Parsed) -> Result<Parsed, Memory>
    ensures { IfOk result (λ back. back ≡ counted_back by parsed) }
{
    let Parsed { module, places } = parsed;
    let Places { spots, closing } = places;
    let spots = spots_back(alloc, spots, by)?;
    Ok(Parsed {
        module,
        places: Places { spots, closing },
    })
}

/// A module of a text, by itself.
fn made_of(alloc: Global, piece: Piece, parsed: Parsed, symbols: Symbols) -> Result<Source, Memory>
    ensures { IfOk result (λ source. source ≡ made_of piece parsed symbols) }
{
    let Piece { first, text } = piece;
    let name = parsed.module.name.clone()?;
    let parsed = counted_back(alloc, first.saturating_sub(1), parsed)?;
    Ok(Source {
        text: ModuleText { name, text, first },
        parsed,
        symbols,
    })
}

/// The modules of a text, each by itself: those of these pieces, with their tables.
pub(crate) fn sources_from(
    alloc: Global,
    pieces: List<Piece>,
    modules: ModuleTrees,
    tables: List<Symbols>,
) -> Result<List<Source>, Memory>
    ensures { IfOk result (λ sources. sources ≡ sources_from pieces modules tables) }
{
    let mut sources = List::new(alloc);
    let mut pieces = stack_of(pieces);
    let mut modules = stack_of(modules);
    let mut tables = stack_of(tables);
    while let Some(piece) = pieces.pop() {
        let Some(parsed) = modules.pop() else {
            return Ok(sources);
        };
        let Some(symbols) = tables.pop() else {
            return Ok(sources);
        };
        let source = made_of(alloc, piece, parsed, symbols)?;
        sources.push(source)?;
    }
    Ok(sources)
}
