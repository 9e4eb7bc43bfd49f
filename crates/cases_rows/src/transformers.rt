//! Cells, units and transformers as they are written.
ghost use Rattle.std.specs.Prelude.{IfOk};
ghost use Rattle.affine_systems.specs.Given.{Fits};

use crate::decode_error::DecodeError;
use crate::rows::system_of;
use f77_ast::Unit;
use fx_lists::{List, Text};
use std::alloc::Global;
use transformer_algebra::{Transformer, joined_cells, joined_units};

pub fn cells_of(alloc: Global, part: &str) -> Result<List<u32>, DecodeError> {
    let mut cells = Vec::new(alloc);
    for word in part.split_whitespace() {
        let cell: u32 = word.parse().map_err(|_| DecodeError::Malformed)?;
        cells.push(cell)?;
    }
    Ok(joined_cells(alloc, cells.as_slice(), &[])?)
}

/// Names of blocks, and behind each an offset.
fn units_of(alloc: Global, part: &str) -> Result<List<Unit>, DecodeError> {
    let mut units = Vec::new(alloc);
    let mut block: Option<Text> = None;
    for word in part.split_whitespace() {
        match block.take() {
            None => block = Some(Text::from_bytes(alloc, word.as_bytes())?),
            Some(block) => {
                let offset = word.parse().map_err(|_| DecodeError::Malformed)?;
                units.push(Unit { block, offset })?;
            }
        }
    }
    Ok(joined_units(alloc, units.as_slice(), &[])?)
}

/// A transformer: cells, units and a system, between them `|`.
pub fn transformer_of(alloc: Global, part: &str) -> Result<Transformer, DecodeError>
    ensures { IfOk result (λ t. Fits t.system) }
{
    let (cells, rest) = part.split_once('|').ok_or(DecodeError::Malformed)?;
    let (units, rows) = rest.split_once('|').ok_or(DecodeError::Malformed)?;
    Ok(Transformer {
        cells: cells_of(alloc, cells)?,
        foreign: units_of(alloc, units)?,
        system: system_of(alloc, rows)?,
    })
}
