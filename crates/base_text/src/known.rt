//! The modules of a base by their names.
ghost use Rattle.std.specs.Prelude.{◌≡◌, map, option_map, IfOk};
ghost use Rattle.base_text.specs.Gives.{GivesAs};
ghost use Rattle.base_text.specs.Modules.{module_names_in, names_at, known_in, known_names, table_names};
ghost use Rattle.base_text.specs.Written.{names_or_none, known_or_none};

use crate::BaseModule;
use crate::modules::{Table, table_of, tables_of};
use base_json::{DecodeError, are_distinct};
use base_values::Numbers;
use f77_ast::Symbols;
use fx_lists::{List, Text};
use std::alloc::{AllocError as Memory, Global};
use tracked_cells::Names;

/// The names of modules, and what the results of each may name.
#[derive(Drop)]
pub struct Known {
    pub names: Names,
    pub tables: List<Table>,
}

/// The names of modules.
fn names_in(alloc: Global, modules: &[BaseModule]) -> Result<Names, Memory>
    ensures { IfOk result (λ names. names ≡ module_names_in modules.now) }
{
    let mut names = Names::new(alloc);
    for module in modules {
        names.push(alloc, &module.name)?;
    }
    Ok(names)
}

/// What the results of a module may name; nothing where its text is not the one module of its name.
fn table_or_none(alloc: Global, module: &BaseModule) -> Result<Table, Memory>
    ensures { IfOk result (λ t. table_names t ≡ names_or_none «module».now) }
{
    match table_of(alloc, module) {
        Ok(table) => Ok(table),
        Err(DecodeError::Memory) => Err(Memory),
        Err(DecodeError::Shape) => Ok(Table {
            symbols: Symbols::new(alloc),
            numbers: Numbers {
                statements: List::new(alloc),
                loops: List::new(alloc),
            },
        }),
    }
}

fn tables_or_none(alloc: Global, modules: &[BaseModule]) -> Result<List<Table>, Memory>
    ensures { IfOk result (λ ts. map table_names ts ≡ map names_or_none modules.now) }
{
    let mut tables = List::new(alloc);
    for module in modules {
        tables.push(table_or_none(alloc, module)?)?;
    }
    Ok(tables)
}

impl Known {
    /// Those of a base that is read. Err(Shape) where a name comes twice, or a text is not the one module of its name.
    pub fn read(alloc: Global, modules: &[BaseModule]) -> Result<Known, DecodeError>
        ensures { GivesAs known_names result (known_in modules.now) }
    {
        let names = names_in(alloc, modules)?;
        if !are_distinct(alloc, names.names())? {
            return Err(DecodeError::Shape);
        }
        let tables = tables_of(alloc, modules)?;
        Ok(Known { names, tables })
    }

    /// Those of a base that is written.
    pub fn of(alloc: Global, modules: &[BaseModule]) -> Result<Known, Memory>
        ensures { IfOk result (λ k. known_names k ≡ known_or_none modules.now) }
    {
        let names = names_in(alloc, modules)?;
        let tables = tables_or_none(alloc, modules)?;
        Ok(Known { names, tables })
    }

    #[tactic(auto, using(crate::proofs::KnownLaws::places))]
    /// What the results of the module with a name may name. Takes constant time.
    pub fn table(&self, name: &Text) -> Option<&Table>
        ensures { option_map (λ t. table_names t.now) result ≡ names_at (known_names self.now) name.now }
    {
        match self.names.place(name) {
            None => None,
            Some(place) => self.tables.get(place as usize),
        }
    }
}
