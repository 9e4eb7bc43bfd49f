//! The table of symbols of a module, or its first refusal.
ghost use Rattle.std.specs.Prelude.{◌≡◌, IfOk, map};
ghost use Rattle.f77_ast.specs.PlainDecl.{decl_tree, module_tree, parsed_tree};
ghost use Rattle.f77_ast.specs.Symbols.{number_from};
ghost use Rattle.f77_ast.specs.Index.{names_of};
ghost use Rattle.f77_names.specs.Views.{line_in, table_tree};
ghost use Rattle.f77_checks.specs.Views.{valued_tree};
ghost use Rattle.storage_layout.specs.Gives.{Gives};
ghost use Rattle.storage_layout.specs.Symbols.{lay_shared_and_data, after_shared, check_and_lay_out, symbols_or_refusal, filled, laid, lay_out, shared, symbols_at, symbols_of};

use crate::LayoutRefusal;
use crate::blocks::Laid;
use crate::equivalences::{Grouping, Shared};
use crate::layout::Layout;
use crate::table::is_save_all;
use f77_ast::{Decl, Module, Parsed, Symbols};
use f77_checks::{check_list, check_shapes, parameters_valued};
use f77_names::{LineTable, NameTable, table_of};
use fx_lists::{List, Refusal, Text};
use std::alloc::{AllocError as Memory, Global};
use storage_data::{Filled, Groups, as_number};

/// Where the names lie after COMMON.
#[tactic(auto, unfolding(crate::specs::Symbols::laid))]
fn lay_common(alloc: Global, table: &NameTable, decls: &[Decl]) -> Result<Laid, Memory>
    ensures { IfOk result (λ l. l ≡ laid (table_tree table.now) (map decl_tree decls.now)) }
{
    let count = as_number(table.names.as_slice().len())?;
    let mut laid = Laid {
        offset_nodes: Groups::singletons(alloc, count)?,
        names: List::new(alloc),
        sizes: List::new(alloc),
    };
    laid.put_decls(alloc, table, decls)?;
    Ok(laid)
}

/// Where they lie after EQUIVALENCE.
#[tactic(auto, unfolding(crate::specs::Symbols::shared))]
fn lay_equivalence(
    alloc: Global,
    table: &NameTable,
    lines: &LineTable,
    decls: &[Decl],
    offset_nodes: Groups,
    found: Option<Refusal>,
) -> Result<Shared, Memory>
    ensures { IfOk result
        (λ s. s ≡ shared (table_tree table.now) (line_in lines.now) (map decl_tree decls.now) offset_nodes found) }
{
    let group = Grouping {
        offset_nodes,
        anchor: None,
        clash: false,
    };
    let mut shared = Shared {
        group,
        found,
        late: None,
    };
    shared.share_decls(alloc, table, lines, decls)?;
    Ok(shared)
}

/// The values of DATA.
#[tactic(auto, unfolding(crate::specs::Symbols::filled))]
fn lay_data(
    alloc: Global,
    table: &NameTable,
    offset_nodes: &Groups,
    lines: &LineTable,
    decls: &[Decl],
    found: Option<Refusal>,
) -> Result<Filled, Memory>
    ensures { IfOk result
        (λ f. f ≡ filled (table_tree table.now) offset_nodes.now (line_in lines.now) (map decl_tree decls.now) found) }
{
    let mut filled = Filled::new(alloc, found);
    filled.fill_decls(alloc, table, offset_nodes, lines, decls)?;
    Ok(filled)
}

/// The first refusal, or the symbols.
#[tactic(auto, unfolding(crate::specs::Symbols::symbols_or_refusal))]
fn symbols_or_refusal(
    alloc: Global,
    table: &NameTable,
    decls: &[Decl],
    names: &List<Text>,
    offset_nodes: &Groups,
    late: Option<Refusal>,
    filled: &Filled,
) -> Result<Symbols, LayoutRefusal>
    ensures { Gives result
        (symbols_or_refusal (table_tree table.now) (map decl_tree decls.now) names.now offset_nodes.now late filled.now) }
{
    match (filled.found, late) {
        (Some(refusal), _) | (None, Some(refusal)) => {
            Err(LayoutRefusal::At(refusal.line, refusal.code.number()))
        }
        (None, None) => {
            let save_all = is_save_all(decls);
            let layout = Layout::of(alloc, table, offset_nodes, names, &filled.pieces, save_all)?;
            Ok(layout.symbols_in(alloc)?)
        }
    }
}

/// Lays EQUIVALENCE and DATA out.
#[tactic(auto, unfolding(crate::specs::Symbols::lay_shared_and_data, crate::specs::Symbols::after_shared))]
fn lay_shared_and_data(
    alloc: Global,
    table: &NameTable,
    lines: &LineTable,
    decls: &[Decl],
    found: Option<Refusal>,
    laid: Laid,
) -> Result<Symbols, LayoutRefusal>
    ensures { Gives result
        (lay_shared_and_data (table_tree table.now) (line_in lines.now) (map decl_tree decls.now) found laid) }
{
    let Laid {
        offset_nodes,
        names,
        sizes: _,
    } = laid;
    let shared = lay_equivalence(alloc, table, lines, decls, offset_nodes, found)?;
    let offset_nodes = &shared.group.offset_nodes;
    let filled = lay_data(alloc, table, offset_nodes, lines, decls, shared.found)?;
    symbols_or_refusal(
        alloc,
        table,
        decls,
        &names,
        offset_nodes,
        shared.late,
        &filled,
    )
}

/// Lays COMMON, EQUIVALENCE and DATA out, in this order. Refusals of EQUIVALENCE come after all others.
#[tactic(auto, unfolding(crate::specs::Symbols::lay_out))]
fn lay_out(
    alloc: Global,
    table: &NameTable,
    lines: &LineTable,
    decls: &[Decl],
    found: Option<Refusal>,
) -> Result<Symbols, LayoutRefusal>
    ensures { Gives result
        (lay_out (table_tree table.now) (line_in lines.now) (map decl_tree decls.now) found) }
{
    let laid = lay_common(alloc, table, decls)?;
    lay_shared_and_data(alloc, table, lines, decls, found, laid)
}

/// The names and the first refusal are known: bounds, statements, storage.
#[tactic(auto, unfolding(crate::specs::Symbols::check_and_lay_out, crate::specs::Symbols::checked))]
fn check_and_lay_out(
    alloc: Global,
    lines: &LineTable,
    module: &Module,
    table: &NameTable,
    found: Option<Refusal>,
) -> Result<Symbols, LayoutRefusal>
    ensures { Gives result
        (check_and_lay_out (line_in lines.now) (module_tree «module».now) (valued_tree table.now found)) }
{
    let found = check_shapes(table, found);
    let found = check_list(table, lines, &module.body, 0, found)?;
    lay_out(alloc, table, lines, module.decls.as_slice(), found)
}

fn symbols_at(alloc: Global, lines: &LineTable, module: &Module) -> Result<Symbols, LayoutRefusal>
    ensures { Gives result (symbols_at (line_in lines.now) (module_tree «module».now)) }
{
    let (mut table, found) = table_of(alloc, lines, module)?;
    let found = parameters_valued(&mut table, lines, &module.decls, found)?;
    check_and_lay_out(alloc, lines, module, &table, found)
}

/// The symbols of a module that was read, in the order of its table of names. Err is its first refusal: the earliest line, then
/// the lowest code, where 35 and 36 come after all others. The offset of a local counts from the lowest one of its storage
/// group.
pub fn symbols(alloc: Global, parsed: &Parsed) -> Result<Symbols, LayoutRefusal>
    ensures { Gives result (symbols_of (parsed_tree parsed.now)) }
{
    let lines = LineTable::of(alloc, parsed.places.spots.as_slice())?;
    symbols_at(alloc, &lines, &parsed.module)
}

/// The number of the symbol of a name, from 1; None where no symbol has it. Takes no memory.
pub fn place(symbols: &Symbols, name: &Text) -> Option<u32>
    ensures { result ≡ number_from 1 (names_of symbols.now) name.now }
{
    symbols.number(name)
}
