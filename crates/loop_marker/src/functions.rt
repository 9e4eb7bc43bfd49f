//! Results of functions that are not private.
ghost use Rattle.std.specs.Prelude.{◌≡◌, map, IfOk};
ghost use Rattle.f77_ast.specs.PlainDecl.{module_tree};
ghost use Rattle.f77_ast.specs.PlainStmt.{loop_tree};
ghost use Rattle.f77_ast.specs.Symbols.{symbol_tree};
ghost use Rattle.loop_marker.specs.Marks.{is_other_name as is_other_name_is, is_other_result as is_other_result_is};

use call_graph::View;
use f77_ast::{Loop, Module, Variable};
use fx_lists::Text;
use privatizer::{is_one_of, module_functions, own_functions};
use std::alloc::{AllocError as Memory, Global};

/// Whether a name is that of a function of which the module takes a value, and which is saved, or the body of the DO takes none.
#[tactic(auto, using(crate::proofs::Steps::loops))]
fn is_other_name(alloc: Global, module: &Module, l: &Loop, name: &Text) -> Result<bool, Memory>
    ensures { IfOk result (λ b. b ≡ is_other_name_is (module_tree «module».now) (loop_tree l.now) name.now) }
{
    let functions = module_functions(alloc, module)?;
    if !is_one_of(&functions, name) {
        return Ok(false);
    }
    let own = own_functions(alloc, module, &l.body)?;
    Ok(!is_one_of(&own, name))
}

/// Whether a variable is the result of a function of which the module takes a value, and which is saved, or the body of the DO takes none.
pub fn is_other_result(
    alloc: Global,
    view: &View<'_>,
    l: &Loop,
    v: &Variable,
) -> Result<bool, Memory>
    ensures { IfOk result (λ b. b ≡ is_other_result_is (module_tree view.now.«module».now) (map symbol_tree view.now.symbols.now) (loop_tree l.now) v.now) }
{
    match v {
        Variable::Own(number) => match view.symbols.symbol(*number) {
            None => Ok(false),
            Some(symbol) => is_other_name(alloc, view.module, l, &symbol.name),
        },
        Variable::Block(_) | Variable::Saved(..) => Ok(false),
    }
}
