//! What the results of a module name.
ghost use Rattle.std.specs.Prelude.{◌≡◌, IfOk};
ghost use Rattle.f77_ast.specs.PlainStmt.{stmt_trees};
ghost use Rattle.f77_ast.specs.StatementNumbers.{list_numbers};
ghost use Rattle.base_values.specs.Modules.{loops_in};

use crate::statements::put_list;
use f77_ast::{Stmt, StmtId, Symbols};
use fx_lists::List;
use std::alloc::{AllocError as Memory, Global};

/// The numbers of the executable statements of a module and of its DO statements, in the order of the text.
#[derive(Drop)]
pub struct Numbers {
    pub statements: List<StmtId>,
    pub loops: List<StmtId>,
}

/// What the results of a module name.
#[derive(Drop)]
pub struct Names<'a> {
    pub symbols: &'a Symbols,
    pub numbers: &'a Numbers,
}

/// The numbers of the statements of a module with this body.
pub fn numbers_in(alloc: Global, body: &List<Stmt>) -> Result<Numbers, Memory>
    ensures statements { IfOk result (λ found. found.statements ≡ list_numbers (stmt_trees body.now)) }
    ensures loops { IfOk result (λ found. found.loops ≡ loops_in (stmt_trees body.now)) }
{
    let mut statements = List::new(alloc);
    let mut loops = List::new(alloc);
    put_list(body, &mut statements, &mut loops)?;
    Ok(Numbers { statements, loops })
}
