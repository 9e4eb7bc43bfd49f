//! The CALLs that name a module.
ghost use Rattle.std.specs.Prelude.{◌≡◌, [], ◌∷◌, ◌++◌, IfOk, OnOk, OnErr};
ghost use Rattle.f77_ast.specs.Plain.{expr_trees};
ghost use Rattle.f77_ast.specs.PlainStmt.{what_tree};
ghost use Rattle.call_translation.specs.Scopes.{scope_of};
ghost use Rattle.call_translation.specs.Sites.{caller_tree, actuals_in, sites_in};

use crate::{CellScope, tracked_of};
use call_graph::View;
use f77_ast::{Expr, Stmt, Symbols, What, copy_exprs, copy_symbols};
use fx_lists::List;
use std::alloc::{AllocError as Memory, Global};
use std::rc::Rc;

/// The scope of a calling module, which owns its symbols and flags: the CALLs of the module share it.
#[derive(Drop)]
pub struct CallerScope {
    pub symbols: Symbols,
    pub tracked: List<bool>,
}

/// A CALL: the scope of its caller, its actual arguments in order, and what an analysis says of it.
#[derive(Drop)]
pub struct Site<T> {
    pub caller: Rc<CallerScope>,
    pub actuals: List<Expr>,
    pub value: T,
}

/// The CALLs that name one module, with what an analysis says of each, in the order in which they were added: of the phases, callers before
/// the modules that they call, and the CALLs of one caller in the order of the text.
#[derive(Drop)]
pub struct CallSites<T> {
    alloc: Global,
    list: List<Site<T>>,
}

#[tactic(auto, using(f77_ast::proofs::PlainlyStmt::what_cases))]
fn actuals_of(alloc: Global, call: &Stmt) -> Result<List<Expr>, Memory>
    ensures { IfOk result (λ es. expr_trees es ≡ actuals_in (what_tree call.now.what)) }
{
    match &call.what {
        What::Call(_, actuals) => copy_exprs(alloc, actuals),
        What::Assign(..)
        | What::If(..)
        | What::LogicalIf(..)
        | What::Do(_)
        | What::Goto(_)
        | What::Continue
        | What::Return
        | What::Stop(_)
        | What::Print(_)
        | What::Read(_) => Ok(List::new(alloc)),
    }
}

impl<T: Drop> Site<T> {
    /// The scope of the calling module, borrowed from the site.
    pub fn scope(&self) -> CellScope<'_>
        ensures symbols { result.symbols.now ≡ self.now.caller.value.symbols }
        ensures tracked { result.tracked.now ≡ self.now.caller.value.tracked }
    {
        let caller = self.caller.as_ref();
        CellScope {
            symbols: &caller.symbols,
            tracked: &caller.tracked,
        }
    }
}

/// The scope of a module, for the sites of its CALLs to share. Its symbols are copied.
pub fn caller_scope(alloc: Global, caller: &View<'_>) -> Result<Rc<CallerScope>, Memory>
    ensures { IfOk result (λ scope. caller_tree scope.value ≡ scope_of caller.now.«module».now caller.now.symbols.now caller.now.graph.now.untracked) }
{
    let scope = CallerScope {
        symbols: copy_symbols(alloc, caller.symbols)?,
        tracked: tracked_of(alloc, caller)?,
    };
    Ok(Rc::new(alloc, scope)?)
}

impl<T: Drop> CallSites<T> {
    /// No CALLs. Takes no memory.
    pub fn new(alloc: Global) -> CallSites<T>
        ensures { sites_in result ≡ [] }
    {
        CallSites {
            alloc,
            list: List::new(alloc),
        }
    }

    /// Appends a CALL of the module `caller`. The actual arguments and the symbols of the caller are copied: for several CALLs of one module,
    /// make one `CallerScope` and use `add_from`. After an Err the list is as it was. Of a statement that is no CALL there are no actuals.
    pub fn add(&mut self, caller: &View<'_>, call: &Stmt, value: T) -> Result<(), Memory>
        ensures ok { OnOk result (sites_in self.new ≡ sites_in self.old ++ record { caller = scope_of caller.now.«module».now caller.now.symbols.now caller.now.graph.now.untracked; actuals = actuals_in (what_tree call.now.what); value = value } ∷ []) }
        ensures err { OnErr result (self.new.list ≡ self.old.list) }
    {
        let scope = caller_scope(self.alloc, caller)?;
        self.add_from(&scope, call, value)
    }

    /// Appends a CALL of a module with this scope, which the site shares with others. The actual arguments are copied. After an Err the list
    /// is as it was.
    pub fn add_from(
        &mut self,
        caller: &Rc<CallerScope>,
        call: &Stmt,
        value: T,
    ) -> Result<(), Memory>
        ensures ok { OnOk result (sites_in self.new ≡ sites_in self.old ++ record { caller = caller_tree caller.now.value; actuals = actuals_in (what_tree call.now.what); value = value } ∷ []) }
        ensures err { OnErr result (self.new.list ≡ self.old.list) }
    {
        let actuals = actuals_of(self.alloc, call)?;
        let caller = caller.clone()?;
        self.list.push(Site {
            caller,
            actuals,
            value,
        })?;
        Ok(())
    }

    /// The CALLs, in the order in which they were added.
    pub fn as_slice(&self) -> &[Site<T>]
        ensures { result.now ≡ self.now.list }
    {
        self.list.as_slice()
    }
}
