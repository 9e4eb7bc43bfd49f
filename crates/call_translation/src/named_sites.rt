//! The CALLs of a program by the name of the module that they call.
ghost use Rattle.std.specs.Prelude.{◌≡◌, ◌++◌, ◌∷◌, [], ℕ, List, IfOk, option_copied, bytes_eq, if◌then◌else◌};
ghost use Rattle.f77_ast.specs.PlainStmt.{what_tree};
ghost use Rattle.call_translation.specs.Sites.{caller_tree, actuals_in, sites_in};
ghost use Rattle.call_translation.specs.NamedSites.{sites_or_none, sites_for};

use crate::{CallSites, CallerScope};
use f77_ast::Stmt;
use fx_lists::Text;
use std::alloc::{AllocError as Memory, Global};
use std::collections::HashMap;
use std::rc::Rc;

/// The CALLs of a program by the name of the module that they call, with what an analysis says of each. A name is looked up in constant time.
#[derive(Drop)]
pub struct NamedSites<T> {
    alloc: Global,
    by_name: HashMap<Vec<u8>, CallSites<T>>,
}

/// Adds a CALL to others of the same module.
fn add_site<T: Drop>(
    calls: &mut CallSites<T>,
    caller: &Rc<CallerScope>,
    call: &Stmt,
    value: T,
) -> Result<(), Memory>
    ensures { IfOk result (λ _. sites_in calls.new ≡ sites_in calls.old ++ record { caller = caller_tree caller.now.value; actuals = actuals_in (what_tree call.now.what); value = value } ∷ []) }
{
    calls.add_from(caller, call, value)
}

impl<T: Drop> NamedSites<T> {
    /// No CALLs. Takes no memory.
    pub fn new(alloc: Global) -> NamedSites<T>
        ensures { (x : List ℕ) → sites_for result x ≡ [] }
    {
        NamedSites {
            alloc,
            by_name: HashMap::new(alloc),
        }
    }

    /// The CALLs of the module with a name, in the order in which they were added; None where none was added.
    pub fn of(&self, name: &Text) -> Option<&CallSites<T>>
        ensures { sites_or_none (option_copied result) ≡ sites_for self.now name.now }
    {
        self.by_name.get(name.as_slice())
    }

    /// Takes the CALLs of the module of a name away.
    fn take(&mut self, name: &Text) -> CallSites<T>
        ensures calls { sites_in result ≡ sites_for self.old name.now }
        ensures others { (x : List ℕ) → sites_for self.new x ≡ (if bytes_eq name.now x then [] else sites_for self.old x) }
    {
        match self.by_name.remove(name.as_slice()) {
            None => CallSites::new(self.alloc),
            Some(calls) => calls,
        }
    }

    /// Gives the module of a name these CALLs.
    fn put(&mut self, name: &Text, calls: CallSites<T>) -> Result<(), Memory>
        ensures { IfOk result (λ _. (x : List ℕ) → sites_for self.new x ≡ (if bytes_eq name.now x then sites_in calls else sites_for self.old x)) }
    {
        let key = Vec::from_slice(self.alloc, name.as_slice())?;
        match self.by_name.insert(key, calls) {
            Ok(_) => Ok(()),
            Err(_) => Err(Memory),
        }
    }

    /// Appends a CALL to those of the module with this name; `caller` is the scope of the calling module, `value` what the
    /// analysis says of the CALL. Its actual arguments are copied. After an Err the CALLs of this name may be lost.
    pub fn add(
        &mut self,
        name: &Text,
        caller: &Rc<CallerScope>,
        call: &Stmt,
        value: T,
    ) -> Result<(), Memory>
        ensures { IfOk result (λ _. (x : List ℕ) → sites_for self.new x ≡ sites_for self.old x ++ (if bytes_eq name.now x then record { caller = caller_tree caller.now.value; actuals = actuals_in (what_tree call.now.what); value = value } ∷ [] else [])) }
    {
        let mut calls = self.take(name);
        add_site(&mut calls, caller, call, value)?;
        self.put(name, calls)?;
        Ok(())
    }
}
