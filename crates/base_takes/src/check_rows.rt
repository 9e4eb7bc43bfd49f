//! Whether systems are such as calls take, and name what a module has.
ghost use Rattle.std.specs.Prelude.{◌≡◌, true, nat_eq, IfOk};
ghost use Rattle.std.specs.HashSet.{IsFromIterResult};
ghost use Rattle.f77_ast.specs.Index.{names_of};
ghost use Rattle.base_json.specs.Scopes.{cells_alone, scope_tree, with_exits, with_phi};
ghost use Rattle.base_json.specs.Read.{terms_ascend as terms_ascend_is};
ghost use Rattle.base_values.specs.Naming.{VarFits, RowNames, SystemFits};

use crate::check::{Check, check_list};
use crate::check_names::is_symbol;
use affine_systems::{Row, System, Term, Var};
use base_json::{Scope, is_small_system, rows_fit, terms_ascend};
use f77_ast::Symbols;
use std::alloc::{AllocError as Memory, Global};
use std::collections::HashSet;

/// Whether a variable may be named.
fn var_fits(scope: &Scope<'_>, var: Var) -> bool
    ensures { result ≡ true → VarFits (scope_tree scope.now) var }
{
    match var {
        Var::Cell(number) => is_symbol(scope.symbols, number),
        Var::Exit(number) => scope.exits.contains(&number),
        Var::Phi(_) => scope.phi,
        Var::Aux(_) => false,
    }
}

impl<'a> Check<Scope<'a>> for Term {
    ghost fits = { λ s t. VarFits (scope_tree s) t.var };

    fn check(&self, _alloc: Global, scope: &Scope<'a>) -> Result<bool, Memory> {
        Ok(var_fits(scope, self.var))
    }
}

impl<'a> Check<Scope<'a>> for Row {
    ghost fits = { λ s r. RowNames (scope_tree s) r × (terms_ascend_is r.terms ≡ true) };

    fn check(&self, alloc: Global, scope: &Scope<'a>) -> Result<bool, Memory> {
        let named = check_list(alloc, scope, &self.terms)?;
        if !named {
            return Ok(false);
        }
        Ok(terms_ascend(self.terms.as_slice()))
    }
}

/// Whether calls take a system, and its variables may be named.
fn system_fits(alloc: Global, scope: &Scope<'_>, system: &System) -> Result<bool, Memory>
    ensures { IfOk result (λ b. b ≡ true → SystemFits (scope_tree scope.now) system.now) }
{
    let fit = rows_fit(system.rows.as_slice());
    if !fit {
        return Ok(false);
    }
    let small = is_small_system(system);
    if !small {
        return Ok(false);
    }
    check_list(alloc, scope, &system.rows)
}

/// Whether a system on cells fits a module with these symbols.
pub fn cells_system_fits(alloc: Global, symbols: &Symbols, system: &System) -> Result<bool, Memory>
    ensures { IfOk result (λ b. b ≡ true → SystemFits (cells_alone (names_of symbols.now)) system.now) }
{
    let none: HashSet<u32> = HashSet::new(alloc);
    let scope = Scope {
        symbols,
        exits: &none,
        phi: false,
    };
    system_fits(alloc, &scope, system)
}

/// Whether a system on cells and subscripts fits a module with these symbols.
pub fn phi_system_fits(alloc: Global, symbols: &Symbols, system: &System) -> Result<bool, Memory>
    ensures { IfOk result (λ b. b ≡ true → SystemFits (with_phi (cells_alone (names_of symbols.now))) system.now) }
{
    let none: HashSet<u32> = HashSet::new(alloc);
    let scope = Scope {
        symbols,
        exits: &none,
        phi: true,
    };
    system_fits(alloc, &scope, system)
}

/// The set of these numbers.
fn set_of(alloc: Global, numbers: &[u32]) -> Result<HashSet<u32>, Memory>
    ensures { IfOk result (IsFromIterResult nat_eq numbers.now) }
{
    numbers.iter().copied().collect(alloc)
}

/// Whether a system on cells, and on the exits of some of them, fits a module with these symbols.
pub fn exit_system_fits(
    alloc: Global,
    symbols: &Symbols,
    cells: &[u32],
    system: &System,
) -> Result<bool, Memory>
    ensures { IfOk result (λ b. b ≡ true → SystemFits (with_exits cells.now (cells_alone (names_of symbols.now))) system.now) }
{
    let exits = set_of(alloc, cells)?;
    let scope = Scope {
        symbols,
        exits: &exits,
        phi: false,
    };
    system_fits(alloc, &scope, system)
}
