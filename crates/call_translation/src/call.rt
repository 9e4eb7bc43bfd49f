//! What variables of a callee are to its caller: a dummy is its actual, a variable of a block the caller's variable at the same unit. A cell of the
//! caller is passed to a dummy whose actual names it; where it is passed to several, the first of them has it.
ghost use Rattle.std.specs.Prelude.{◌≡◌, map, IfOk, IfSome, option_copied};
ghost use Rattle.affine_systems.specs.Given.{IsGiven};
ghost use Rattle.f77_ast.specs.Symbols.{symbol_tree};
ghost use Rattle.f77_ast.specs.Shared.{place_at};
ghost use Rattle.affine_forms.specs.Forms.{IsSmallForm};
ghost use Rattle.call_translation.specs.Actuals.{one_cell};
ghost use Rattle.call_translation.specs.Call.{actual_cell as actual_cell_is, cell_at as cell_at_is, block_cell_at as block_cell_at_is, dummy_cell_at as dummy_cell_at_is, form_at as form_at_is, unless_among as unless_among_is, exit_of as exit_of_is, cell_or_aux as cell_or_aux_is, exit_or_aux as exit_or_aux_is, in_caller as in_caller_is, cell_passed_by as cell_passed_by_is, form_row as form_row_is, row_of as row_of_is, maybe_row, call_tree};

use crate::actual::{actual_of, form_in};
use crate::common::tracked_at;
use crate::{CellScope, named_cell};
use affine_forms::{Affine, same_row, var_form};
use affine_systems::{Row, Var};
use f77_ast::{Expr, Place, Symbols};
use fx_lists::List;
use std::alloc::{AllocError as Memory, Global};
use transformer_algebra::has;

/// A CALL: the scope of its caller, its actual arguments in order, and the symbols of the callee.
#[derive(Drop)]
pub struct CallContext<'a> {
    pub caller: &'a CellScope<'a>,
    pub actuals: &'a List<Expr>,
    pub symbols: &'a Symbols,
}

fn place_in(symbols: &Symbols, number: u32) -> Option<&Place>
    ensures { option_copied result ≡ place_at (map symbol_tree symbols.now) number }
{
    match symbols.symbol(number) {
        None => None,
        Some(symbol) => Some(&symbol.place),
    }
}

/// The cell, unless it was passed to an earlier dummy.
fn unless_among(passed_by_reference: &[u32], cell: Option<u32>) -> Option<u32>
    ensures { result ≡ unless_among_is passed_by_reference.now cell }
{
    match cell {
        None => None,
        Some(found) => {
            if has(passed_by_reference, found) {
                None
            } else {
                Some(found)
            }
        }
    }
}

/// A cell, or the auxiliary variable of a number where there is none.
fn cell_or_aux(aux: u32, cell: Option<u32>) -> Var
    ensures { result ≡ cell_or_aux_is aux cell }
{
    match cell {
        None => Var::Aux(aux),
        Some(found) => Var::Cell(found),
    }
}

/// The exit of a cell, or the auxiliary variable of a number where there is none.
fn exit_or_aux(aux: u32, cell: Option<u32>) -> Var
    ensures { result ≡ exit_or_aux_is aux cell }
{
    match cell {
        None => Var::Aux(aux),
        Some(found) => Var::Exit(found),
    }
}

/// That a variable has the value of a form, where there is one.
fn form_row(alloc: Global, v: Var, form: &Option<Affine>) -> Result<Option<Row>, Memory>
    requires { IfSome form.now IsSmallForm }
    ensures defined { IfOk result (λ r. maybe_row r ≡ form_row_is v form.now) }
    ensures fits { IfOk result (λ r. IfSome r IsGiven) }
{
    match form {
        None => Ok(None),
        Some(form) => {
            let own = var_form(alloc, v)?;
            Ok(Some(same_row(alloc, &own, form)?))
        }
    }
}

impl CallContext<'_> {
    /// The place of the symbol of the callee with a number, from 1; None where there is none.
    pub fn place(&self, number: u32) -> Option<&Place>
        ensures { option_copied result ≡ place_at (map symbol_tree self.now.symbols.now) number }
    {
        place_in(self.symbols, number)
    }

    /// The tracked cell of the caller that is the actual of the dummy with a number, from 1.
    fn actual_cell(&self, dummy: u32) -> Option<u32>
        ensures { result ≡ actual_cell_is (call_tree self.now) dummy }
    {
        match actual_of(self.actuals, dummy) {
            None => None,
            Some(actual) => named_cell(self.caller, actual),
        }
    }

    /// The tracked cell of the caller that is passed to a symbol of the callee: none, unless the symbol is a dummy.
    fn dummy_cell(&self, cell: u32) -> Option<u32>
        ensures { result ≡ dummy_cell_at_is (call_tree self.now) (place_at (map symbol_tree self.now.symbols.now) cell) }
    {
        match self.place(cell) {
            None => None,
            Some(place) => match place {
                Place::Dummy(dummy) => self.actual_cell(*dummy),
                Place::Local(..) | Place::Block(..) | Place::Constant(_) => None,
            },
        }
    }

    /// The tracked cell of the caller at the unit of a symbol of the callee: none, unless the symbol is a variable of a block.
    fn block_cell(&self, cell: u32) -> Result<Option<u32>, Memory>
        ensures { IfOk result (λ found. found ≡ block_cell_at_is (call_tree self.now) (place_at (map symbol_tree self.now.symbols.now) cell)) }
    {
        match self.place(cell) {
            None => Ok(None),
            Some(place) => match place {
                Place::Block(block, offset) => tracked_at(self.caller, block, *offset),
                Place::Local(..) | Place::Dummy(_) | Place::Constant(_) => Ok(None),
            },
        }
    }

    /// The analysed scalar of the caller at the storage unit of a symbol of the callee: the one that the actual of a dummy names, or that
    /// begins at the unit of a variable of a common block. None where there is none, and for locals and constants.
    pub fn cell(&self, cell: u32) -> Result<Option<u32>, Memory>
        ensures { IfOk result (λ found. found ≡ cell_at_is (call_tree self.now) (place_at (map symbol_tree self.now.symbols.now) cell)) }
    {
        match self.place(cell) {
            None => Ok(None),
            Some(place) => match place {
                Place::Dummy(dummy) => Ok(self.actual_cell(*dummy)),
                Place::Block(block, offset) => tracked_at(self.caller, block, *offset),
                Place::Local(..) | Place::Constant(_) => Ok(None),
            },
        }
    }

    /// The tracked cell of the caller whose exit is that of a cell of the callee; `passed_by_reference`: the caller's cells that are passed to earlier dummies. A
    /// cell that is passed to several dummies has the exit of the first of them.
    fn exit(&self, passed_by_reference: &[u32], cell: u32) -> Result<Option<u32>, Memory>
        ensures { IfOk result (λ found. found ≡ exit_of_is (call_tree self.now) passed_by_reference.now (place_at (map symbol_tree self.now.symbols.now) cell)) }
    {
        match self.place(cell) {
            None => Ok(None),
            Some(place) => match place {
                Place::Dummy(dummy) => Ok(unless_among(
                    passed_by_reference,
                    self.actual_cell(*dummy),
                )),
                Place::Block(block, offset) => tracked_at(self.caller, block, *offset),
                Place::Local(..) | Place::Constant(_) => Ok(None),
            },
        }
    }

    /// The caller's variable for a variable of the callee. `Cell` of a variable of a common block and `Exit` of that or of a dummy become
    /// those of the caller's analysed scalar at the same unit, where there is one; all others become `Aux(aux)`. `passed_by_reference`: the caller's scalars
    /// that are actuals of earlier dummies, whose exits they keep.
    pub fn in_caller(&self, aux: u32, passed_by_reference: &[u32], v: Var) -> Result<Var, Memory>
        ensures { IfOk result (λ w. w ≡ in_caller_is (call_tree self.now) aux passed_by_reference.now v) }
    {
        match v {
            Var::Cell(cell) => Ok(cell_or_aux(aux, self.block_cell(cell)?)),
            Var::Exit(cell) => Ok(exit_or_aux(aux, self.exit(passed_by_reference, cell)?)),
            Var::Phi(_) | Var::Aux(_) => Ok(Var::Aux(aux)),
        }
    }

    /// The analysed scalar of the caller that is the actual of the dummy whose `Exit` a variable is; None for other variables and other
    /// actuals.
    pub fn cell_passed_by(&self, v: Var) -> Option<u32>
        ensures { one_cell result ≡ cell_passed_by_is (call_tree self.now) v }
    {
        match v {
            Var::Exit(cell) => self.dummy_cell(cell),
            Var::Cell(_) | Var::Phi(_) | Var::Aux(_) => None,
        }
    }

    /// The affine form of the actual of a symbol of the callee: none, unless the symbol is a dummy and its actual has one.
    fn form(&self, alloc: Global, cell: u32) -> Result<Option<Affine>, Memory>
        ensures defined { IfOk result (λ f. f ≡ form_at_is (call_tree self.now) (place_at (map symbol_tree self.now.symbols.now) cell)) }
        ensures small { IfOk result (λ f. IfSome f IsSmallForm) }
    {
        match self.place(cell) {
            None => Ok(None),
            Some(place) => match place {
                Place::Dummy(dummy) => {
                    form_in(alloc, self.caller, actual_of(self.actuals, *dummy))
                }
                Place::Local(..) | Place::Block(..) | Place::Constant(_) => Ok(None),
            },
        }
    }

    /// The row that says that a dummy, where the callee is entered, equals the affine expression of its actual. `v` is `Cell` of the dummy,
    /// which the row names as `Aux(aux)`. None where `v` is no such variable, or the actual has no affine expression.
    pub fn row(&self, alloc: Global, aux: u32, v: Var) -> Result<Option<Row>, Memory>
        ensures defined { IfOk result (λ r. maybe_row r ≡ row_of_is (call_tree self.now) aux v) }
        ensures fits { IfOk result (λ r. IfSome r IsGiven) }
    {
        match v {
            Var::Cell(cell) => {
                let form = self.form(alloc, cell)?;
                form_row(alloc, Var::Aux(aux), &form)
            }
            Var::Exit(_) | Var::Phi(_) | Var::Aux(_) => Ok(None),
        }
    }
}
