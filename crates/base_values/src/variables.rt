//! Variables as JSON.
ghost use Rattle.std.specs.Prelude.{◌≡◌, ◌++◌, IfOk};
ghost use Rattle.system_text.specs.SystemText.{name_at};
ghost use Rattle.f77_ast.specs.Index.{names_of};
ghost use Rattle.region_sets.specs.Written.{name_text};
ghost use Rattle.base_values.specs.Written.{variable_data};

use crate::scope::SymbolNames;
use base_json::{Encode, text_value};
use f77_ast::{Symbols, Variable};
use fx_lists::Text;
use serde_json::Value;
use std::alloc::{AllocError as Memory, Global};

/// Appends the name of a symbol; nothing where there is none with this number.
#[tactic(auto, using(crate::proofs::NameLaws::symbol_names))]
pub fn put_name(out: &mut Text, symbols: &Symbols, number: u32) -> Result<(), Memory>
    ensures { IfOk result (λ _. out.new ≡ out.old ++ name_at (names_of symbols.now) number) }
{
    match symbols.symbol(number) {
        None => Ok(()),
        Some(symbol) => out.append(symbol.name.as_slice()),
    }
}

/// Appends what is written of a variable: a symbol by its name, a block as `/B/`, a saved local of another module as `S:X`.
#[tactic(auto, using(std::proofs::Common::append_assoc))]
pub fn put_variable(out: &mut Text, symbols: &Symbols, v: &Variable) -> Result<(), Memory>
    ensures { IfOk result (λ _. out.new ≡ out.old ++ name_text (names_of symbols.now) v.now) }
{
    match v {
        Variable::Own(n) => put_name(out, symbols, *n),
        Variable::Block(block) => {
            out.append(b"/")?;
            out.append(block.as_slice())?;
            out.append(b"/")
        }
        Variable::Saved(module, local) => {
            out.append(module.as_slice())?;
            out.append(b":")?;
            out.append(local.as_slice())
        }
    }
}

impl<'a> Encode<SymbolNames<'a>> for Variable {
    ghost data_of = { λ s v. variable_data (names_of s.symbols.now) v };

    fn encode(&self, alloc: Global, scope: &SymbolNames<'a>) -> Result<Value, Memory> {
        let mut text = Text::new(alloc);
        put_variable(&mut text, scope.symbols, self)?;
        text_value(alloc, text.as_slice())
    }
}
