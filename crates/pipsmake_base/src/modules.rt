//! The modules of a database as those of a base.
ghost use Rattle.std.specs.Prelude.{◌≡◌, ◌≤◌, length, map, IfOk};
ghost use Rattle.base_text.specs.Grammar.{HasBytes};
ghost use Rattle.pipsmake_db.specs.base_values.Naming.{AreBytes};
ghost use Rattle.pipsmake_db.specs.session_texts.Modules.{text_record};
ghost use Rattle.pipsmake_base.specs.Saving.{module_of, AreShort, HaveBytes};

use base_text::BaseModule;
use fx_lists::{List, Text};
use pipsmake_db::session_texts::ModuleText;
use std::alloc::{AllocError as Memory, Global};

/// A copy.
fn copied(alloc: Global, text: &Text) -> Result<Text, Memory>
    ensures same { IfOk result (λ copy. copy ≡ text.now) }
    ensures bytes { AreBytes text.now }
{
    let bytes = text.as_slice();
    Text::from_bytes(alloc, bytes)
}

/// A module as one of a base. Err also where its text has more than 16,777,216 bytes.
fn module_of(alloc: Global, held: &ModuleText) -> Result<BaseModule, Memory>
    ensures is { IfOk result (λ m. m ≡ module_of (text_record held.now)) }
    ensures short { IfOk result (λ m. length m.text ≤ 16777216) }
    ensures bytes { IfOk result HasBytes }
{
    if held.text.len() > 16777216 {
        return Err(Memory);
    }
    let name = copied(alloc, &held.name)?;
    let text = copied(alloc, &held.text)?;
    Ok(BaseModule { name, text })
}

/// Modules as those of a base. Err also where a text has more than 16,777,216 bytes.
pub(crate) fn modules_of(alloc: Global, texts: &[ModuleText]) -> Result<List<BaseModule>, Memory>
    ensures are { IfOk result (λ ms. ms ≡ map (λ t. module_of (text_record t)) texts.now) }
    ensures short { IfOk result AreShort }
    ensures bytes { IfOk result HaveBytes }
{
    let mut modules = List::new(alloc);
    let mut rest = texts;
    while let [held, more @ ..] = rest {
        let module = module_of(alloc, held)?;
        modules.push(module)?;
        rest = more;
    }
    Ok(modules)
}
