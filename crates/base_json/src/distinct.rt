//! Whether names are there once.
ghost use Rattle.std.specs.Prelude.{◌≡◌, [], IfOk};
ghost use Rattle.base_json.specs.Distinct.{are_new};

use f77_ast::NameIndex;
use fx_lists::Text;
use std::alloc::{AllocError as Memory, Global};

/// Whether none of some names comes twice. Linear in their lengths.
pub fn are_distinct(alloc: Global, names: &[Text]) -> Result<bool, Memory>
    ensures { IfOk result (λ b. b ≡ are_new [] names.now) }
{
    let mut index = NameIndex::new(alloc);
    let mut seen = Vec::new(alloc);
    for name in names {
        if index.number(name).is_some() {
            return Ok(false);
        }
        index.push(Vec::from_slice(alloc, name.as_slice())?, &mut seen, true)?;
    }
    Ok(true)
}
