//! Numbers and words as compact JSON.
ghost use Rattle.std.specs.Prelude.{◌≡◌, ◌++◌, false, OnOk, decimal};
ghost use Rattle.serde_json.specs.Data.{boolean, number};
ghost use Rattle.serde_json.specs.Find.{of_integer};
ghost use Rattle.serde_json.specs.View.{view};
ghost use Rattle.serde_json.specs.Written.{compact_text, has_float};
ghost use Rattle.base_json.specs.Written.{whole_data};

use fx_lists::Text;
use serde_json::Value;
use std::alloc::{AllocError as Memory, Global};

/// Appends a number.
pub fn put_number(alloc: Global, n: u64, out: &mut Text) -> Result<(), Memory>
    ensures { OnOk result (out.new ≡ out.old ++ decimal n) }
{
    let text = format!(in alloc; "{n}")?;
    out.append(text.as_bytes())
}

/// Appends a whole number that fits 64 bits.
#[tactic(auto, using(crate::proofs::WrittenNumbers::numbers))]
fn put_integer(alloc: Global, z: i128, out: &mut Text) -> Result<(), Memory>
    ensures { OnOk result (out.new ≡ out.old ++ compact_text (number (of_integer z))) }
{
    let text = format!(in alloc; "{z}")?;
    out.append(text.as_bytes())
}

/// Appends a whole number; null where it does not fit 64 bits.
pub fn put_whole(alloc: Global, z: i128, out: &mut Text) -> Result<(), Memory>
    ensures { OnOk result (out.new ≡ out.old ++ compact_text (whole_data z)) }
{
    if z < 0 {
        if -9223372036854775808 <= z {
            put_integer(alloc, z, out)
        } else {
            out.append(b"null")
        }
    } else if z < 18446744073709551616 {
        put_integer(alloc, z, out)
    } else {
        out.append(b"null")
    }
}

/// Appends `true` or `false`.
pub fn put_flag(flag: bool, out: &mut Text) -> Result<(), Memory>
    ensures { OnOk result (out.new ≡ out.old ++ compact_text (boolean flag)) }
{
    match flag {
        true => out.append(b"true"),
        false => out.append(b"false"),
    }
}

/// Appends a JSON value without floats.
pub fn put_value(alloc: Global, value: &Value, out: &mut Text) -> Result<(), Memory>
    requires { has_float (view value.now) ≡ false }
    ensures { OnOk result (out.new ≡ out.old ++ compact_text (view value.now)) }
{
    let bytes = value.to_vec(alloc)?;
    out.append(bytes.as_slice())
}
