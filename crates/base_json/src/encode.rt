//! What is written as JSON, and lists of it.
ghost use Rattle.std.specs.Prelude.{◌≡◌, map, IfOk, string_bytes};
ghost use Rattle.std.specs.Str.{encode_utf8_all};
ghost use Rattle.serde_json.specs.Data.{Data};
ghost use Rattle.serde_json.specs.View.{view};
ghost use Rattle.base_json.specs.Written.{list_data, text_data};

use serde_json::Value;
use std::alloc::{AllocError as Memory, Global};

/// What is written as JSON, within a scope `S` that has the names of what is written.
pub trait Encode<S> {
    ghost data_of: { S → Self → Data };

    /// The JSON value.
    fn encode(&self, alloc: Global, scope: &S) -> Result<Value, Memory>
        ensures { IfOk result (λ v. view v ≡ data_of scope.now self.now) };
}

/// The array of the values of a list.
#[tactic(auto, using(crate::proofs::Lists::made))]
pub fn list_value<S, T: Encode<S>>(alloc: Global, scope: &S, list: &[T]) -> Result<Value, Memory>
    ensures { IfOk result (λ v. view v ≡ list_data (map (T.data_of scope.now) list.now)) }
{
    let mut values = Vec::new(alloc);
    for item in list {
        values.push(item.encode(alloc, scope)?)?;
    }
    Ok(Value::Array(values))
}

#[tactic(auto, using(crate::proofs::Lists::texts))]
/// The text in which each byte is the character of that number.
fn latin_text(alloc: Global, bytes: &[u8]) -> Result<String, Memory>
    ensures { IfOk result (λ s. string_bytes s ≡ encode_utf8_all bytes.now) }
{
    let mut text = String::new(alloc);
    for byte in bytes {
        text.push(char::from(*byte))?;
    }
    Ok(text)
}

/// A string in which each byte of the text is the character of that number.
pub fn text_value(alloc: Global, text: &[u8]) -> Result<Value, Memory>
    ensures { IfOk result (λ v. view v ≡ text_data text.now) }
{
    Ok(Value::String(latin_text(alloc, text)?))
}
