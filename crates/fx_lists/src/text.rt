//! A text of bytes, over a `Vec`.
ghost use Rattle.std.specs.Prelude.{◌≡◌, [], ◌∷◌, ◌++◌, length, ◌↔◌, IsTrue, IfOk, OnOk, OnErr};

use std::alloc::{AllocError, Global};
use std::marker::Model;

/// A string of bytes, over a `Vec`, which contracts see as the list of their numbers. It need not be UTF-8.
#[derive(Debug, Drop)]
pub struct Text {
    bytes: Vec<u8>,
}

impl Model for Text {
    ghost use Rattle.std.specs.Prelude.{List, ℕ};

    ghost Value = { List ℕ };

    ghost view = { λ t. t.bytes.items };
}

impl Text {
    /// The empty text. Takes no memory.
    pub fn new(alloc: Global) -> Text
        ensures { result ≡ [] }
    {
        Text {
            bytes: Vec::new(alloc),
        }
    }

    /// The text of the bytes of a `Vec`, in order. Takes no memory.
    pub fn from_vec(bytes: Vec<u8>) -> Text
        ensures { result ≡ bytes.items }
    {
        Text { bytes }
    }

    /// The `Vec` of the bytes, in order. Takes no memory.
    pub fn into_vec(self) -> Vec<u8>
        ensures { result.items ≡ self }
    {
        let Text { bytes } = self;
        bytes
    }

    /// A copy of the bytes of a slice.
    pub fn from_bytes(alloc: Global, bytes: &[u8]) -> Result<Text, AllocError>
        ensures { IfOk result (λ t. t ≡ bytes.now) }
    {
        Ok(Text {
            bytes: Vec::from_slice(alloc, bytes)?,
        })
    }

    /// The bytes in order, as a slice.
    pub fn as_slice(&self) -> &[u8]
        ensures { result.now ≡ self.now }
    {
        self.bytes.as_slice()
    }

    /// The number of bytes.
    pub fn len(&self) -> usize
        ensures { result ≡ length self.now }
    {
        self.bytes.len()
    }

    /// Whether there are no bytes.
    pub fn is_empty(&self) -> bool
        ensures { IsTrue result ↔ (self.now ≡ []) }
    {
        self.bytes.is_empty()
    }

    /// Adds a byte at the end. On Err the text has the bytes that it had.
    pub fn push(&mut self, byte: u8) -> Result<(), AllocError>
        ensures ok { OnOk result (self.new ≡ self.old ++ byte ∷ []) }
        ensures err { OnErr result (self.new ≡ self.old) }
    {
        self.bytes.push(byte)?;
        Ok(())
    }

    /// Adds bytes at the end, in order. On Err the text has the bytes that it had.
    pub fn append(&mut self, more: &[u8]) -> Result<(), AllocError>
        ensures ok { OnOk result (self.new ≡ self.old ++ more.now) }
        ensures err { OnErr result (self.new ≡ self.old) }
    {
        self.bytes.extend_from_slice(more)
    }
}

impl PartialEq for Text {
    ghost use Rattle.std.specs.Str.{bytes_eq};
    ghost use Rattle.std.proofs.Common.{rules};
    ghost use Rattle.std.specs.Cmp.Rules.{comparing};

    ghost eq = { bytes_eq };

    ghost laws = { Prim.search (comparing, rules) };

    fn eq(&self, other: &Text) -> bool {
        self.bytes == other.bytes
    }
}

impl Eq for Text {
    ghost use Rattle.std.proofs.Common.{rules};
    ghost use Rattle.std.specs.Cmp.Rules.{comparing};

    ghost laws = { Prim.search (comparing, rules) };
}

impl Clone for Text {
    ghost use Rattle.std.specs.Prelude.{◌≡◌};

    ghost is_clone = { λ t u. u ≡ t };

    fn clone(&self) -> Result<Text, AllocError> {
        Ok(Text {
            bytes: self.bytes.clone()?,
        })
    }
}
