//! Whether what a reader has left is some bytes.
ghost use Rattle.std.specs.Prelude.{◌≡◌, ◌≢◌, ◌↔◌, ℕ, List, ◌++◌, IfOk, IfSome, IsTrue, MatchOption};

use std::io;
use std::io::{Error, ErrorKind, Read};

/// The bytes behind a piece that they begin with. None where they begin with something else.
fn behind<'a>(bytes: &'a [u8], piece: &[u8]) -> Option<&'a [u8]>
    ensures { MatchOption result ((more : List ℕ) → bytes.now ≢ piece.now ++ more) (λ more. bytes.now ≡ piece.now ++ more.now) }
{
    bytes.strip_prefix(piece)
}

/// Whether what is left to read is just these bytes. Reads no further than the first piece that differs.
pub fn reads_as<I: Read>(input: &mut I, bytes: &[u8]) -> io::Result<bool>
    ensures exact { IfOk result (λ same. IfSome (I.remaining input.old) (λ left. IsTrue same ↔ (left ≡ bytes.now))) }
{
    let mut piece = [0u8; 4096];
    let mut rest = bytes;
    for _ in 0..u64::MAX {
        let n = input.read(&mut piece)?;
        if n == 0 {
            return Ok(rest.is_empty());
        }
        match behind(rest, &piece[..n]) {
            Some(more) => rest = more,
            None => return Ok(false),
        }
    }
    Err(Error::from(ErrorKind::InvalidData))
}
