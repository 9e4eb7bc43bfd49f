//! How far a reader is in a compact text, and the plain values that it takes. What is taken is compared with the text afterwards: nothing is promised here.
ghost use Rattle.std.specs.Prelude.{◌<◌, IfSome, length};

use base_json::DecodeError;
use fx_lists::Text;
use std::alloc::Global;

/// What is left of a text.
#[derive(Drop)]
pub struct Cursor<'t> {
    rest: &'t [u8],
}

/// The value of a digit; None for another byte.
fn digit(byte: u8) -> Option<u8> {
    match byte {
        b'0'..=b'9' => Some(byte - b'0'),
        _ => None,
    }
}

/// Where the first such byte is.
pub(crate) fn place_of(text: &[u8], byte: u8) -> Option<usize>
    ensures { IfSome result (λ at. at < length text.now) }
{
    text.iter().position(|b| *b == byte)
}

/// The byte that a backslash and this letter stand for; None for escapes that are left to another reader.
fn escaped(letter: u8) -> Option<u8> {
    match letter {
        b'n' => Some(b'\n'),
        b't' => Some(b'\t'),
        b'r' => Some(b'\r'),
        b'"' | b'\\' => Some(letter),
        _ => None,
    }
}

/// The byte that a character of two bytes stands for; None where they are no such character.
fn latin(first: u8, second: u8) -> Option<u8> {
    match second {
        0x80..=0xbf => match first {
            0xc2 => Some(second),
            0xc3 => Some(second + 64),
            _ => None,
        },
        _ => None,
    }
}

impl<'t> Cursor<'t> {
    /// At the front of a text.
    pub fn new(text: &'t [u8]) -> Cursor<'t> {
        Cursor { rest: text }
    }

    /// Whether nothing is left.
    pub fn is_at_end(&self) -> bool {
        self.rest.is_empty()
    }

    /// Whether the rest begins with a byte, which is then taken.
    pub fn has(&mut self, byte: u8) -> bool {
        let rest = self.rest;
        match rest {
            [first, more @ ..] => {
                if *first == byte {
                    self.rest = more;
                    true
                } else {
                    false
                }
            }
            [] => false,
        }
    }

    /// Takes the next byte. Err(Shape) at the end.
    fn byte(&mut self) -> Result<u8, DecodeError> {
        let rest = self.rest;
        match rest {
            [first, more @ ..] => {
                self.rest = more;
                Ok(*first)
            }
            [] => Err(DecodeError::Shape),
        }
    }

    /// Takes a word. Err(Shape) where the rest begins otherwise.
    pub fn word(&mut self, word: &[u8]) -> Result<(), DecodeError> {
        let rest = self.rest;
        match rest.strip_prefix(word) {
            None => Err(DecodeError::Shape),
            Some(more) => {
                self.rest = more;
                Ok(())
            }
        }
    }

    /// Whether the rest begins with a word, which is then taken.
    pub fn has_word(&mut self, word: &[u8]) -> bool {
        let rest = self.rest;
        match rest.strip_prefix(word) {
            None => false,
            Some(more) => {
                self.rest = more;
                true
            }
        }
    }

    /// Takes a digit. None where another byte comes.
    fn digit(&mut self) -> Option<u8> {
        let rest = self.rest;
        match rest {
            [first, more @ ..] => match digit(*first) {
                None => None,
                Some(value) => {
                    self.rest = more;
                    Some(value)
                }
            },
            [] => None,
        }
    }

    /// Takes a number of 64 bits. Err(Shape) where there is none.
    pub fn number(&mut self) -> Result<u64, DecodeError> {
        let Some(first) = self.digit() else {
            return Err(DecodeError::Shape);
        };
        let mut number = u64::from(first);
        for _ in 0..u64::MAX {
            match self.digit() {
                None => return Ok(number),
                Some(value) => number = next_number(number, value)?,
            }
        }
        Err(DecodeError::Shape)
    }

    /// Takes a number of 32 bits. Err(Shape) where there is none.
    pub fn short_number(&mut self) -> Result<u32, DecodeError> {
        let number = self.number()?;
        match u32::try_from(number) {
            Ok(number) => Ok(number),
            Err(_) => Err(DecodeError::Shape),
        }
    }

    /// Takes a whole number. Err(Shape) where there is none.
    pub fn whole(&mut self) -> Result<i128, DecodeError> {
        if self.has(b'-') {
            let number = self.number()?;
            Ok(-(number as i128))
        } else {
            let number = self.number()?;
            Ok(number as i128)
        }
    }

    /// Takes `true` or `false`. Err(Shape) where something else comes.
    pub fn flag(&mut self) -> Result<bool, DecodeError> {
        if self.has_word(b"true") {
            return Ok(true);
        }
        self.word(b"false")?;
        Ok(false)
    }

    /// Takes a name in quotes, of bytes that need no escape. Err(Shape) where there is none.
    pub fn name(&mut self, alloc: Global) -> Result<Text, DecodeError> {
        self.word(b"\"")?;
        let rest = self.rest;
        let Some(end) = place_of(rest, b'"') else {
            return Err(DecodeError::Shape);
        };
        let name = Text::from_bytes(alloc, &rest[..end])?;
        self.rest = &rest[end + 1..];
        Ok(name)
    }

    /// Takes the byte that an escape or a character of two bytes stands for, behind its first byte.
    fn long_byte(&mut self, first: u8) -> Result<u8, DecodeError> {
        let second = self.byte()?;
        let found = if first == b'\\' {
            escaped(second)
        } else {
            latin(first, second)
        };
        match found {
            None => Err(DecodeError::Shape),
            Some(byte) => Ok(byte),
        }
    }

    /// Takes a text in quotes, each of whose characters is a byte. Err(Shape) where there is none, or one that is left to another reader.
    pub fn text(&mut self, alloc: Global) -> Result<Text, DecodeError> {
        self.word(b"\"")?;
        let mut text = Text::new(alloc);
        for _ in 0..u64::MAX {
            let byte = self.byte()?;
            if byte == b'"' {
                return Ok(text);
            }
            if byte == b'\\' || byte >= 0x80 {
                let long = self.long_byte(byte)?;
                text.push(long)?;
            } else {
                text.push(byte)?;
            }
        }
        Err(DecodeError::Shape)
    }
}

/// A number with one digit more. Err(Shape) where it does not fit.
fn next_number(number: u64, digit: u8) -> Result<u64, DecodeError> {
    let Some(tens) = number.checked_mul(10) else {
        return Err(DecodeError::Shape);
    };
    match tens.checked_add(u64::from(digit)) {
        None => Err(DecodeError::Shape),
        Some(next) => Ok(next),
    }
}
