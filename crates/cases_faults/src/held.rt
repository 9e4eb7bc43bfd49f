//! The files of a run, as standard input tells them.
use fx_lists::Text;
use std::alloc::{AllocError as Memory, Global};

/// A file: its name and its bytes.
pub type File = (Text, Text);

/// The files so far, the beginning of the next one, and the lines that were read since.
#[derive(Drop)]
pub struct Held {
    alloc: Global,
    files: Vec<File>,
    begun: Text,
    lines: Text,
}

/// Bytes without the last one.
fn without_last(bytes: &[u8]) -> &[u8] {
    match bytes {
        [] => bytes,
        [front @ .., _] => front,
    }
}

/// The number that bytes are; None where they are none.
pub fn number_of(bytes: &[u8]) -> Option<u64> {
    match str::from_utf8(bytes) {
        Ok(word) => word.parse().ok(),
        Err(_) => None,
    }
}

impl Held {
    pub fn new(alloc: Global) -> Held {
        Held {
            alloc,
            files: Vec::new(alloc),
            begun: Text::new(alloc),
            lines: Text::new(alloc),
        }
    }

    pub fn files(&self) -> &[File] {
        self.files.as_slice()
    }

    /// A line of a text.
    pub fn add(&mut self, line: &[u8]) -> Result<(), Memory> {
        self.lines.append(line)?;
        self.lines.push(b'\n')
    }

    /// The text, so many times, is added to the beginning of the next file.
    pub fn repeat(&mut self, count: &[u8]) -> Result<(), Memory> {
        for _ in 0..number_of(count).unwrap_or(1) {
            self.begun.append(without_last(self.lines.as_slice()))?;
        }
        self.lines = Text::new(self.alloc);
        Ok(())
    }

    /// A file of this name has what was begun, and the text.
    pub fn hold(&mut self, name: &[u8]) -> Result<(), Memory> {
        let mut text = self.begun.clone()?;
        text.append(without_last(self.lines.as_slice()))?;
        self.files
            .push((Text::from_bytes(self.alloc, name)?, text))?;
        self.begun = Text::new(self.alloc);
        self.lines = Text::new(self.alloc);
        Ok(())
    }
}
