//! One program, run over a store and sinks in memory.
use fx_base::{MemSink, MemStore, Words};
use fx_lists::{List, Text};
use pips_top::run;
use std::alloc::{AllocError as Memory, Global};

/// The bytes that the sinks can take.
const ROOM: usize = 1_000_000;

fn words_of(alloc: Global, words: &str) -> Result<Words, Memory> {
    let mut list = List::new(alloc);
    for word in words.split_ascii_whitespace() {
        list.push(Text::from_bytes(alloc, word.as_bytes())?)?;
    }
    Ok(list)
}

fn sink(alloc: Global) -> Result<MemSink, Memory> {
    let mut sink = MemSink::new(alloc, ROOM, List::new(alloc));
    sink.room(ROOM)?;
    Ok(sink)
}

fn text_of(bytes: &[u8]) -> &str {
    match str::from_utf8(bytes) {
        Ok(text) => text,
        Err(_) => "no text\n",
    }
}

/// How the run ended with the program held as `p.f`, and what it wrote on out and on err.
pub fn answer(alloc: Global, words: &[u8], program: &Text) -> Result<String, Memory> {
    let mut files = MemStore::new(alloc, List::new(alloc));
    files.hold(&Text::from_bytes(alloc, b"p.f")?, program)?;
    let mut out = sink(alloc)?;
    let mut err = sink(alloc)?;
    let words = words_of(alloc, text_of(words))?;
    let status = run(alloc, &words, &mut files, &mut out, &mut err);
    let written = text_of(out.bytes());
    let told = text_of(err.bytes());
    format!(in alloc; "== {status:?}\n{written}{told}")
}
