//! One run, over a store and sinks of which some calls fail.
use crate::held::{File, number_of};
use fx_base::{Fetched, MemSink, MemStore, Role, Store, Words};
use fx_lists::{List, Text};
use pips_top::{Status, run};
use std::alloc::{AllocError as Memory, Global};

/// The bytes that the sinks can take.
const ROOM: usize = 2_000_000;

/// The bytes that the store gives of a base.
const LONGEST: u64 = 20_000_000;

const BASE: &[u8] = b"b.json";

/// What stands between the blanks of a line; two blanks have an empty word between them.
fn words_of(alloc: Global, line: &[u8]) -> Result<Words, Memory> {
    let mut words = List::new(alloc);
    let mut word = Text::new(alloc);
    for byte in line {
        if *byte == b' ' {
            words.push(word)?;
            word = Text::new(alloc);
        } else {
            word.push(*byte)?;
        }
    }
    words.push(word)?;
    Ok(words)
}

fn copied(alloc: Global, words: &[Text]) -> Result<Words, Memory> {
    let mut copy = List::new(alloc);
    for word in words {
        copy.push(word.clone()?)?;
    }
    Ok(copy)
}

/// The call that a word names, if it names one.
fn call_of(alloc: Global, word: &Text) -> Result<List<u64>, Memory> {
    let mut calls = List::new(alloc);
    if let Some(call) = number_of(word.as_slice()) {
        calls.push(call)?;
    }
    Ok(calls)
}

/// A store that holds these files.
fn store(alloc: Global, files: &[File], failing: &Text) -> Result<MemStore, Memory> {
    let mut store = MemStore::new(alloc, call_of(alloc, failing)?);
    for (name, text) in files {
        store.hold(name, text)?;
    }
    Ok(store)
}

/// A sink that takes at most so many bytes in a call.
fn sink(alloc: Global, piece: &Text, failing: &Text) -> Result<MemSink, Memory> {
    let piece = match number_of(piece.as_slice()) {
        Some(piece) if 0 < piece && piece < 1_000_000 => piece as usize,
        _ => ROOM,
    };
    let mut sink = MemSink::new(alloc, piece, call_of(alloc, failing)?);
    sink.room(ROOM)?;
    Ok(sink)
}

/// What the store holds as the base; where that call was to fail it is made again.
fn base_in(alloc: Global, files: &mut MemStore) -> Result<Option<Text>, Memory> {
    let name = Text::from_bytes(alloc, BASE)?;
    let mut found = files.fetch(alloc, Role::Base, &name, LONGEST);
    if matches!(found, Fetched::Failed) {
        found = files.fetch(alloc, Role::Base, &name, LONGEST);
    }
    match found {
        Fetched::Got(text) => Ok(Some(text)),
        Fetched::Memory => Err(Memory),
        Fetched::Absent | Fetched::TooLong | Fetched::Failed => Ok(None),
    }
}

/// Whether a base is what was held before.
fn is_as_before(files: &[File], base: &Text) -> bool {
    for (name, text) in files {
        if name.as_slice() == BASE {
            return text.as_slice() == base.as_slice();
        }
    }
    false
}

/// How a run ended, and what it wrote.
fn told(alloc: Global, status: Status, out: &[u8], err: &[u8]) -> Result<Text, Memory> {
    let head = format!(in alloc; "== {status:?}\n")?;
    let mut text = Text::from_bytes(alloc, head.as_bytes())?;
    text.append(out)?;
    text.append(b"\n== err\n")?;
    text.append(err)?;
    Ok(text)
}

/// Adds what is said of the base.
fn add_base(text: &mut Text, before: &[File], base: &Option<Text>) -> Result<(), Memory> {
    let Some(base) = base else {
        return text.append(b"\n== no base\n");
    };
    if is_as_before(before, base) {
        return text.append(b"\n== base as before\n");
    }
    text.append(b"\n== base\n")?;
    text.append(base.as_slice())?;
    text.push(b'\n')
}

/// How a run ended, what it wrote and what it kept: the line has the calls that fail and the words.
pub fn answer(alloc: Global, line: &[u8], held: &[File]) -> Result<Text, Memory> {
    let line = words_of(alloc, line)?;
    let [failing, fails_out, piece, fails_err, words @ ..] = line.as_slice() else {
        return Text::from_bytes(alloc, b"== no run\n");
    };
    let mut files = store(alloc, held, failing)?;
    let mut out = sink(alloc, piece, fails_out)?;
    let mut err = sink(alloc, piece, fails_err)?;
    let words = copied(alloc, words)?;
    let status = run(alloc, &words, &mut files, &mut out, &mut err);
    let mut text = told(alloc, status, out.bytes(), err.bytes())?;
    add_base(&mut text, held, &base_in(alloc, &mut files)?)?;
    Ok(text)
}
