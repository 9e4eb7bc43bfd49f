//! One script, over a database without texts and results.
use fx_lists::Text;
use pipsmake_db::result_lines::Show;
use pipsmake_db::{Db, answer_script};
use std::alloc::{AllocError as Memory, Global};

/// The bytes that a script may have.
const LIMIT: usize = 16_777_216;

/// What a word shows.
fn show_of(word: &[u8]) -> Show {
    match word {
        b"bare" => Show::Bare,
        b"why" => Show::Why,
        _ => Show::All,
    }
}

/// Bytes that are UTF-8.
pub fn text_of(bytes: &[u8]) -> &str {
    match str::from_utf8(bytes) {
        Ok(text) => text,
        Err(_) => "no text\n",
    }
}

/// The answer to a script.
pub fn answer(alloc: Global, word: &[u8], script: &Text) -> Result<Text, Memory> {
    if script.len() > LIMIT {
        return Err(Memory);
    }
    let mut db = Db::new(alloc);
    answer_script(alloc, &mut db, show_of(word), script)
}
