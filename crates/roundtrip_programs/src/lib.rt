//! What is written of a program is read as the same program.
#![tactic(auto)]

mod card_laws;
mod depth;
mod jumps;
mod laws;
mod modules;
mod order;
mod piece_laws;
mod statement_laws;
mod text_laws;
mod written_laws;

pub use card_laws::{bodies_are_short, lines_read_back};
pub use depth::{cards_flat, not_deeper};
pub use jumps::jumps_again;
pub use laws::{
    graphs_ignore_places, lines_are_passed_over, names_are_shown, programs_read_back,
    tables_ignore_places,
};
pub use modules::{
    blocks_again, built_again, built_nested, built_well, cards_read, read_alone, read_next,
    written_by_cards,
};
pub use order::order_again;
pub use piece_laws::{
    faults_ignore_places, joined_are_read, joined_make_the_program, pieces_are_modules,
    pieces_make_the_program,
};
pub use statement_laws::{
    expressions_read_back, lines_are_written, statements_fit, statements_read_back,
};
pub use text_laws::{modules_read_back, texts_read_back};
pub use written_laws::{
    joined_are_written_alike, joined_have_the_same_trees, moved_are_written_alike,
    pieces_are_written_alike, pieces_have_the_same_trees,
};
