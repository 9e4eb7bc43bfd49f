//! Which statement ends a module, and the names with bounds of one.
ghost use Rattle.std.specs.Prelude.{◌≡◌, ◌++◌, OnOk, IfOk, map};
ghost use Rattle.f77_statements.specs.Phrases.{phrase_tree};
ghost use Rattle.f77_parser.specs.Functions.{bounded_names};
ghost use Rattle.f77_parser.specs.Statements.{statement_tree};
ghost use Rattle.f77_parser.specs.Ends.{decls_by, decls_to_end, ends_module};

use crate::functions::add_bounded;
use crate::names::NameSet;
use crate::statement::Statement;
use f77_statements::Phrase;
use std::alloc::{AllocError as Memory, Global};

pub fn ends_module(phrase: &Phrase) -> bool
    ensures { result ≡ ends_module (phrase_tree phrase.now) }
{
    match phrase {
        Phrase::End => true,
        Phrase::Program(_)
        | Phrase::Subroutine(..)
        | Phrase::Function(..)
        | Phrase::Decl(_)
        | Phrase::Simple(_)
        | Phrase::LogicalIf(..)
        | Phrase::BlockIf(_)
        | Phrase::ElseIf(_)
        | Phrase::Else
        | Phrase::EndIf
        | Phrase::Do(_)
        | Phrase::While(..)
        | Phrase::EndDo => false,
    }
}

/// Adds the names of which a specification statement writes bounds.
fn add_bounded_of(names: &mut NameSet, phrase: &Phrase) -> Result<(), Memory>
    ensures { OnOk result (names.new ≡ names.old ++ bounded_names (decls_by (phrase_tree phrase.now))) }
{
    match phrase {
        Phrase::Decl(decl) => add_bounded(names, decl),
        Phrase::Program(_)
        | Phrase::Subroutine(..)
        | Phrase::Function(..)
        | Phrase::Simple(_)
        | Phrase::LogicalIf(..)
        | Phrase::BlockIf(_)
        | Phrase::ElseIf(_)
        | Phrase::Else
        | Phrase::EndIf
        | Phrase::Do(_)
        | Phrase::While(..)
        | Phrase::EndDo
        | Phrase::End => Ok(()),
    }
}

/// The names of which these statements write bounds, up to an END.
pub fn bounded_to_end(alloc: Global, statements: &[Statement]) -> Result<NameSet, Memory>
    ensures { IfOk result (λ names. names ≡ bounded_names (decls_to_end (map statement_tree statements.now))) }
{
    let mut names = NameSet::new(alloc);
    for statement in statements {
        if ends_module(&statement.phrase) {
            return Ok(names);
        }
        add_bounded_of(&mut names, &statement.phrase)?;
    }
    Ok(names)
}
