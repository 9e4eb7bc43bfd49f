//! The part that a statement has in its module.
ghost use Rattle.std.specs.Prelude.{◌≡◌};
ghost use Rattle.f77_ast.specs.PlainStmt.{what_tree};
ghost use Rattle.f77_statements.specs.Phrases.{phrase_tree};
ghost use Rattle.f77_parser.specs.Roles.{action_of, role_of};

use f77_ast::What;
use f77_statements::Phrase;
use f77_structure::{Action, Role};

/// What an executable statement does that opens, divides or ends no block, as far as structure needs it.
#[tactic(auto, using(f77_ast::proofs::PlainlyStmt::what_cases))]
pub fn action_of(what: &What) -> Action
    ensures { result ≡ action_of (what_tree what.now) }
{
    match what {
        What::Goto(label) => Action::Goto(*label),
        What::Return => Action::Return,
        What::Stop(_) => Action::Stop,
        What::Assign(..)
        | What::If(..)
        | What::LogicalIf(..)
        | What::Do(_)
        | What::Call(..)
        | What::Continue
        | What::Print(_)
        | What::Read(_) => Action::Other,
    }
}

/// The part that a statement has in its module.
pub fn role_of(phrase: &Phrase) -> Role
    ensures { result ≡ role_of (phrase_tree phrase.now) }
{
    match phrase {
        Phrase::Program(_) => Role::Program,
        Phrase::Subroutine(..) | Phrase::Function(..) => Role::Subroutine,
        Phrase::Decl(_) => Role::Specification,
        Phrase::Simple(what) => Role::Plain(action_of(what)),
        Phrase::LogicalIf(_, what) => Role::LogicalIf(action_of(what)),
        Phrase::BlockIf(_) => Role::BlockIf,
        Phrase::ElseIf(_) => Role::ElseIf,
        Phrase::Else => Role::Else,
        Phrase::EndIf => Role::EndIf,
        Phrase::Do(head) => Role::Do(head.label),
        Phrase::While(last, _) => Role::Do(*last),
        Phrase::EndDo => Role::EndDo,
        Phrase::End => Role::End,
    }
}
