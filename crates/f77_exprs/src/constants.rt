//! Character constants (ANSI X3.9-1978 §4.8).
ghost use Rattle.std.specs.Prelude.{◌≡◌, ℕ};
ghost use Rattle.f77_exprs.specs.State.{state, Gives, GivesExpr};
ghost use Rattle.f77_exprs.specs.Lexical.{constant};
ghost use Rattle.f77_exprs.specs.Grammar.{constant_at};

use crate::parse_error::Reading;
use crate::{Cursor, ParseError};
use f77_ast::Expr;
use fx_lists::Text;
use std::alloc::Global;

/// The text of a character constant from after its first apostrophe, two apostrophes inside being one, and what follows its last.
/// Err is `Syntax` where the constant is not closed.
#[tactic(auto, using(crate::proofs::ConstantLemmas::constant_steps))]
pub fn constant(alloc: Global, text: &[u8]) -> Result<(Text, &[u8]), ParseError>
    ensures { Gives (λ x. (x.0, x.1.now)) result (constant text.now) }
{
    let mut found = Text::new(alloc);
    let mut rest = text;
    while let [c, more @ ..] = rest {
        if *c == b'\'' {
            match more {
                [] => return Ok((found, more)),
                [d, others @ ..] => {
                    if *d != b'\'' {
                        return Ok((found, more));
                    }
                    rest = others;
                }
            }
        } else {
            rest = more;
        }
        found.push(*c)?;
    }
    Err(ParseError::Syntax)
}

/// A character constant as an expression, from after its first apostrophe. Err is `Syntax` where it is not closed.
#[tactic(auto, using(f77_ast::proofs::Plainly::expr_cases), unfolding(crate::specs::Grammar::constant_at))]
pub fn constant_at(alloc: Global, at: Cursor<'_>) -> Reading<'_, Expr>
    ensures { GivesExpr result (constant_at (state at.entry)) }
{
    let (found, rest) = constant(alloc, at.rest)?;
    let notes = at.notes;
    Ok((Expr::Chars(found), Cursor { rest, notes }))
}
