//! Lists of what a rule reads, in the order of the text. Err is `Syntax` where an item or a word that has to follow is not there.
ghost use Rattle.std.specs.Prelude.{◌≡◌, ℕ, [], length, map, option_map, codes};
ghost use Rattle.f77_exprs.specs.State.{state, parse_word, GivesAs};
ghost use Rattle.f77_exprs.specs.Grammar.{more_by, items_by, items, comma};
ghost use Rattle.f77_statements.specs.Lists.{skip_comma, ending, items_left, in_parentheses, maybe_in_parentheses, maybe_after_comma};

use f77_exprs::{Cursor, Reading};
use fx_lists::List;
use std::alloc::Global;

/// A rule of the grammar, as a type without values that is named by what the rule reads.
pub trait Rule {
    ghost use Rattle.f77_exprs.specs.State.{Reader};

    type Value: Drop;

    ghost Tree: { Type 0 };

    ghost tree: { Self.Value → Tree };

    ghost rule: { Reader Tree };

    /// What the rule reads at the front, and what follows it. Err is `Syntax` where the grammar does not take it.
    fn read<'a>(alloc: Global, at: Cursor<'a>) -> Reading<'a, Self::Value>
        ensures { GivesAs tree result (rule (state at.entry)) };
}

/// What separates two items of a list.
pub trait Separator {
    ghost use Rattle.f77_exprs.specs.Grammar.{Between};

    ghost between: { Between };

    /// Where the next item begins; None where the list ends.
    fn next<'a>(at: Cursor<'a>) -> Option<Cursor<'a>>
        ensures { option_map state result ≡ between (state at.entry) };
}

/// A comma.
pub enum Comma {}

impl Separator for Comma {
    ghost between = { comma };

    fn next<'a>(at: Cursor<'a>) -> Option<Cursor<'a>> {
        at.parse_word(b",")
    }
}

/// What follows a comma, which need not be there.
pub fn skip_comma(at: Cursor<'_>) -> Cursor<'_>
    ensures { state result ≡ skip_comma (state at.entry) }
{
    match at.parse_word(b",") {
        None => at,
        Some(rest) => rest,
    }
}

/// The items that were found and those that follow them, each after a separator.
#[tactic(auto, using(f77_exprs::proofs::Chains::items_steps))]
pub fn more<'a, R: Rule, S: Separator>(
    alloc: Global,
    found: List<R::Value>,
    at: Cursor<'a>,
) -> Reading<'a, List<R::Value>>
    ensures { GivesAs (map R.tree) result
        (more_by S.between R.rule (length at.entry.rest.now) (map R.tree found) (state at.entry)) }
{
    let mut found = found;
    let mut at = at;
    let mut turns = at.rest.len();
    while turns > 0 {
        match S::next(at) {
            None => return Ok((found, at)),
            Some(rest) => {
                let (item, rest) = R::read(alloc, rest)?;
                found.push(item)?;
                at = rest;
                turns -= 1;
            }
        }
    }
    Ok((found, at))
}

/// One or more items with a separator between them.
#[tactic(auto, unfolding(f77_exprs::specs::Grammar::items_by))]
pub fn items_by<'a, R: Rule, S: Separator>(
    alloc: Global,
    at: Cursor<'a>,
) -> Reading<'a, List<R::Value>>
    ensures { GivesAs (map R.tree) result (items_by S.between R.rule (state at.entry)) }
{
    let (first, at) = R::read(alloc, at)?;
    let mut found = List::new(alloc);
    found.push(first)?;
    more::<R, S>(alloc, found, at)
}

/// One or more items with commas between them.
pub fn items<'a, R: Rule>(alloc: Global, at: Cursor<'a>) -> Reading<'a, List<R::Value>>
    ensures { GivesAs (map R.tree) result (items R.rule (state at.entry)) }
{
    items_by::<R, Comma>(alloc, at)
}

/// One or more items with commas between them, and a word after the last.
#[tactic(auto, unfolding(crate::specs::Lists::ending))]
pub fn items_before<'a, R: Rule>(
    alloc: Global,
    word: &[u8],
    at: Cursor<'a>,
) -> Reading<'a, List<R::Value>>
    ensures { GivesAs (map R.tree) result (ending word.now (items R.rule) (state at.entry)) }
{
    let (found, at) = items::<R>(alloc, at)?;
    let at = at.need_word(word)?;
    Ok((found, at))
}

/// No items at the end of the statement, else one or more with commas between them.
#[tactic(auto, unfolding(crate::specs::Lists::items_left))]
pub fn items_left<'a, R: Rule>(alloc: Global, at: Cursor<'a>) -> Reading<'a, List<R::Value>>
    ensures { GivesAs (map R.tree) result (items_left R.rule (state at.entry)) }
{
    match at.rest {
        [] => Ok((List::new(alloc), at)),
        [_, ..] => items::<R>(alloc, at),
    }
}

/// Items behind their opening parenthesis, of which there may be none.
#[tactic(auto, unfolding(crate::specs::Lists::in_parentheses))]
pub fn in_parentheses<'a, R: Rule>(alloc: Global, at: Cursor<'a>) -> Reading<'a, List<R::Value>>
    ensures { GivesAs (map R.tree) result (in_parentheses R.rule (state at.entry)) }
{
    match at.parse_word(b")") {
        Some(rest) => Ok((List::new(alloc), rest)),
        None => items_before::<R>(alloc, b")", at),
    }
}

/// Items with commas between them in parentheses; none where the parentheses are empty or not there.
#[tactic(auto, unfolding(crate::specs::Lists::maybe_in_parentheses))]
pub fn maybe_in_parentheses<'a, R: Rule>(
    alloc: Global,
    at: Cursor<'a>,
) -> Reading<'a, List<R::Value>>
    ensures { GivesAs (map R.tree) result (maybe_in_parentheses R.rule (state at.entry)) }
{
    match at.parse_word(b"(") {
        None => Ok((List::new(alloc), at)),
        Some(rest) => in_parentheses::<R>(alloc, rest),
    }
}

/// One or more items after a comma; none where the comma is not there.
#[tactic(auto, unfolding(crate::specs::Lists::maybe_after_comma))]
pub fn maybe_after_comma<'a, R: Rule>(alloc: Global, at: Cursor<'a>) -> Reading<'a, List<R::Value>>
    ensures { GivesAs (map R.tree) result (maybe_after_comma R.rule (state at.entry)) }
{
    match at.parse_word(b",") {
        None => Ok((List::new(alloc), at)),
        Some(rest) => items::<R>(alloc, rest),
    }
}
