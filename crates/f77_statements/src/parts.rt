//! Names, expressions, and the items of PARAMETER, EQUIVALENCE and SAVE.
ghost use Rattle.std.specs.Prelude.{◌≡◌, ℕ, map};
ghost use Rattle.f77_ast.specs.Trees.{ExprTree};
ghost use Rattle.f77_ast.specs.Plain.{expr_tree};
ghost use Rattle.f77_ast.specs.DeclTrees.{SettingTree};
ghost use Rattle.f77_ast.specs.PlainDecl.{setting_tree};
ghost use Rattle.f77_exprs.specs.State.{state, GivesAs};
ghost use Rattle.f77_exprs.specs.Lexical.{name_at};
ghost use Rattle.f77_exprs.specs.Grammar.{expression, variable};
ghost use Rattle.f77_statements.specs.Parts.{setting, group, block_name, save_item};

use crate::lists::{Comma, Rule, more};
use f77_ast::{Expr, SaveItem, Setting};
use f77_exprs::{Cursor, Reading, expression, name_at, variable};
use fx_lists::{List, Text};
use std::alloc::Global;

/// A name.
pub enum NameList {}

impl Rule for NameList {
    ghost use Rattle.std.specs.Prelude.{List as Elements};

    type Value = Text;

    ghost Tree = { Elements ℕ };

    ghost tree = { λ n. n };

    ghost rule = { name_at };

    fn read<'a>(alloc: Global, at: Cursor<'a>) -> Reading<'a, Text> {
        name_at(alloc, at)
    }
}

/// An expression.
pub enum Expressions {}

impl Rule for Expressions {
    type Value = Expr;

    ghost Tree = { ExprTree };

    ghost tree = { expr_tree };

    ghost rule = { expression };

    fn read<'a>(alloc: Global, at: Cursor<'a>) -> Reading<'a, Expr> {
        expression(alloc, at)
    }
}

/// A name, with subscripts in parentheses or without.
pub enum Variables {}

impl Rule for Variables {
    type Value = Expr;

    ghost Tree = { ExprTree };

    ghost tree = { expr_tree };

    ghost rule = { variable };

    fn read<'a>(alloc: Global, at: Cursor<'a>) -> Reading<'a, Expr> {
        variable(alloc, at)
    }
}

/// A name of PARAMETER and its value: `n=e` (ANSI X3.9-1978 §8.6).
pub enum Settings {}

impl Rule for Settings {
    type Value = Setting;

    ghost Tree = { SettingTree };

    ghost tree = { setting_tree };

    ghost rule = { setting };

    #[tactic(auto, unfolding(crate::specs::Parts::setting))]
    fn read<'a>(alloc: Global, at: Cursor<'a>) -> Reading<'a, Setting> {
        let (name, at) = name_at(alloc, at)?;
        let at = at.need_word(b"=")?;
        let (value, at) = expression(alloc, at)?;
        Ok((Setting { name, value }, at))
    }
}

/// A group of EQUIVALENCE, two or more names and array elements in parentheses (§8.2).
pub enum Groups {}

impl Rule for Groups {
    ghost use Rattle.std.specs.Prelude.{List as Elements};

    type Value = List<Expr>;

    ghost Tree = { Elements ExprTree };

    ghost tree = { λ es. map expr_tree es };

    ghost rule = { group };

    #[tactic(auto, unfolding(crate::specs::Parts::group))]
    fn read<'a>(alloc: Global, at: Cursor<'a>) -> Reading<'a, List<Expr>> {
        let at = at.need_word(b"(")?;
        let (first, at) = variable(alloc, at)?;
        let at = at.need_word(b",")?;
        let (second, at) = variable(alloc, at)?;
        let mut found = List::new(alloc);
        found.push(first)?;
        found.push(second)?;
        let (found, at) = more::<Variables, Comma>(alloc, found, at)?;
        let at = at.need_word(b")")?;
        Ok((found, at))
    }
}

/// The name of a COMMON block from after its first slash, and what follows its second. Err is `Syntax` where either is not there.
#[tactic(auto, unfolding(crate::specs::Parts::block_name, crate::specs::Lists::ending))]
pub fn block_name(alloc: Global, at: Cursor<'_>) -> Reading<'_, Text>
    ensures { GivesAs (λ n. n) result (block_name (state at.entry)) }
{
    let (name, at) = name_at(alloc, at)?;
    let at = at.need_word(b"/")?;
    Ok((name, at))
}

/// An item of SAVE: a name, or a COMMON block between slashes (§8.9).
pub enum SaveItems {}

impl Rule for SaveItems {
    ghost use Rattle.f77_ast.specs.declared.decl.SaveItem.{SaveItem as Item};

    type Value = SaveItem;

    ghost Tree = { Item };

    ghost tree = { λ i. i };

    ghost rule = { save_item };

    #[tactic(auto, unfolding(crate::specs::Parts::save_item))]
    fn read<'a>(alloc: Global, at: Cursor<'a>) -> Reading<'a, SaveItem> {
        match at.parse_word(b"/") {
            Some(rest) => {
                let (name, rest) = block_name(alloc, rest)?;
                Ok((SaveItem::Block(name), rest))
            }
            None => {
                let (name, rest) = name_at(alloc, at)?;
                Ok((SaveItem::Name(name), rest))
            }
        }
    }
}
