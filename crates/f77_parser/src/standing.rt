//! The names that stand in a module, other than in type statements or as the name of a function whose value is assigned.
ghost use Rattle.std.specs.Prelude.{◌≡◌, ◌++◌, ◌∷◌, OnOk, IfOk, map};
ghost use Rattle.f77_ast.specs.Plain.{expr_tree, expr_trees};
ghost use Rattle.f77_ast.specs.PlainStmt.{maybe_tree, what_tree};
ghost use Rattle.f77_ast.specs.PlainDecl.{common_tree, data_tree, decl_tree, entity_tree, extent_tree, setting_tree};
ghost use Rattle.f77_statements.specs.Phrases.{do_tree, phrase_tree};
ghost use Rattle.f77_parser.specs.Statements.{statement_tree};
ghost use Rattle.f77_parser.specs.Standing.{array_names, block_names, decl_names, do_names, expr_names, exprs_names, extent_names, group_names, item_name, item_names, maybe_names, heading_names, phrase_names, setting_names, standing, statement_names, target_names, title_names, typed_names, value_names, what_names};

use crate::functions::is_external;
use crate::names::NameSet;
use crate::statement::Statement;
use f77_ast::{CommonPart, DataGroup, Decl, Entity, Expr, Extent, SaveItem, Setting, What};
use f77_statements::{DoHead, Phrase};
use fx_lists::{List, Text};
use std::alloc::{AllocError as Memory, Global};

/// Adds the names of an expression.
#[cycle(add_expr)]
#[tactic(auto, using(crate::proofs::StandingLaws::expr_calls))]
fn add_expr(names: &mut NameSet, e: &Expr) -> Result<(), Memory>
    ensures { OnOk result (names.new ≡ names.old ++ expr_names (expr_tree e.now)) }
{
    match e {
        Expr::Int(_) | Expr::Log(_) | Expr::Chars(_) => Ok(()),
        Expr::Name(name) => names.add(name),
        Expr::Element(name, es) => {
            names.add(name)?;
            add_exprs(names, es)
        }
        Expr::Paren(e) => add_expr(names, e),
        Expr::Unary(_, e) => add_expr(names, e),
        Expr::Binary(_, a, b) => {
            add_expr(names, a)?;
            add_expr(names, b)
        }
    }
}

/// Adds the names of a list of expressions.
#[cycle(add_expr)]
#[tactic(auto, using(crate::proofs::StandingLaws::expr_items))]
fn add_exprs(names: &mut NameSet, es: &List<Expr>) -> Result<(), Memory>
    ensures { OnOk result (names.new ≡ names.old ++ exprs_names (expr_trees es.now)) }
{
    for e in es.as_slice() {
        add_expr(names, e)?;
    }
    Ok(())
}

fn add_maybe(names: &mut NameSet, e: &Option<Expr>) -> Result<(), Memory>
    ensures { OnOk result (names.new ≡ names.old ++ maybe_names (maybe_tree e.now)) }
{
    match e {
        None => Ok(()),
        Some(e) => add_expr(names, e),
    }
}

fn add_extents(names: &mut NameSet, extents: &List<Extent>) -> Result<(), Memory>
    ensures { OnOk result (names.new ≡ names.old ++ extent_names (map extent_tree extents.now)) }
{
    for extent in extents.as_slice() {
        add_maybe(names, &extent.low)?;
        add_maybe(names, &extent.high)?;
    }
    Ok(())
}

/// Of a type statement the names that it types are left out.
fn add_typed(names: &mut NameSet, entities: &List<Entity>) -> Result<(), Memory>
    ensures { OnOk result (names.new ≡ names.old ++ typed_names (map entity_tree entities.now)) }
{
    for entity in entities.as_slice() {
        add_extents(names, &entity.bounds)?;
    }
    Ok(())
}

fn add_arrays(names: &mut NameSet, entities: &List<Entity>) -> Result<(), Memory>
    ensures { OnOk result (names.new ≡ names.old ++ array_names (map entity_tree entities.now)) }
{
    for entity in entities.as_slice() {
        names.add(&entity.name)?;
        add_extents(names, &entity.bounds)?;
    }
    Ok(())
}

fn add_settings(names: &mut NameSet, settings: &List<Setting>) -> Result<(), Memory>
    ensures { OnOk result (names.new ≡ names.old ++ setting_names (map setting_tree settings.now)) }
{
    for setting in settings.as_slice() {
        names.add(&setting.name)?;
        add_expr(names, &setting.value)?;
    }
    Ok(())
}

/// The names of COMMON blocks too.
fn add_blocks(names: &mut NameSet, parts: &List<CommonPart>) -> Result<(), Memory>
    ensures { OnOk result (names.new ≡ names.old ++ block_names (map common_tree parts.now)) }
{
    for part in parts.as_slice() {
        names.add(&part.block)?;
        add_arrays(names, &part.members)?;
    }
    Ok(())
}

fn add_groups(names: &mut NameSet, groups: &List<List<Expr>>) -> Result<(), Memory>
    ensures { OnOk result (names.new ≡ names.old ++ group_names (map (map expr_tree) groups.now)) }
{
    for group in groups.as_slice() {
        add_exprs(names, group)?;
    }
    Ok(())
}

fn item_name(item: &SaveItem) -> &Text
    ensures { result.now ≡ item_name item.now }
{
    match item {
        SaveItem::Name(name) => name,
        SaveItem::Block(name) => name,
    }
}

fn add_items(names: &mut NameSet, items: &List<SaveItem>) -> Result<(), Memory>
    ensures { OnOk result (names.new ≡ names.old ++ item_names items.now) }
{
    for item in items.as_slice() {
        names.add(item_name(item))?;
    }
    Ok(())
}

fn add_targets(names: &mut NameSet, groups: &List<DataGroup>) -> Result<(), Memory>
    ensures { OnOk result (names.new ≡ names.old ++ target_names (map data_tree groups.now)) }
{
    for group in groups.as_slice() {
        add_exprs(names, &group.targets)?;
    }
    Ok(())
}

fn add_decl(names: &mut NameSet, decl: &Decl) -> Result<(), Memory>
    ensures { OnOk result (names.new ≡ names.old ++ decl_names (decl_tree decl.now)) }
{
    match decl {
        Decl::Implicit(_) => Ok(()),
        Decl::Integer(entities) | Decl::Logical(entities) => add_typed(names, entities),
        Decl::Dimension(entities) => add_arrays(names, entities),
        Decl::Parameter(settings) => add_settings(names, settings),
        Decl::Common(parts) => add_blocks(names, parts),
        Decl::Equivalence(groups) => add_groups(names, groups),
        Decl::Save(items) => add_items(names, items),
        Decl::Data(groups) => add_targets(names, groups),
    }
}

/// Of what is assigned, the name of a function whose value it is is left out.
#[tactic(auto, using(crate::proofs::StandingLaws::values))]
fn add_value(bounded: &NameSet, names: &mut NameSet, e: &Expr) -> Result<(), Memory>
    ensures { OnOk result (names.new ≡ names.old ++ value_names bounded.now (expr_tree e.now)) }
{
    match e {
        Expr::Element(name, es) => {
            if !is_external(bounded, name) {
                names.add(name)?;
            }
            add_exprs(names, es)
        }
        Expr::Int(_)
        | Expr::Log(_)
        | Expr::Name(_)
        | Expr::Paren(_)
        | Expr::Unary(..)
        | Expr::Binary(..)
        | Expr::Chars(_) => add_expr(names, e),
    }
}

/// A statement that opens no block.
#[tactic(auto, using(crate::proofs::StandingLaws::whats))]
fn add_what(bounded: &NameSet, names: &mut NameSet, what: &What) -> Result<(), Memory>
    ensures { OnOk result (names.new ≡ names.old ++ what_names bounded.now (what_tree what.now)) }
{
    match what {
        What::Assign(left, right) => {
            add_expr(names, left)?;
            add_value(bounded, names, right)
        }
        What::Call(name, es) => {
            names.add(name)?;
            add_exprs(names, es)
        }
        What::Print(es) | What::Read(es) => add_exprs(names, es),
        What::If(..)
        | What::LogicalIf(..)
        | What::Do(_)
        | What::Goto(_)
        | What::Continue
        | What::Return
        | What::Stop(_) => Ok(()),
    }
}

fn add_do(names: &mut NameSet, head: &DoHead) -> Result<(), Memory>
    ensures { OnOk result (names.new ≡ names.old ++ do_names (do_tree head.now)) }
{
    names.add(&head.index)?;
    add_expr(names, &head.first)?;
    add_expr(names, &head.last)?;
    add_maybe(names, &head.step)
}

/// A heading counts only where it is first.
fn add_phrase(bounded: &NameSet, names: &mut NameSet, phrase: &Phrase) -> Result<(), Memory>
    ensures { OnOk result (names.new ≡ names.old ++ phrase_names bounded.now (phrase_tree phrase.now)) }
{
    match phrase {
        Phrase::Decl(decl) => add_decl(names, decl),
        Phrase::Simple(what) => add_what(bounded, names, what),
        Phrase::LogicalIf(test, what) => {
            add_expr(names, test)?;
            add_what(bounded, names, what)
        }
        Phrase::BlockIf(test) | Phrase::ElseIf(test) | Phrase::While(_, test) => {
            add_expr(names, test)
        }
        Phrase::Do(head) => add_do(names, head),
        Phrase::Program(_)
        | Phrase::Subroutine(..)
        | Phrase::Function(..)
        | Phrase::Else
        | Phrase::EndIf
        | Phrase::EndDo
        | Phrase::End => Ok(()),
    }
}

fn add_statements(
    bounded: &NameSet,
    names: &mut NameSet,
    statements: &[Statement],
) -> Result<(), Memory>
    ensures { OnOk result (names.new ≡ names.old ++ statement_names bounded.now (map statement_tree statements.now)) }
{
    for statement in statements {
        add_phrase(bounded, names, &statement.phrase)?;
    }
    Ok(())
}

fn add_names(names: &mut NameSet, name: &Text, dummies: &List<Text>) -> Result<(), Memory>
    ensures { OnOk result (names.new ≡ names.old ++ name.now ∷ dummies.now) }
{
    names.add(name)?;
    names.add_all(dummies)
}

fn add_heading(names: &mut NameSet, phrase: &Phrase) -> Result<(), Memory>
    ensures { OnOk result (names.new ≡ names.old ++ heading_names (phrase_tree phrase.now)) }
{
    match phrase {
        Phrase::Program(name) => names.add(name),
        Phrase::Subroutine(name, dummies) | Phrase::Function(_, name, dummies) => {
            add_names(names, name, dummies)
        }
        Phrase::Decl(_)
        | Phrase::Simple(_)
        | Phrase::LogicalIf(..)
        | Phrase::BlockIf(_)
        | Phrase::ElseIf(_)
        | Phrase::Else
        | Phrase::EndIf
        | Phrase::Do(_)
        | Phrase::While(..)
        | Phrase::EndDo
        | Phrase::End => Ok(()),
    }
}

/// The name of a module and its dummies.
fn add_title(names: &mut NameSet, statements: &[Statement]) -> Result<(), Memory>
    ensures { OnOk result (names.new ≡ names.old ++ title_names (map statement_tree statements.now)) }
{
    match statements {
        [] => Ok(()),
        [first, ..] => add_heading(names, &first.phrase),
    }
}

/// The names that stand in the statements of a module, where the names in `bounded` have bounds.
pub fn standing(
    alloc: Global,
    bounded: &NameSet,
    statements: &[Statement],
) -> Result<NameSet, Memory>
    ensures { IfOk result (λ names. names ≡ standing bounded.now (map statement_tree statements.now)) }
{
    let mut names = NameSet::new(alloc);
    add_title(&mut names, statements)?;
    add_statements(bounded, &mut names, statements)?;
    Ok(names)
}
