//! What the specification statements of a module say of its names, one after another (ANSI X3.9-1978 §8, §9).
ghost use Rattle.std.specs.Prelude.{◌≡◌, IfOk, OnOk, map};
ghost use Rattle.f77_ast.specs.Plain.{expr_tree};
ghost use Rattle.f77_ast.specs.PlainStmt.{maybe_tree};
ghost use Rattle.f77_ast.specs.PlainDecl.{common_tree, data_tree, decl_tree, entity_tree, extent_tree, setting_tree};
ghost use Rattle.f77_ast.specs.Symbols.{bound_tree};
ghost use Rattle.f77_names.specs.Entries.{entry_tree};
ghost use Rattle.f77_names.specs.Words.{mentioned, said_once};
ghost use Rattle.f77_names.specs.Declaring.{blocks_told, bound_of, decl_told, decls_told, dummies_told, entity_seen, extents_seen, form_told, groups_told, item_told, items_told, low_of, members_told, mention_told, save_told, saves_told, seen_told, setting_told, settings_told, shaped, shaped_entities, targets_told, typed_entities, typed_entity};
ghost use Rattle.f77_names.specs.Views.{line_in, told_tree};

use crate::appear::{Sight, see_expr, see_exprs, see_maybe};
use crate::{Names, Shape, Sited, Word};
use f77_ast::{
    Bound, CommonPart, DataGroup, Decl, Entity, Expr, Extent, FunctionForm, SaveItem, Scalar,
    Setting, copy_expr,
};
use fx_lists::{Code, List, Refusal, Text, refuse_if};
use std::alloc::{AllocError as Memory, Global};

/// The names so far, and the first refusal of their declarations.
#[derive(Drop)]
pub struct Told {
    pub names: Names,
    pub found: Option<Refusal>,
}

/// A bound as the table has it: without a lower bound it is 1.
#[tactic(auto, using(f77_ast::proofs::Plainly::expr_cases))]
fn bound_of(alloc: Global, extent: &Extent) -> Result<Bound, Memory>
    ensures { IfOk result (λ b. bound_tree b ≡ bound_of (extent_tree extent.now)) }
{
    let low = low_of(alloc, &extent.low)?;
    let high = match &extent.high {
        None => None,
        Some(high) => Some(copy_expr(alloc, high)?),
    };
    Ok(Bound { low, high })
}

#[tactic(auto, using(f77_ast::proofs::Plainly::expr_cases))]
fn low_of(alloc: Global, low: &Option<Expr>) -> Result<Expr, Memory>
    ensures { IfOk result (λ e. expr_tree e ≡ low_of (maybe_tree low.now)) }
{
    match low {
        None => Ok(Expr::Int(1)),
        Some(low) => copy_expr(alloc, low),
    }
}

fn bounds_of(alloc: Global, extents: &List<Extent>) -> Result<List<Bound>, Memory>
    ensures { IfOk result (λ bs. map bound_tree bs ≡ map bound_of (map extent_tree extents.now)) }
{
    let mut bounds = List::new(alloc);
    for extent in extents.as_slice() {
        bounds.push(bound_of(alloc, extent)?)?;
    }
    Ok(bounds)
}

/// The names of bounds are seen.
#[tactic(auto, using(f77_ast::proofs::PlainlyDecl::decl_lists))]
fn see_extents(
    sight: &Sight,
    extents: &List<Extent>,
    line: u32,
    names: &mut Names,
) -> Result<(), Memory>
    ensures { OnOk result (map entry_tree names.new ≡ extents_seen sight.now.arrays.now (map extent_tree extents.now) line (map entry_tree names.old)) }
{
    for extent in extents.as_slice() {
        see_maybe(sight, &extent.low, line, names)?;
        see_maybe(sight, &extent.high, line, names)?;
    }
    Ok(())
}

/// What an item of EQUIVALENCE or DATA says of its name: nothing more, or that it is in DATA.
#[derive(Clone, Copy)]
pub enum Mention {
    Equivalent,
    Initial,
}

impl Told {
    fn see(&mut self, alloc: Global, name: &Text, line: u32) -> Result<(), Memory>
        ensures { OnOk result (told_tree self.new ≡ seen_told name.now line (told_tree self.old)) }
    {
        self.names.see(alloc, name, line)
    }

    /// One thing more; to say it twice is refused.
    fn say_once(&mut self, name: &Text, word: Word, line: u32, code: Code)
        ensures { told_tree self.new ≡ said_once name.now word line code (told_tree self.old) }
    {
        let twice = self.names.say(name, word);
        self.found = refuse_if(twice, line, code, self.found);
    }

    /// Adds the dummy arguments of a module, numbered from 1; `line` is that of the title. One that is listed twice is refused
    /// with `DeclaredTwice`. Err also where there are 2^32 - 1 of them.
    #[tactic(auto, using(crate::proofs::ToldLaws::steps))]
    pub fn tell_dummies(
        &mut self,
        alloc: Global,
        dummies: &List<Text>,
        line: u32,
    ) -> Result<(), Memory>
        ensures { OnOk result (told_tree self.new ≡ dummies_told dummies.now 1 line (told_tree self.old)) }
    {
        let mut number = 1u32;
        for name in dummies.as_slice() {
            self.see(alloc, name, line)?;
            self.say_once(name, Word::Dummy(number), line, Code::DeclaredTwice);
            number = number.checked_add(1).ok_or(Memory)?;
        }
        Ok(())
    }

    /// The type that a FUNCTION statement gives the function; `line` is that of the statement. A second type is refused with
    /// `DeclaredTwice`.
    pub fn tell_form(&mut self, form: Option<FunctionForm>, name: &Text, line: u32)
        ensures { told_tree self.new ≡ form_told form name.now line (told_tree self.old) }
    {
        let scalar = match form {
            None | Some(FunctionForm::Plain) => return,
            Some(FunctionForm::Integer) => Scalar::Int,
            Some(FunctionForm::Logical) => Scalar::Log,
        };
        self.say_once(name, Word::Type(scalar), line, Code::DeclaredTwice);
    }

    /// The entity's name and the names of its bounds are seen.
    fn see_entity(&mut self, sight: &Sight, entity: &Entity, line: u32) -> Result<(), Memory>
        ensures { OnOk result (told_tree self.new ≡ entity_seen sight.now.arrays.now (entity_tree entity.now) line (told_tree self.old)) }
    {
        self.names.see(sight.alloc, &entity.name, line)?;
        see_extents(sight, &entity.bounds, line, &mut self.names)
    }

    #[tactic(auto, using(crate::proofs::ToldLaws::same_steps))]
    fn give_bounds(&mut self, alloc: Global, entity: &Entity, line: u32) -> Result<(), Memory>
        ensures { OnOk result (told_tree self.new ≡ shaped entity.now.name (map extent_tree entity.now.bounds) line (told_tree self.old)) }
    {
        if entity.bounds.is_empty() {
            return Ok(());
        }
        let bounds = bounds_of(alloc, &entity.bounds)?;
        let word = Word::Bounds(Shape { line, bounds });
        self.say_once(&entity.name, word, line, Code::DeclaredTwice);
        Ok(())
    }

    fn tell_type(
        &mut self,
        sight: &Sight,
        scalar: Scalar,
        entity: &Entity,
        line: u32,
    ) -> Result<(), Memory>
        ensures { OnOk result (told_tree self.new ≡ typed_entity sight.now.arrays.now scalar (entity_tree entity.now) line (told_tree self.old)) }
    {
        self.see_entity(sight, entity, line)?;
        let word = Word::Type(scalar);
        self.say_once(&entity.name, word, line, Code::DeclaredTwice);
        self.give_bounds(sight.alloc, entity, line)
    }

    #[tactic(auto, using(f77_ast::proofs::PlainlyDecl::decl_lists))]
    fn tell_types(
        &mut self,
        sight: &Sight,
        scalar: Scalar,
        entities: &List<Entity>,
        line: u32,
    ) -> Result<(), Memory>
        ensures { OnOk result (told_tree self.new ≡ typed_entities sight.now.arrays.now scalar (map entity_tree entities.now) line (told_tree self.old)) }
    {
        for entity in entities.as_slice() {
            self.tell_type(sight, scalar, entity, line)?;
        }
        Ok(())
    }

    #[tactic(auto, using(f77_ast::proofs::PlainlyDecl::decl_lists))]
    fn tell_bounds(
        &mut self,
        sight: &Sight,
        entities: &List<Entity>,
        line: u32,
    ) -> Result<(), Memory>
        ensures { OnOk result (told_tree self.new ≡ shaped_entities sight.now.arrays.now (map entity_tree entities.now) line (told_tree self.old)) }
    {
        for entity in entities.as_slice() {
            self.see_entity(sight, entity, line)?;
            self.give_bounds(sight.alloc, entity, line)?;
        }
        Ok(())
    }

    #[tactic(auto, using(f77_ast::proofs::PlainlyDecl::decl_lists))]
    fn tell_members(
        &mut self,
        sight: &Sight,
        members: &List<Entity>,
        line: u32,
    ) -> Result<(), Memory>
        ensures { OnOk result (told_tree self.new ≡ members_told sight.now.arrays.now (map entity_tree members.now) line (told_tree self.old)) }
    {
        for entity in members.as_slice() {
            self.see_entity(sight, entity, line)?;
            self.give_bounds(sight.alloc, entity, line)?;
            self.say_once(&entity.name, Word::Common(line), line, Code::CommonTwice);
        }
        Ok(())
    }

    #[tactic(auto, using(f77_ast::proofs::PlainlyDecl::decl_lists))]
    fn tell_blocks(
        &mut self,
        sight: &Sight,
        parts: &List<CommonPart>,
        line: u32,
    ) -> Result<(), Memory>
        ensures { OnOk result (told_tree self.new ≡ blocks_told sight.now.arrays.now (map common_tree parts.now) line (told_tree self.old)) }
    {
        for part in parts.as_slice() {
            self.tell_members(sight, &part.members, line)?;
        }
        Ok(())
    }

    fn tell_setting(&mut self, sight: &Sight, setting: &Setting, line: u32) -> Result<(), Memory>
        ensures { OnOk result (told_tree self.new ≡ setting_told sight.now.arrays.now (setting_tree setting.now) line (told_tree self.old)) }
    {
        self.names.see(sight.alloc, &setting.name, line)?;
        let _ = self.names.say(&setting.name, Word::Parameter);
        see_expr(sight, &setting.value, line, &mut self.names)
    }

    #[tactic(auto, using(f77_ast::proofs::PlainlyDecl::decl_lists))]
    fn tell_settings(
        &mut self,
        sight: &Sight,
        settings: &List<Setting>,
        line: u32,
    ) -> Result<(), Memory>
        ensures { OnOk result (told_tree self.new ≡ settings_told sight.now.arrays.now (map setting_tree settings.now) line (told_tree self.old)) }
    {
        for setting in settings.as_slice() {
            self.tell_setting(sight, setting, line)?;
        }
        Ok(())
    }

    #[tactic(auto, using(crate::proofs::ToldLaws::same_steps))]
    fn tell_mention(
        &mut self,
        alloc: Global,
        name: &Text,
        line: u32,
        mention: Mention,
    ) -> Result<(), Memory>
        ensures { OnOk result (told_tree self.new ≡ mention_told (mentioned mention) name.now line (told_tree self.old)) }
    {
        self.names.see(alloc, name, line)?;
        match mention {
            Mention::Equivalent => {}
            Mention::Initial => {
                let _ = self.names.say(name, Word::Initial);
            }
        }
        Ok(())
    }

    #[tactic(auto, using(f77_ast::proofs::Plainly::expr_cases))]
    fn tell_item(
        &mut self,
        sight: &Sight,
        item: &Expr,
        line: u32,
        mention: Mention,
    ) -> Result<(), Memory>
        ensures { OnOk result (told_tree self.new ≡ item_told sight.now.arrays.now (mentioned mention) (expr_tree item.now) line (told_tree self.old)) }
    {
        match item {
            Expr::Name(name) => self.tell_mention(sight.alloc, name, line, mention),
            Expr::Element(name, es) => {
                self.tell_mention(sight.alloc, name, line, mention)?;
                see_exprs(sight, es, line, &mut self.names)
            }
            Expr::Int(_)
            | Expr::Log(_)
            | Expr::Paren(_)
            | Expr::Unary(..)
            | Expr::Binary(..)
            | Expr::Chars(_) => Ok(()),
        }
    }

    #[tactic(auto, using(f77_ast::proofs::PlainlyDecl::decl_lists))]
    fn tell_items(
        &mut self,
        sight: &Sight,
        items: &List<Expr>,
        line: u32,
        mention: Mention,
    ) -> Result<(), Memory>
        ensures { OnOk result (told_tree self.new ≡ items_told sight.now.arrays.now (mentioned mention) (map expr_tree items.now) line (told_tree self.old)) }
    {
        for item in items.as_slice() {
            self.tell_item(sight, item, line, mention)?;
        }
        Ok(())
    }

    #[tactic(auto, using(f77_ast::proofs::PlainlyDecl::decl_lists))]
    fn tell_groups(
        &mut self,
        sight: &Sight,
        groups: &List<List<Expr>>,
        line: u32,
    ) -> Result<(), Memory>
        ensures { OnOk result (told_tree self.new ≡ groups_told sight.now.arrays.now (map (map expr_tree) groups.now) line (told_tree self.old)) }
    {
        for group in groups.as_slice() {
            self.tell_items(sight, group, line, Mention::Equivalent)?;
        }
        Ok(())
    }

    #[tactic(auto, using(f77_ast::proofs::PlainlyDecl::decl_lists))]
    fn tell_targets(
        &mut self,
        sight: &Sight,
        groups: &List<DataGroup>,
        line: u32,
    ) -> Result<(), Memory>
        ensures { OnOk result (told_tree self.new ≡ targets_told sight.now.arrays.now (map data_tree groups.now) line (told_tree self.old)) }
    {
        for group in groups.as_slice() {
            self.tell_items(sight, &group.targets, line, Mention::Initial)?;
        }
        Ok(())
    }

    fn tell_save(&mut self, alloc: Global, item: &SaveItem, line: u32) -> Result<(), Memory>
        ensures { OnOk result (told_tree self.new ≡ save_told item.now line (told_tree self.old)) }
    {
        match item {
            SaveItem::Name(name) => {
                self.names.see(alloc, name, line)?;
                let _ = self.names.say(name, Word::Saved);
                Ok(())
            }
            SaveItem::Block(_) => Ok(()),
        }
    }

    #[tactic(auto, using(crate::proofs::ToldLaws::steps))]
    fn tell_saves(&mut self, alloc: Global, items: &List<SaveItem>, line: u32) -> Result<(), Memory>
        ensures { OnOk result (told_tree self.new ≡ saves_told items.now line (told_tree self.old)) }
    {
        for item in items.as_slice() {
            self.tell_save(alloc, item, line)?;
        }
        Ok(())
    }

    fn tell_decl(&mut self, sight: &Sight, decl: &Decl, line: u32) -> Result<(), Memory>
        ensures { OnOk result (told_tree self.new ≡ decl_told sight.now.arrays.now (decl_tree decl.now) line (told_tree self.old)) }
    {
        match decl {
            Decl::Implicit(_) => Ok(()),
            Decl::Integer(entities) => self.tell_types(sight, Scalar::Int, entities, line),
            Decl::Logical(entities) => self.tell_types(sight, Scalar::Log, entities, line),
            Decl::Dimension(entities) => self.tell_bounds(sight, entities, line),
            Decl::Parameter(settings) => self.tell_settings(sight, settings, line),
            Decl::Common(parts) => self.tell_blocks(sight, parts, line),
            Decl::Equivalence(groups) => self.tell_groups(sight, groups, line),
            Decl::Save(items) => self.tell_saves(sight.alloc, items, line),
            Decl::Data(groups) => self.tell_targets(sight, groups, line),
        }
    }

    /// Adds the names of specification statements, and what these say of them; a second type or second bounds are refused with
    /// `DeclaredTwice`, a second COMMON with `CommonTwice`. Err also where there are 2^32 statements.
    #[tactic(auto, using(crate::proofs::ToldLaws::steps))]
    pub fn tell_decls(&mut self, sight: &Sight, decls: &List<Decl>) -> Result<(), Memory>
        ensures { OnOk result (told_tree self.new ≡ decls_told sight.now.arrays.now (line_in sight.now.lines.now) (map decl_tree decls.now) 0 (told_tree self.old)) }
    {
        let mut number = 0u32;
        for decl in decls.as_slice() {
            let line = sight.lines.line_or(Sited::Decl(number), 0);
            self.tell_decl(sight, decl, line)?;
            number = number.checked_add(1).ok_or(Memory)?;
        }
        Ok(())
    }
}
