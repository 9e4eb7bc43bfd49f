//! Which names are those of function subprograms, and the types that a module gives names.
ghost use Rattle.std.specs.Prelude.{◌≡◌, ◌++◌, OnOk, IfOk, map};
ghost use Rattle.f77_ast.specs.PlainDecl.{common_tree, decl_tree, entity_tree, extent_tree};
ghost use Rattle.f77_parser.specs.Functions.{bounded_blocks, bounded_entities, bounded_in, bounded_names, entity_names, if_bounded, integer_in, integer_names, is_external, logical_in, logical_names};

use crate::names::NameSet;
use f77_ast::{CommonPart, Decl, Entity};
use f77_names::Function;
use fx_lists::{List, Text};
use std::alloc::{AllocError as Memory, Global};

/// Whether a name with arguments is that of a function subprogram, where these names have bounds.
pub fn is_external(bounded: &NameSet, name: &Text) -> bool
    ensures { result ≡ is_external bounded.now name.now }
{
    !bounded.has(name) && Function::by_name(name.as_slice()).is_none()
}

fn add_if_bounded(names: &mut NameSet, entity: &Entity) -> Result<(), Memory>
    ensures { OnOk result (names.new ≡ names.old ++ if_bounded (map extent_tree entity.now.bounds) entity.now.name) }
{
    match entity.bounds.as_slice() {
        [] => Ok(()),
        [_, ..] => names.add(&entity.name),
    }
}

#[tactic(auto, using(f77_ast::proofs::PlainlyDecl::decl_lists))]
fn add_bounded_entities(names: &mut NameSet, entities: &List<Entity>) -> Result<(), Memory>
    ensures { OnOk result (names.new ≡ names.old ++ bounded_entities (map entity_tree entities.now)) }
{
    for entity in entities.as_slice() {
        add_if_bounded(names, entity)?;
    }
    Ok(())
}

#[tactic(auto, using(f77_ast::proofs::PlainlyDecl::decl_lists))]
fn add_bounded_blocks(names: &mut NameSet, parts: &List<CommonPart>) -> Result<(), Memory>
    ensures { OnOk result (names.new ≡ names.old ++ bounded_blocks (map common_tree parts.now)) }
{
    for part in parts.as_slice() {
        add_bounded_entities(names, &part.members)?;
    }
    Ok(())
}

/// Adds the names of which a specification statement writes bounds.
pub fn add_bounded(names: &mut NameSet, decl: &Decl) -> Result<(), Memory>
    ensures { OnOk result (names.new ≡ names.old ++ bounded_in (decl_tree decl.now)) }
{
    match decl {
        Decl::Integer(entities) | Decl::Logical(entities) | Decl::Dimension(entities) => {
            add_bounded_entities(names, entities)
        }
        Decl::Common(parts) => add_bounded_blocks(names, parts),
        Decl::Implicit(_)
        | Decl::Parameter(_)
        | Decl::Equivalence(_)
        | Decl::Save(_)
        | Decl::Data(_) => Ok(()),
    }
}

/// The names of which these specification statements write bounds.
#[tactic(auto, using(f77_ast::proofs::PlainlyDecl::decl_lists))]
pub fn bounded_names(alloc: Global, decls: &List<Decl>) -> Result<NameSet, Memory>
    ensures { IfOk result (λ names. names ≡ bounded_names (map decl_tree decls.now)) }
{
    let mut names = NameSet::new(alloc);
    for decl in decls.as_slice() {
        add_bounded(&mut names, decl)?;
    }
    Ok(names)
}

#[tactic(auto, using(f77_ast::proofs::PlainlyDecl::decl_lists))]
fn add_entities(names: &mut NameSet, entities: &List<Entity>) -> Result<(), Memory>
    ensures { OnOk result (names.new ≡ names.old ++ entity_names (map entity_tree entities.now)) }
{
    for entity in entities.as_slice() {
        names.add(&entity.name)?;
    }
    Ok(())
}

fn add_integers(names: &mut NameSet, decl: &Decl) -> Result<(), Memory>
    ensures { OnOk result (names.new ≡ names.old ++ integer_in (decl_tree decl.now)) }
{
    match decl {
        Decl::Integer(entities) => add_entities(names, entities),
        Decl::Implicit(_)
        | Decl::Logical(_)
        | Decl::Dimension(_)
        | Decl::Parameter(_)
        | Decl::Common(_)
        | Decl::Equivalence(_)
        | Decl::Save(_)
        | Decl::Data(_) => Ok(()),
    }
}

fn add_logicals(names: &mut NameSet, decl: &Decl) -> Result<(), Memory>
    ensures { OnOk result (names.new ≡ names.old ++ logical_in (decl_tree decl.now)) }
{
    match decl {
        Decl::Logical(entities) => add_entities(names, entities),
        Decl::Implicit(_)
        | Decl::Integer(_)
        | Decl::Dimension(_)
        | Decl::Parameter(_)
        | Decl::Common(_)
        | Decl::Equivalence(_)
        | Decl::Save(_)
        | Decl::Data(_) => Ok(()),
    }
}

/// The names of INTEGER statements.
#[tactic(auto, using(f77_ast::proofs::PlainlyDecl::decl_lists))]
pub fn integer_names(alloc: Global, decls: &List<Decl>) -> Result<NameSet, Memory>
    ensures { IfOk result (λ names. names ≡ integer_names (map decl_tree decls.now)) }
{
    let mut names = NameSet::new(alloc);
    for decl in decls.as_slice() {
        add_integers(&mut names, decl)?;
    }
    Ok(names)
}

/// The names of LOGICAL statements.
#[tactic(auto, using(f77_ast::proofs::PlainlyDecl::decl_lists))]
pub fn logical_names(alloc: Global, decls: &List<Decl>) -> Result<NameSet, Memory>
    ensures { IfOk result (λ names. names ≡ logical_names (map decl_tree decls.now)) }
{
    let mut names = NameSet::new(alloc);
    for decl in decls.as_slice() {
        add_logicals(&mut names, decl)?;
    }
    Ok(names)
}
