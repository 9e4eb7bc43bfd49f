//! Names of intrinsic functions: they are functions where no array of the name is declared (ANSI X3.9-1978 §15.10).
ghost use Rattle.std.specs.Prelude.{◌≡◌, IfOk, OnOk, map};
ghost use Rattle.std.specs.List.{list_any};
ghost use Rattle.f77_ast.specs.PlainDecl.{common_tree, decl_tree, entity_tree, extent_tree};
ghost use Rattle.f77_names.specs.Functions.{arrays_named, function_named, function_number, function_of, same_function, takes, with_blocks, with_decl, with_entities, with_entity, with_function};

use f77_ast::{CommonPart, Decl, Entity};
use fx_lists::{List, Text};
use std::alloc::{AllocError as Memory, Global};
use std::marker::Model;

/// An intrinsic function of the profile.
#[derive(Clone, Copy, Debug, PartialEq, Eq)]
pub enum Function {
    Abs,
    Iabs,
    Mod,
    Max,
    Max0,
    Min,
    Min0,
}

impl Function {
    /// The function with a name, in capitals; None where no function has it.
    pub fn by_name(name: &[u8]) -> Option<Function>
        ensures { result ≡ function_named name.now }
    {
        if name == b"ABS".as_slice() {
            Some(Function::Abs)
        } else if name == b"IABS".as_slice() {
            Some(Function::Iabs)
        } else if name == b"MOD".as_slice() {
            Some(Function::Mod)
        } else if name == b"MAX".as_slice() {
            Some(Function::Max)
        } else if name == b"MAX0".as_slice() {
            Some(Function::Max0)
        } else if name == b"MIN".as_slice() {
            Some(Function::Min)
        } else if name == b"MIN0".as_slice() {
            Some(Function::Min0)
        } else {
            None
        }
    }

    fn number(self) -> u8
        ensures { result ≡ function_number self }
    {
        match self {
            Function::Abs => 0,
            Function::Iabs => 1,
            Function::Mod => 2,
            Function::Max => 3,
            Function::Max0 => 4,
            Function::Min => 5,
            Function::Min0 => 6,
        }
    }

    /// Whether a call may have `count` arguments.
    pub fn takes(self, count: usize) -> bool
        ensures { result ≡ takes self count }
    {
        match self {
            Function::Abs | Function::Iabs => count == 1,
            Function::Mod => count == 2,
            Function::Max | Function::Max0 | Function::Min | Function::Min0 => 2 <= count,
        }
    }
}

/// The functions whose names are those of arrays, each once, in the order of the declarations.
#[derive(Drop)]
pub struct Arrays {
    named: List<Function>,
}

impl Model for Arrays {
    ghost use Rattle.std.specs.Prelude.{List};
    ghost use Rattle.f77_names.specs.declared.functions.Function.{Function};

    ghost Value = { List Function };

    ghost view = { λ a. a.named };
}

impl Arrays {
    fn has(&self, function: Function) -> bool
        ensures { result ≡ list_any (same_function function) self.now }
    {
        for f in self.named.as_slice() {
            if function.number() == f.number() {
                return true;
            }
        }
        false
    }

    /// One more, if it is a function and not there.
    fn add(&mut self, function: Option<Function>) -> Result<(), Memory>
        ensures { OnOk result (self.new ≡ with_function function self.old) }
    {
        let function = match function {
            None => return Ok(()),
            Some(function) => function,
        };
        if self.has(function) {
            return Ok(());
        }
        self.named.push(function)?;
        Ok(())
    }

    fn add_entity(&mut self, entity: &Entity) -> Result<(), Memory>
        ensures { OnOk result (self.new ≡ with_entity entity.now.name (map extent_tree entity.now.bounds) self.old) }
    {
        match entity.bounds.as_slice() {
            [] => Ok(()),
            [_, ..] => self.add(Function::by_name(entity.name.as_slice())),
        }
    }

    #[tactic(auto, using(f77_ast::proofs::PlainlyDecl::decl_lists))]
    fn add_entities(&mut self, entities: &List<Entity>) -> Result<(), Memory>
        ensures { OnOk result (self.new ≡ with_entities (map entity_tree entities.now) self.old) }
    {
        for entity in entities.as_slice() {
            self.add_entity(entity)?;
        }
        Ok(())
    }

    #[tactic(auto, using(f77_ast::proofs::PlainlyDecl::decl_lists))]
    fn add_blocks(&mut self, parts: &List<CommonPart>) -> Result<(), Memory>
        ensures { OnOk result (self.new ≡ with_blocks (map common_tree parts.now) self.old) }
    {
        for part in parts.as_slice() {
            self.add_entities(&part.members)?;
        }
        Ok(())
    }

    fn add_decl(&mut self, decl: &Decl) -> Result<(), Memory>
        ensures { OnOk result (self.new ≡ with_decl (decl_tree decl.now) self.old) }
    {
        match decl {
            Decl::Integer(entities) | Decl::Logical(entities) | Decl::Dimension(entities) => {
                self.add_entities(entities)
            }
            Decl::Common(parts) => self.add_blocks(parts),
            Decl::Implicit(_)
            | Decl::Parameter(_)
            | Decl::Equivalence(_)
            | Decl::Save(_)
            | Decl::Data(_) => Ok(()),
        }
    }

    /// The functions that these specification statements declare as arrays.
    #[tactic(auto, using(f77_ast::proofs::PlainlyDecl::decl_lists))]
    pub fn of(alloc: Global, decls: &List<Decl>) -> Result<Arrays, Memory>
        ensures { IfOk result (λ a. a ≡ arrays_named (map decl_tree decls.now)) }
    {
        let mut arrays = Arrays {
            named: List::new(alloc),
        };
        for decl in decls.as_slice() {
            arrays.add_decl(decl)?;
        }
        Ok(arrays)
    }

    /// The function that a name stands for; None where no function has the name, or an array has it. Takes no memory.
    #[tactic(auto, unfolding(crate::specs::Functions::function_of))]
    pub fn function_of(&self, name: &Text) -> Option<Function>
        ensures { result ≡ function_of self.now name.now }
    {
        match Function::by_name(name.as_slice()) {
            None => None,
            Some(function) => {
                if self.has(function) {
                    None
                } else {
                    Some(function)
                }
            }
        }
    }
}
