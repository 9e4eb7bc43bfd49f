//! What a module says of its names, and which of its statements are a DO WHILE.
ghost use Rattle.std.specs.Prelude.{◌≡◌, IfOk, map};
ghost use Rattle.f77_ast.specs.Plain.{expr_tree};
ghost use Rattle.f77_ast.specs.PlainDecl.{decl_tree, module_tree};
ghost use Rattle.f77_names.specs.Kinds.{kind_of_name, kind_or};
ghost use Rattle.f77_parser.specs.Functions.{bounded_names, declared_type, zero_of};
ghost use Rattle.f77_parser.specs.Elaborated.{meant_in};
ghost use Rattle.f77_parser.specs.Known.{meant};

use crate::functions::{integer_names, is_external, logical_names};
use crate::names::{NameSet, NumberSet};
use f77_ast::{Expr, Module, Scalar, StmtId};
use f77_names::{Kind, Kinds};
use fx_lists::Text;
use std::alloc::{AllocError as Memory, Global};

/// What tells the statements that stand for others.
#[derive(Drop)]
pub struct Known {
    /// The names with bounds.
    bounded: NameSet,
    /// Those of INTEGER statements.
    integers: NameSet,
    /// Those of LOGICAL statements.
    logicals: NameSet,
    /// The types of the letters.
    kinds: Kinds,
    /// The DO WHILEs.
    whiles: NumberSet,
}

#[tactic(auto, using(f77_ast::proofs::Plainly::expr_cases))]
fn zero_of(kind: Kind) -> Expr
    ensures { expr_tree result ≡ zero_of kind }
{
    match kind {
        Kind::Int | Kind::Real => Expr::Int(0),
        Kind::Log => Expr::Log(false),
    }
}

impl Known {
    /// What a module says, where these are its names with bounds.
    pub fn of(alloc: Global, bounded: NameSet, written: &Module) -> Result<Known, Memory>
        ensures { bounded ≡ bounded_names (map decl_tree written.now.decls) → IfOk result (λ known. meant known ≡ meant_in (module_tree written.now)) }
    {
        let integers = integer_names(alloc, &written.decls)?;
        let logicals = logical_names(alloc, &written.decls)?;
        let kinds = Kinds::of(alloc, &written.decls)?;
        let whiles = NumberSet::of(alloc, &written.whiles)?;
        Ok(Known {
            bounded,
            integers,
            logicals,
            kinds,
            whiles,
        })
    }

    /// Whether a name with arguments is that of a function subprogram.
    pub fn is_function(&self, name: &Text) -> bool
        ensures { result ≡ (meant self.now).is_function name.now }
    {
        is_external(&self.bounded, name)
    }

    /// Whether the block IF with a number is a DO WHILE.
    pub fn is_while(&self, id: StmtId) -> bool
        ensures { result ≡ (meant self.now).is_while id }
    {
        self.whiles.has(id)
    }

    /// The type that type statements give a name.
    fn declared_type(&self, name: &Text) -> Option<Scalar>
        ensures { result ≡ declared_type self.now.integers self.now.logicals name.now }
    {
        if self.logicals.has(name) {
            Some(Scalar::Log)
        } else if self.integers.has(name) {
            Some(Scalar::Int)
        } else {
            None
        }
    }

    fn kind_of(&self, name: &Text) -> Kind
        ensures { result ≡ kind_or (kind_of_name self.now.kinds name.now) (declared_type self.now.integers self.now.logicals name.now) }
    {
        match self.declared_type(name) {
            None => self.kinds.kind_of_name(name),
            Some(Scalar::Int) => Kind::Int,
            Some(Scalar::Log) => Kind::Log,
        }
    }

    /// With which the result of a function begins.
    pub fn start(&self, function: &Text) -> Expr
        ensures { expr_tree result ≡ (meant self.now).start function.now }
    {
        zero_of(self.kind_of(function))
    }
}
