//! The types that names have by their first letters (ANSI X3.9-1978 §4.1.2, §8.5).
ghost use Rattle.std.specs.Prelude.{◌≡◌, IfOk, map, None};
ghost use Rattle.std.specs.List.{list_any};
ghost use Rattle.f77_ast.specs.PlainDecl.{decl_tree};
ghost use Rattle.f77_names.specs.Kinds.{by_decl, by_parts, default_kind, implied_type, is_in_range, is_none_decl, kind_of_letter, kind_of_name, kind_of_scalar, kind_or, kinds_of};

use f77_ast::{Decl, ImplicitPart, Letters, Scalar};
use fx_lists::{List, Text};
use std::alloc::{AllocError as Memory, Global};
use std::marker::Model;

/// The type of a name; `Real` also where IMPLICIT NONE gives it none. A name with it is refused.
#[derive(Clone, Copy, Debug, PartialEq, Eq)]
pub enum Kind {
    Int,
    Log,
    Real,
}

/// The types of the letters A to Z.
#[derive(Drop)]
pub struct Kinds {
    of: Vec<Kind>,
}

impl Model for Kinds {
    ghost use Rattle.std.specs.Prelude.{List};
    ghost use Rattle.f77_names.specs.declared.kinds.Kind.{Kind};

    ghost Value = { List Kind };

    ghost view = { λ k. k.of.items };
}

/// A declared type.
pub fn kind_of_scalar(scalar: Scalar) -> Kind
    ensures { result ≡ kind_of_scalar scalar }
{
    match scalar {
        Scalar::Int => Kind::Int,
        Scalar::Log => Kind::Log,
    }
}

fn default_kind(none: bool, letter: u8) -> Kind
    ensures { result ≡ default_kind none letter }
{
    if none {
        Kind::Real
    } else if b'I' <= letter && letter <= b'N' {
        Kind::Int
    } else {
        Kind::Real
    }
}

fn is_none_decl(decl: &Decl) -> bool
    ensures { result ≡ is_none_decl (decl_tree decl.now) }
{
    match decl {
        Decl::Implicit(parts) => parts.is_none(),
        Decl::Integer(_)
        | Decl::Logical(_)
        | Decl::Dimension(_)
        | Decl::Parameter(_)
        | Decl::Common(_)
        | Decl::Equivalence(_)
        | Decl::Save(_)
        | Decl::Data(_) => false,
    }
}

#[tactic(auto, using(f77_ast::proofs::PlainlyDecl::decl_lists))]
fn has_none(decls: &List<Decl>) -> bool
    ensures { result ≡ list_any is_none_decl (map decl_tree decls.now) }
{
    for decl in decls.as_slice() {
        if is_none_decl(decl) {
            return true;
        }
    }
    false
}

fn is_in_range(letter: u8, range: Letters) -> bool
    ensures { result ≡ is_in_range letter range }
{
    range.first <= letter && letter <= range.last
}

fn is_in_ranges(letter: u8, ranges: &List<Letters>) -> bool
    ensures { result ≡ list_any (is_in_range letter) ranges.now }
{
    for range in ranges.as_slice() {
        if is_in_range(letter, *range) {
            return true;
        }
    }
    false
}

fn by_parts(letter: u8, parts: &List<ImplicitPart>, old: Option<Scalar>) -> Option<Scalar>
    ensures { result ≡ by_parts letter parts.now old }
{
    let mut scalar = old;
    for part in parts.as_slice() {
        if is_in_ranges(letter, &part.ranges) {
            scalar = Some(part.scalar);
        }
    }
    scalar
}

fn by_decl(letter: u8, decl: &Decl, old: Option<Scalar>) -> Option<Scalar>
    ensures { result ≡ by_decl letter (decl_tree decl.now) old }
{
    match decl {
        Decl::Implicit(None) => old,
        Decl::Implicit(Some(parts)) => by_parts(letter, parts, old),
        Decl::Integer(_)
        | Decl::Logical(_)
        | Decl::Dimension(_)
        | Decl::Parameter(_)
        | Decl::Common(_)
        | Decl::Equivalence(_)
        | Decl::Save(_)
        | Decl::Data(_) => old,
    }
}

/// The type that IMPLICIT statements give a letter.
#[tactic(auto, using(f77_ast::proofs::PlainlyDecl::decl_lists))]
fn implied_type(letter: u8, decls: &List<Decl>) -> Option<Scalar>
    ensures { result ≡ implied_type letter (map decl_tree decls.now) None }
{
    let mut scalar = None;
    for decl in decls.as_slice() {
        scalar = by_decl(letter, decl, scalar);
    }
    scalar
}

/// The type of a letter, where it is known whether there is an IMPLICIT NONE.
fn letter_kind(none: bool, letter: u8, decls: &List<Decl>) -> Kind
    ensures { result ≡ kind_or (default_kind none letter) (implied_type letter (map decl_tree decls.now) None) }
{
    match implied_type(letter, decls) {
        None => default_kind(none, letter),
        Some(scalar) => kind_of_scalar(scalar),
    }
}

impl Kinds {
    /// The types that the IMPLICIT statements give the letters; of two for a letter the last counts. A letter without one has
    /// INTEGER from I to N, else REAL, and REAL where there is an IMPLICIT NONE.
    pub fn of(alloc: Global, decls: &List<Decl>) -> Result<Kinds, Memory>
        ensures { IfOk result (λ k. k ≡ kinds_of (map decl_tree decls.now)) }
    {
        let none = has_none(decls);
        let mut of = Vec::new(alloc);
        for n in 0..26 {
            of.push(letter_kind(none, b'A' + n, decls))?;
        }
        Ok(Kinds { of })
    }

    /// The type of a name by its first letter.
    pub fn kind_of_name(&self, name: &Text) -> Kind
        ensures { result ≡ kind_of_name self.now name.now }
    {
        match name.as_slice() {
            [] => Kind::Real,
            [letter, ..] => self.kind_of_letter(*letter),
        }
    }

    fn kind_of_letter(&self, letter: u8) -> Kind
        ensures { result ≡ kind_of_letter self.now letter }
    {
        if letter < b'A' {
            return Kind::Real;
        }
        match self.of.get(usize::from(letter - b'A')) {
            None => Kind::Real,
            Some(kind) => *kind,
        }
    }
}
