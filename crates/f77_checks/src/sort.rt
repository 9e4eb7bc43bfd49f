//! The types of expressions (ANSI X3.9-1978 §6).
ghost use Rattle.std.specs.Prelude.{◌≡◌};
ghost use Rattle.f77_ast.specs.Plain.{expr_tree};
ghost use Rattle.f77_names.specs.Views.{table_tree};
ghost use Rattle.f77_checks.specs.Expressions.{fits, is_chars, is_int, is_log, logical_or_not, named_sort, sort_of, sort_of_kind};

use f77_ast::{Expr, gives_logical, turns_logical};
use f77_names::{Kind, NameTable};
use fx_lists::Text;

/// The type of an expression; it is unknown where a name is REAL, which is refused elsewhere.
#[derive(Clone, Copy, PartialEq, Eq)]
pub enum Sort {
    Int,
    Log,
    Chars,
    Unknown,
}

impl Sort {
    /// Whether it is INTEGER or unknown.
    pub fn is_int(self) -> bool
        ensures { result ≡ is_int self }
    {
        match self {
            Sort::Int | Sort::Unknown => true,
            Sort::Log | Sort::Chars => false,
        }
    }

    /// Whether it is LOGICAL or unknown.
    pub fn is_log(self) -> bool
        ensures { result ≡ is_log self }
    {
        match self {
            Sort::Log | Sort::Unknown => true,
            Sort::Int | Sort::Chars => false,
        }
    }

    /// Whether it is a character constant; an unknown type is none.
    pub fn is_chars(self) -> bool
        ensures { result ≡ is_chars self }
    {
        match self {
            Sort::Chars => true,
            Sort::Int | Sort::Log | Sort::Unknown => false,
        }
    }

    /// Whether a value of the type `other` can be assigned to a variable of this type, as far as both are known.
    pub fn fits(self, other: Sort) -> bool
        ensures { result ≡ fits self other }
    {
        match self {
            Sort::Int => other.is_int(),
            Sort::Log => other.is_log(),
            Sort::Chars => false,
            Sort::Unknown => !other.is_chars(),
        }
    }
}

/// The type of a variable, of which REAL counts as unknown.
pub fn sort_of_kind(kind: Kind) -> Sort
    ensures { result ≡ sort_of_kind kind }
{
    match kind {
        Kind::Int => Sort::Int,
        Kind::Log => Sort::Log,
        Kind::Real => Sort::Unknown,
    }
}

/// The type of a name, or of its elements: an intrinsic function gives INTEGER. Takes no memory.
pub fn named_sort(table: &NameTable, name: &Text) -> Sort
    ensures { result ≡ named_sort (table_tree table.now) name.now }
{
    match table.function_of(name) {
        None => sort_of_kind(table.kind_of(name)),
        Some(_) => Sort::Int,
    }
}

fn logical_or_not(logical: bool) -> Sort
    ensures { result ≡ logical_or_not logical }
{
    if logical { Sort::Log } else { Sort::Int }
}

/// The type of an expression by its outermost operator; operands are not checked. Takes no memory.
#[tactic(auto, using(f77_ast::proofs::Plainly::expr_calls))]
pub fn sort_of(table: &NameTable, e: &Expr) -> Sort
    ensures { result ≡ sort_of (table_tree table.now) (expr_tree e.now) }
{
    match e {
        Expr::Int(_) => Sort::Int,
        Expr::Log(_) => Sort::Log,
        Expr::Name(name) | Expr::Element(name, _) => named_sort(table, name),
        Expr::Paren(e) => sort_of(table, e),
        Expr::Unary(op, _) => logical_or_not(turns_logical(*op)),
        Expr::Binary(op, ..) => logical_or_not(gives_logical(*op)),
        Expr::Chars(_) => Sort::Chars,
    }
}
