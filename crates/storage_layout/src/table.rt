//! The table of symbols, from what was laid out.
ghost use Rattle.std.specs.Prelude.{◌≡◌, IfOk, map};
ghost use Rattle.std.specs.List.{list_any};
ghost use Rattle.f77_ast.specs.PlainDecl.{decl_tree};
ghost use Rattle.f77_ast.specs.Symbols.{bound_tree};
ghost use Rattle.f77_names.specs.Entries.{maybe_shape};
ghost use Rattle.storage_layout.specs.Table.{bounds_in, is_empty, is_save_all, scalar_of};
ghost use Rattle.f77_ast.specs.PlainStmt.{maybe_tree};

use f77_ast::{Bound, Decl, Expr, SaveItem, Scalar, copy_expr};
use f77_names::{Kind, Shape};
use fx_lists::List;
use std::alloc::{AllocError as Memory, Global};

fn is_save(decl: &Decl) -> bool
    ensures { result ≡ is_save_all (decl_tree decl.now) }
{
    match decl {
        Decl::Save(items) => is_empty(items.as_slice()),
        Decl::Implicit(_)
        | Decl::Integer(_)
        | Decl::Logical(_)
        | Decl::Dimension(_)
        | Decl::Parameter(_)
        | Decl::Common(_)
        | Decl::Equivalence(_)
        | Decl::Data(_) => false,
    }
}

fn is_empty(items: &[SaveItem]) -> bool
    ensures { result ≡ is_empty items.now }
{
    match items {
        [] => true,
        [_, ..] => false,
    }
}

/// Whether one of these statements is a SAVE without a list (ANSI X3.9-1978, §8.9).
#[tactic(auto, using(f77_ast::proofs::PlainlyDecl::decl_lists))]
pub fn is_save_all(decls: &[Decl]) -> bool
    ensures { result ≡ list_any is_save_all (map decl_tree decls.now) }
{
    for decl in decls {
        if is_save(decl) {
            return true;
        }
    }
    false
}

/// The type of a symbol. A REAL name, which is refused elsewhere, counts as INTEGER.
pub fn scalar_of(kind: Kind) -> Scalar
    ensures { result ≡ scalar_of kind }
{
    match kind {
        Kind::Int | Kind::Real => Scalar::Int,
        Kind::Log => Scalar::Log,
    }
}

fn copy_maybe(alloc: Global, e: &Option<Expr>) -> Result<Option<Expr>, Memory>
    ensures { IfOk result (λ r. maybe_tree r ≡ maybe_tree e.now) }
{
    match e {
        None => Ok(None),
        Some(e) => Ok(Some(copy_expr(alloc, e)?)),
    }
}

fn copy_bound(alloc: Global, bound: &Bound) -> Result<Bound, Memory>
    ensures { IfOk result (λ b. bound_tree b ≡ bound_tree bound.now) }
{
    Ok(Bound {
        low: copy_expr(alloc, &bound.low)?,
        high: copy_maybe(alloc, &bound.high)?,
    })
}

#[tactic(auto, using(f77_ast::proofs::PlainlyDecl::decl_lists))]
fn copy_bounds(alloc: Global, bounds: &[Bound]) -> Result<List<Bound>, Memory>
    ensures { IfOk result (λ bs. map bound_tree bs ≡ map bound_tree bounds.now) }
{
    let mut copied = List::new(alloc);
    for bound in bounds {
        copied.push(copy_bound(alloc, bound)?)?;
    }
    Ok(copied)
}

/// Copies of the bounds of an array, in the order of its dimensions; none of a scalar.
pub fn bounds_in(alloc: Global, shape: &Option<Shape>) -> Result<List<Bound>, Memory>
    ensures { IfOk result (λ bs. map bound_tree bs ≡ bounds_in (maybe_shape shape.now)) }
{
    match shape {
        None => Ok(List::new(alloc)),
        Some(shape) => copy_bounds(alloc, shape.bounds.as_slice()),
    }
}
