//! The parts of a DO.
ghost use Rattle.std.specs.Prelude.{◌≡◌, map, IfOk};
ghost use Rattle.affine_systems.specs.Given.{Fits};
ghost use Rattle.f77_ast.specs.PlainStmt.{loop_tree, maybe_tree};
ghost use Rattle.f77_ast.specs.Symbols.{symbol_tree, value_in};
ghost use Rattle.call_translation.specs.transformer_algebra.Loops.{LoopFits};
ghost use Rattle.call_translation.specs.Scopes.{scope_tree};
ghost use Rattle.transformers.specs.Loops.{counting as counting_is, step_of as step_of_is, number_in, loop_parts as loop_parts_is};

use affine_forms::{affine_of, is_cell};
use call_translation::CellScope;
use call_translation::transformer_algebra::{LoopParts, Transformer};
use f77_ast::{Constant, ConstantValue, Expr, Loop, Symbols, const_value_of};
use std::alloc::{AllocError as Memory, Global};

fn counting(const_value: ConstantValue) -> Option<i32>
    ensures { result ≡ counting_is const_value }
{
    match const_value {
        ConstantValue::Is(Constant::Int(n)) => { if n == 0 { None } else { Some(n) } }
        ConstantValue::Is(Constant::Log(_)) | ConstantValue::Faults | ConstantValue::Varies => None,
    }
}

/// The step: 1 where none was written; none where it is no constant, or 0.
fn step_of(symbols: &Symbols, step: &Option<Expr>) -> Option<i32>
    ensures { result ≡ step_of_is (value_in (map symbol_tree symbols.now)) (maybe_tree step.now) }
{
    match step {
        None => Some(1),
        Some(step) => counting(const_value_of(step, symbols)),
    }
}

/// The parts of a DO whose body has this transformer (ANSI X3.9-1978, §11.10). The step is 1 where none is written, and None where it is no
/// INTEGER constant or 0. `first` and `last` are None where they have no affine expression. The index is 0 where no symbol has its name.
pub fn loop_parts(
    alloc: Global,
    scope: &CellScope<'_>,
    l: &Loop,
    body: Transformer,
) -> Result<LoopParts, Memory>
    requires { Fits body.system }
    ensures defined { IfOk result (λ parts. parts ≡ loop_parts_is (scope_tree scope.now.symbols.now scope.now.tracked.now) (loop_tree l.now) body) }
    ensures fits { IfOk result LoopFits }
{
    let index = scope.symbols.number(&l.index).unwrap_or(0);
    Ok(LoopParts {
        index,
        tracked: is_cell(scope.tracked, index),
        step: step_of(scope.symbols, &l.step),
        first: affine_of(alloc, scope.symbols, scope.tracked, &l.first)?,
        last: affine_of(alloc, scope.symbols, scope.tracked, &l.last)?,
        body,
    })
}
