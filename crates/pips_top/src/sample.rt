//! The text of a program of loops and CALLs.
ghost use Rattle.std.specs.Prelude.{◌≡◌, ◌++◌, IfOk, OnOk, string_bytes};
ghost use Rattle.pips_top.specs.Sample.{sum_part, recurrence_part, stride_part, part, parts_to, sample_program};

use fx_lists::Text;
use std::alloc::{AllocError as Memory, Global};

/// Iterations that do not depend on one another.
fn sum_part(alloc: Global, k: u8) -> Result<String, Memory>
    ensures { IfOk result (λ s. string_bytes s ≡ sum_part k) }
{
    format!(in alloc; "      DO I=1,100\n      A(I)=B(I)+{k}\n      END DO\n")
}

/// Iterations each of which reads what the one before wrote.
fn recurrence_part(alloc: Global, k: u8) -> Result<String, Memory>
    ensures { IfOk result (λ s. string_bytes s ≡ recurrence_part k) }
{
    format!(in alloc; "      DO I=2,100\n      A(I)=A(I-1)+{k}\n      END DO\n")
}

/// Iterations that read every second element.
fn stride_part(alloc: Global, k: u8) -> Result<String, Memory>
    ensures { IfOk result (λ s. string_bytes s ≡ stride_part k) }
{
    format!(in alloc; "      DO I=1,50\n      B(I)=A(2*I)+{k}\n      END DO\n")
}

/// Adds the part with this number, from 1: by the rest of its division by 4, a loop or a CALL.
fn add_part(alloc: Global, out: &mut Text, k: u8) -> Result<(), Memory>
    ensures { OnOk result (out.new ≡ out.old ++ part k) }
{
    match k % 4 {
        0 => out.append(sum_part(alloc, k)?.as_bytes()),
        1 => out.append(recurrence_part(alloc, k)?.as_bytes()),
        2 => out.append(stride_part(alloc, k)?.as_bytes()),
        _ => out.append(b"      CALL S(A,100)\n"),
    }
}

/// The parts 1 to `count` behind a text.
#[tactic(auto, using(crate::proofs::Parts::part_steps))]
fn add_parts(alloc: Global, out: &mut Text, count: u8) -> Result<(), Memory>
    ensures { OnOk result (out.new ≡ out.old ++ parts_to count) }
{
    for k in 0..count {
        add_part(alloc, out, k + 1)?;
    }
    Ok(())
}

/// A main program of `count` parts, loops and CALLs in turn, with the subroutine that it calls. Linear in `count`.
pub fn sample_program(alloc: Global, count: u8) -> Result<Text, Memory>
    ensures { IfOk result (λ text. text ≡ sample_program count) }
{
    let mut out = Text::from_bytes(
        alloc,
        b"      PROGRAM G\n      INTEGER A(100),B(100)\n      DATA A/100*0/,B/100*0/\n",
    )?;
    add_parts(alloc, &mut out, count)?;
    out.append(
        b"      END\n      SUBROUTINE S(X,N)\n      INTEGER X(N)\n      DO I=1,N\n      X(I)=X(I)+1\n      END DO\n      END\n",
    )?;
    Ok(out)
}
