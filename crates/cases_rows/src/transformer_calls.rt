//! The calls on transformers.
ghost use Rattle.std.specs.Prelude.{IfOk};
ghost use Rattle.transformer_algebra.specs.Transformers.{AllFit};

use crate::decode_error::DecodeError;
use crate::rows::system_of;
use crate::transformers::transformer_of;
use crate::written::{system_text, transformer_text};
use std::alloc::Global;
use transformer_algebra::{Transformer, apply, iterate, one_of, then};

pub fn then_answer(alloc: Global, parts: &[&str]) -> Result<String, DecodeError> {
    match parts {
        [a, b] => {
            let a = transformer_of(alloc, a)?;
            let b = transformer_of(alloc, b)?;
            Ok(transformer_text(alloc, &then(alloc, &a, &b)?)?)
        }
        _ => Err(DecodeError::Malformed),
    }
}

pub fn apply_answer(alloc: Global, parts: &[&str]) -> Result<String, DecodeError> {
    match parts {
        [t, p] => {
            let t = transformer_of(alloc, t)?;
            let p = system_of(alloc, p)?;
            Ok(system_text(alloc, &apply(alloc, &t, &p)?)?)
        }
        _ => Err(DecodeError::Malformed),
    }
}

pub fn closed_answer(alloc: Global, parts: &[&str]) -> Result<String, DecodeError> {
    match parts {
        [t] => {
            let t = transformer_of(alloc, t)?;
            Ok(transformer_text(alloc, &iterate(alloc, &t)?)?)
        }
        _ => Err(DecodeError::Malformed),
    }
}

#[tactic(auto, using(crate::proofs::GivenSteps::arm_steps))]
fn arms_of(alloc: Global, parts: &[&str]) -> Result<Vec<Transformer>, DecodeError>
    ensures { IfOk result (λ ts. AllFit ts.items) }
{
    let mut arms = Vec::new(alloc);
    for part in parts {
        arms.push(transformer_of(alloc, part)?)?;
    }
    Ok(arms)
}

pub fn one_answer(alloc: Global, parts: &[&str]) -> Result<String, DecodeError> {
    let arms = arms_of(alloc, parts)?;
    Ok(transformer_text(alloc, &one_of(alloc, arms.as_slice())?)?)
}
