//! The calls on expressions.

use crate::decode_error::DecodeError;
use crate::expressions::expression_of;
use crate::tables::table_of;
use crate::written::{affine_text, condition_text};
use affine_forms::{affine_of, condition_of};
use std::alloc::Global;

pub fn form_answer(alloc: Global, parts: &[&str]) -> Result<String, DecodeError> {
    match parts {
        [symbols, e] => {
            let table = table_of(alloc, symbols)?;
            let e = expression_of(alloc, e)?;
            match affine_of(alloc, &table.symbols, &table.tracked, &e)? {
                Some(f) => Ok(affine_text(alloc, &f)?),
                None => Ok(String::from_str(alloc, "none")?),
            }
        }
        _ => Err(DecodeError::Malformed),
    }
}

pub fn condition_answer(alloc: Global, parts: &[&str]) -> Result<String, DecodeError> {
    match parts {
        [symbols, e] => {
            let table = table_of(alloc, symbols)?;
            let e = expression_of(alloc, e)?;
            let c = condition_of(alloc, &table.symbols, &table.tracked, &e)?;
            Ok(condition_text(alloc, &c)?)
        }
        _ => Err(DecodeError::Malformed),
    }
}
