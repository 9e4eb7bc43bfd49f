//! The order of variables, which is also that of what is written of them.
ghost use Rattle.std.specs.Prelude.{◌≡◌, ◌++◌, ◌∷◌, length, slice_get};
ghost use Rattle.std.specs.Ordering.{nat_cmp};
ghost use Rattle.f77_ast.specs.Variables.{variable_text, text_cmp, variable_cmp, same_variable};

use crate::Variable;
use std::cmp::Ordering;

/// The byte at a place of a text with a byte and another text behind it.
fn joined_byte(text: &[u8], between: u8, more: &[u8], at: usize) -> Option<u8>
    ensures { result ≡ slice_get (text.now ++ between ∷ more.now) at }
{
    if at < text.len() {
        return Some(text[at]);
    }
    let behind = at - text.len();
    if behind == 0 {
        return Some(between);
    }
    more.get(behind - 1).copied()
}

/// The byte at a place of what is written of a variable of another module.
fn byte_at(v: &Variable, at: usize) -> Option<u8>
    ensures { result ≡ slice_get (variable_text v.now) at }
{
    match v {
        Variable::Own(_) => None,
        Variable::Block(block) => {
            if at == 0 {
                return Some(b'/');
            }
            joined_byte(block.as_slice(), b'/', b"", at - 1)
        }
        Variable::Saved(module, local) => {
            joined_byte(module.as_slice(), b':', local.as_slice(), at)
        }
    }
}

/// How many bytes are written of a variable of another module.
fn written_len(v: &Variable) -> usize
    ensures { result ≡ length (variable_text v.now) }
{
    match v {
        Variable::Own(_) => 0,
        Variable::Block(block) => block.as_slice().len() + 2,
        Variable::Saved(module, local) => { module.as_slice().len() + local.as_slice().len() + 1 }
    }
}

/// The order of what is written of variables of other modules, byte by byte.
fn text_order(v: &Variable, w: &Variable) -> Ordering
    ensures { result ≡ text_cmp (variable_text v.now) (variable_text w.now) }
{
    let count = written_len(v);
    for at in 0..count {
        match (byte_at(v, at), byte_at(w, at)) {
            (Some(x), Some(y)) => {
                if x < y {
                    return Ordering::Less;
                }
                if y < x {
                    return Ordering::Greater;
                }
            }
            (Some(_), None) => return Ordering::Greater,
            (None, Some(_)) => return Ordering::Less,
            (None, None) => return Ordering::Equal,
        }
    }
    match byte_at(w, count) {
        None => Ordering::Equal,
        Some(_) => Ordering::Less,
    }
}

/// The order of variables: own symbols by their numbers, then blocks and saved variables of other modules by what is written of
/// them, byte by byte. Takes no memory.
pub fn order(v: &Variable, w: &Variable) -> Ordering
    ensures { result ≡ variable_cmp v.now w.now }
{
    match (v, w) {
        (Variable::Own(m), Variable::Own(n)) => m.cmp(n),
        (Variable::Own(_), Variable::Block(_) | Variable::Saved(..)) => Ordering::Less,
        (Variable::Block(_) | Variable::Saved(..), Variable::Own(_)) => Ordering::Greater,
        (Variable::Block(_) | Variable::Saved(..), Variable::Block(_) | Variable::Saved(..)) => {
            text_order(v, w)
        }
    }
}

/// Whether both are one variable. Takes no memory.
pub fn same_variable(v: &Variable, w: &Variable) -> bool
    ensures { result ≡ same_variable v.now w.now }
{
    match order(v, w) {
        Ordering::Equal => true,
        Ordering::Less | Ordering::Greater => false,
    }
}
