//! The private variables that a directive names.
ghost use Rattle.std.specs.Prelude.{◌≡◌, IfOk};
ghost use Rattle.privatizer.specs.Functions.{is_one_of as is_one_of_is};
ghost use Rattle.result_lines.specs.ShownMarks.{numbers_without as numbers_without_is};
ghost use Rattle.system_text.specs.SystemText.{name_at};

use fx_lists::{List, Text};
use privatizer::is_one_of;
use std::alloc::{AllocError as Memory, Global};

/// Whether the symbol with a number, from 1, has the name of one of the functions.
fn is_function(alloc: Global, functions: &List<Text>, names: &[Text], number: u32) -> bool
    ensures { result ≡ is_one_of_is functions.now (name_at names.now number) }
{
    if number == 0 {
        return is_one_of(functions, &Text::new(alloc));
    }
    match names.get(number as usize - 1) {
        None => is_one_of(functions, &Text::new(alloc)),
        Some(name) => is_one_of(functions, name),
    }
}

/// The numbers of the symbols that are none of the functions.
#[tactic(auto, using(crate::proofs::Steps::lines))]
pub fn numbers_without(
    alloc: Global,
    functions: &List<Text>,
    names: &[Text],
    numbers: &[u32],
) -> Result<List<u32>, Memory>
    ensures { IfOk result (λ left. left ≡ numbers_without_is functions.now names.now numbers.now) }
{
    let mut left = List::new(alloc);
    for number in numbers {
        if !is_function(alloc, functions, names, *number) {
            left.push(*number)?;
        }
    }
    Ok(left)
}
