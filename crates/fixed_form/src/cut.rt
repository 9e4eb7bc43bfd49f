//! The first lines of a text, with their line ends.

ghost use Rattle.std.specs.Prelude.{◌≡◌};
ghost use Rattle.fixed_form.specs.Cuts.{first_lines, after_lines};

/// The first lines of a text, so many of them, and the text after them. A line ends with its LF; the last may have none. Takes
/// no memory, and time in proportion to these lines.
pub fn cut_after(text: &[u8], count: u32) -> (&[u8], &[u8])
    ensures first { result.0.now ≡ first_lines count text.now }
    ensures after { result.1.now ≡ after_lines count text.now }
{
    let mut left = count;
    let mut length = 0;
    let mut rest = text;
    while let [b, more @ ..] = rest {
        if left == 0 {
            break;
        }
        if *b == b'\n' {
            left -= 1;
        }
        length += 1;
        rest = more;
    }
    (&text[..length], rest)
}
