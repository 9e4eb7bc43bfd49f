//! The lines of a text.

ghost use Rattle.std.specs.Prelude.{◌≡◌, ◌<◌, length};
ghost use Rattle.fixed_form.specs.TextLines.{without_returns};
ghost use Rattle.fixed_form.specs.Steps.{first_line, after_line};

/// The first line of a text without its LF, and the text after that LF; the last line may have none.
pub fn first_line(text: &[u8]) -> (&[u8], &[u8])
    requires { 0 < length text.now }
    ensures line { result.0.now ≡ first_line text.now }
    ensures rest { result.1.now ≡ after_line text.now }
    ensures shorter { length result.1.now < length text.now }
{
    let mut length = 0;
    let mut rest = text;
    while let [b, more @ ..] = rest {
        if *b == b'\n' {
            return (&text[..length], more);
        }
        length += 1;
        rest = more;
    }
    (text, rest)
}

/// A line without the CRs at its end.
#[tactic(auto, using(crate::proofs::TextLineLemmas::return_steps))]
pub fn without_returns(line: &[u8]) -> &[u8]
    ensures { result.now ≡ without_returns line.now }
{
    let mut rest = line;
    while let [more @ .., b] = rest {
        if *b != b'\r' {
            return rest;
        }
        rest = more;
    }
    rest
}
