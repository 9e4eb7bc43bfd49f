//! Parentheses and character constants of a statement.

ghost use Rattle.std.specs.Prelude.{◌≡◌, ◌+◌, ◌<◌, ◌^◌, length};
ghost use Rattle.f77_forms.specs.Words.{slice_now};
ghost use Rattle.f77_forms.specs.Outline.{step, is_outer, is_one_deep, has_comma, marks_of, rest_after_close, front};

/// What precedes a character: how many parentheses opened and closed outside character constants, and whether a constant is open.
#[derive(Clone, Copy)]
pub struct Outline {
    pub opens: usize,
    pub closes: usize,
    pub quoted: bool,
}

/// Whether a statement has an `=` outside parentheses and character constants, and a comma outside them after the first such `=`.
#[derive(Clone, Copy)]
pub enum Marks {
    NoEqual,
    Equal,
    EqualAndComma,
}

impl Outline {
    fn front() -> Outline
        ensures { result ≡ front }
    {
        Outline {
            opens: 0,
            closes: 0,
            quoted: false,
        }
    }

    fn step(self, c: u8) -> Outline
        requires opens { self.opens < 2 ^ 63 }
        requires closes { self.closes < 2 ^ 63 }
        ensures { result ≡ step c self }
    {
        let Outline {
            opens,
            closes,
            quoted,
        } = self;
        if c == b'\'' {
            return Outline {
                opens,
                closes,
                quoted: !quoted,
            };
        }
        if quoted {
            return self;
        }
        if c == b'(' {
            return Outline {
                opens: opens + 1,
                closes,
                quoted,
            };
        }
        if c == b')' {
            return Outline {
                opens,
                closes: closes + 1,
                quoted,
            };
        }
        self
    }

    fn is_outer(self) -> bool
        ensures { result ≡ is_outer self }
    {
        !self.quoted && self.opens <= self.closes
    }

    fn is_one_deep(self) -> bool
        requires { self.closes < 2 ^ 63 }
        ensures { result ≡ is_one_deep self }
    {
        !self.quoted && self.opens == self.closes + 1
    }
}

fn has_comma(start: Outline, text: &[u8]) -> bool
    requires opens { start.opens + length text.now < 2 ^ 63 }
    requires closes { start.closes + length text.now < 2 ^ 63 }
    ensures { result ≡ has_comma start text.now }
{
    let mut outline = start;
    for c in text {
        if *c == b',' && outline.is_outer() {
            return true;
        }
        outline = outline.step(*c);
    }
    false
}

/// The marks of a stripped statement.
pub fn marks_of(text: &[u8]) -> Marks
    requires { length text.now < 2 ^ 63 }
    ensures { result ≡ marks_of front text.now }
{
    let mut outline = Outline::front();
    let mut rest = text;
    while let [c, more @ ..] = rest {
        if *c == b'=' && outline.is_outer() {
            if has_comma(outline, more) {
                return Marks::EqualAndComma;
            }
            return Marks::Equal;
        }
        outline = outline.step(*c);
        rest = more;
    }
    Marks::NoEqual
}

/// What follows the parenthesis that closes the one at the front of a text; None where it is not closed.
pub fn rest_after_close(text: &[u8]) -> Option<&[u8]>
    requires { length text.now < 2 ^ 63 }
    ensures { slice_now result ≡ rest_after_close front text.now }
{
    let mut outline = Outline::front();
    let mut rest = text;
    while let [c, more @ ..] = rest {
        if *c == b')' && outline.is_one_deep() {
            return Some(more);
        }
        outline = outline.step(*c);
        rest = more;
    }
    None
}
