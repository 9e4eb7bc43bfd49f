//! How deep the parentheses of a statement are nested.
ghost use Rattle.std.specs.Prelude.{◌≡◌, ◌<◌, ◌≤◌, ◌+◌, ◌^◌, length};
ghost use Rattle.f77_structure.specs.Depth.{passes, after, is_deep};

use crate::blocks::DEEPEST;

/// What precedes a character: how many parentheses are open, and whether a character constant is.
#[derive(Clone, Copy)]
pub struct Depth {
    pub opened: usize,
    pub quoted: bool,
}

impl Depth {
    /// Whether the character opens a parenthesis too many.
    fn passes(self, c: u8) -> bool
        ensures { result ≡ passes c self }
    {
        c == b'(' && !self.quoted && DEEPEST <= self.opened
    }

    fn after(self, c: u8) -> Depth
        requires { self.opened < 2 ^ 63 }
        ensures defined { result ≡ after c self }
        ensures grows { result.opened ≤ self.opened + 1 }
    {
        let Depth { opened, quoted } = self;
        if c == b'\'' {
            return Depth {
                opened,
                quoted: !quoted,
            };
        }
        if quoted {
            return self;
        }
        if c == b'(' {
            return Depth {
                opened: opened + 1,
                quoted,
            };
        }
        if c == b')' && 0 < opened {
            return Depth {
                opened: opened - 1,
                quoted,
            };
        }
        self
    }
}

/// Whether more than 64 parentheses of a stripped statement are open at once, outside character constants.
pub fn is_deep(body: &[u8]) -> bool
    requires { length body.now < 2 ^ 28 }
    ensures { result ≡ is_deep body.now }
{
    let mut depth = Depth {
        opened: 0,
        quoted: false,
    };
    let mut rest = body;
    while let [c, more @ ..] = rest {
        if depth.passes(*c) {
            return true;
        }
        depth = depth.after(*c);
        rest = more;
    }
    false
}
