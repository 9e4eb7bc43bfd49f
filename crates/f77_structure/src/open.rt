//! An open block, and the lists of statements of a module.
ghost use Rattle.std.specs.Prelude.{◌≡◌};
ghost use Rattle.f77_structure.specs.Opens.{ends_at, is_if, is_plain_do, can_spoil, within_if, within_do, fits, contains};

/// What opened a block; `Else` is a block IF after its ELSE.
#[derive(Clone, Copy, Debug)]
pub enum Kind {
    /// The label of the last statement of the DO, where it has one.
    Do(Option<u32>),
    If,
    Else,
}

/// Which open block a statement divides or ends.
#[derive(Clone, Copy)]
pub enum Sought {
    BlockIf,
    /// A DO without a label.
    PlainDo,
    /// No block: END of the module.
    Neither,
}

/// An open block.
#[derive(Clone, Copy, Debug)]
pub struct Open {
    pub kind: Kind,
    /// The line of its opening.
    pub line: u32,
    /// The place of its list among the lists of the module, and that of the statement that opened the list, both from 0.
    pub list: usize,
    pub from: usize,
    /// Whether its label was at a statement that may not end it.
    pub spoiled: bool,
    /// Whether a block IF, and a DO without a label, is open around it.
    pub in_if: bool,
    pub in_do: bool,
}

/// Whether a list of statements is still open, or the place of the statement that closed it, from 0.
#[derive(Clone, Copy, Debug)]
pub enum End {
    Open,
    At(usize),
}

/// A list of statements: the place of the statement that opened it, from 0, and 0 for the module's own; and its end.
#[derive(Clone, Copy, Debug)]
pub struct Span {
    pub from: usize,
    pub end: End,
}

impl Kind {
    /// Whether it is a DO whose last statement is to have this label.
    pub fn ends_at(self, label: u32) -> bool
        ensures { result ≡ ends_at label self }
    {
        match self {
            Kind::Do(Some(own)) => own == label,
            Kind::Do(None) => false,
            Kind::If => false,
            Kind::Else => false,
        }
    }

    /// Whether it is a block IF, before or after its ELSE.
    pub fn is_if(self) -> bool
        ensures { result ≡ is_if self }
    {
        match self {
            Kind::Do(_) => false,
            Kind::If | Kind::Else => true,
        }
    }

    fn is_plain_do(self) -> bool
        ensures { result ≡ is_plain_do self }
    {
        match self {
            Kind::Do(None) => true,
            Kind::Do(Some(_)) => false,
            Kind::If => false,
            Kind::Else => false,
        }
    }
}

impl Sought {
    /// Whether a block of this kind is one that is sought.
    pub fn fits(self, kind: Kind) -> bool
        ensures { result ≡ fits self kind }
    {
        match self {
            Sought::BlockIf => kind.is_if(),
            Sought::PlainDo => kind.is_plain_do(),
            Sought::Neither => false,
        }
    }
}

impl Open {
    /// Whether it is a DO to this label that is not spoiled yet.
    #[tactic(auto, unfolding(crate::specs::Opens::can_spoil))]
    pub fn can_spoil(self, label: u32) -> bool
        ensures { result ≡ can_spoil label self }
    {
        self.kind.ends_at(label) && !self.spoiled
    }
}

/// Whether a block IF is open, where `innermost` is the innermost open block.
pub fn within_if(innermost: Option<Open>) -> bool
    ensures { result ≡ within_if innermost }
{
    match innermost {
        None => false,
        Some(block) => block.kind.is_if() || block.in_if,
    }
}

/// Whether a DO without a label is open, where `innermost` is the innermost open block.
pub fn within_do(innermost: Option<Open>) -> bool
    ensures { result ≡ within_do innermost }
{
    match innermost {
        None => false,
        Some(block) => block.kind.is_plain_do() || block.in_do,
    }
}

impl Span {
    /// Whether the statement at a place is in the list or in a block of it, or is the one that opened or closed the list.
    #[tactic(auto, unfolding(crate::specs::Opens::contains))]
    pub fn contains(self, place: usize) -> bool
        ensures { result ≡ contains self place }
    {
        match self.end {
            End::Open => self.from <= place,
            End::At(until) => self.from <= place && place <= until,
        }
    }
}
