//! What a module says of a name.
ghost use Rattle.std.specs.Prelude.{◌≡◌, is_some, true};
ghost use Rattle.f77_names.specs.Entries.{entry_tree, fresh, or_this, with_value};
ghost use Rattle.f77_names.specs.Words.{was_said, with_word};

use f77_ast::{Bound, Constant, Scalar};
use fx_lists::{List, Text};

/// The bounds of an array, the first dimension first, and the line of the statement that gives them.
#[derive(Debug, Drop)]
pub struct Shape {
    pub line: u32,
    pub bounds: List<Bound>,
}

/// A name, and what the statements of its module say of it. Of two declarations the first counts; lines are numbered from 1.
#[derive(Debug, Drop)]
pub struct Entry {
    pub name: Text,
    /// The line where the name is first.
    pub line: u32,
    /// Its number among the dummies, from 1.
    pub dummy: Option<u32>,
    /// Its declared type.
    pub scalar: Option<Scalar>,
    /// Its bounds; None for a scalar.
    pub shape: Option<Shape>,
    /// The line of its COMMON statement.
    pub common: Option<u32>,
    pub parameter: bool,
    /// The value of a PARAMETER, where it is known.
    pub value: Option<Constant>,
    /// Whether it is in SAVE by its own name.
    pub saved: bool,
    /// Whether it is in DATA.
    pub initial: bool,
}

/// One property that a statement gives a name.
#[derive(Drop)]
pub enum Word {
    /// Its number among the dummies, from 1.
    Dummy(u32),
    Type(Scalar),
    Bounds(Shape),
    /// The line of its COMMON statement.
    Common(u32),
    Parameter,
    /// The value of a PARAMETER.
    Value(Constant),
    Saved,
    Initial,
}

/// Sets a slot that is empty; a full one keeps what it has. Whether it was full.
pub fn keep_first<T: Drop>(slot: &mut Option<T>, new: T) -> bool
    ensures first { slot.new ≡ or_this slot.old new }
    ensures twice { result ≡ is_some slot.old }
{
    if slot.is_some() {
        return true;
    }
    *slot = Some(new);
    false
}

/// Whether it was so before.
fn make_true(flag: &mut bool) -> bool
    ensures now { flag.new ≡ true }
    ensures before { result ≡ flag.old }
{
    let before = *flag;
    *flag = true;
    before
}

impl Entry {
    /// A name of which nothing more is known.
    pub fn new(name: Text, line: u32) -> Entry
        ensures { entry_tree result ≡ fresh name line }
    {
        Entry {
            name,
            line,
            dummy: None,
            scalar: None,
            shape: None,
            common: None,
            parameter: false,
            value: None,
            saved: false,
            initial: false,
        }
    }

    /// A new value of a PARAMETER.
    fn set_value(&mut self, value: Constant) -> bool
        ensures entry { entry_tree self.new ≡ with_value value (entry_tree self.old) }
        ensures twice { result ≡ is_some self.old.value }
    {
        let before = self.value.is_some();
        self.value = Some(value);
        before
    }

    /// Gives the name one more property; whether it had one of that kind before. Of a dummy number, a type, bounds and COMMON the
    /// first counts, of a value the last.
    #[tactic(auto, using(crate::proofs::EntryLaws::words))]
    pub fn say(&mut self, word: Word) -> bool
        ensures entry { entry_tree self.new ≡ with_word word (entry_tree self.old) }
        ensures twice { result ≡ was_said word (entry_tree self.old) }
    {
        match word {
            Word::Dummy(number) => keep_first(&mut self.dummy, number),
            Word::Type(scalar) => keep_first(&mut self.scalar, scalar),
            Word::Bounds(shape) => keep_first(&mut self.shape, shape),
            Word::Common(line) => keep_first(&mut self.common, line),
            Word::Parameter => make_true(&mut self.parameter),
            Word::Value(value) => self.set_value(value),
            Word::Saved => make_true(&mut self.saved),
            Word::Initial => make_true(&mut self.initial),
        }
    }
}
