//! Variables, terms, rows and systems.

use fx_lists::List;
use std::cmp::Ordering;

/// A variable of a row. They are ordered by the variants, as written here, then by the numbers.
#[derive(Clone, Copy, PartialEq, Eq, Debug)]
pub enum Var {
    /// An analysed scalar before a statement, by the number of its symbol, from 1.
    Cell(u32),
    /// The same scalar after the statement, by the same number.
    Exit(u32),
    /// The subscript of an array element with this number, from 1.
    Phi(u8),
    /// An auxiliary (existential) variable.
    Aux(u32),
}

impl Var {
    ghost use Rattle.std.specs.Prelude.{◌≡◌};
    ghost use Rattle.affine_systems.specs.Terms.{kind as kind_of, number as number_of, var_eq, var_lt};
    ghost use Rattle.affine_systems.specs.Rows.{var_cmp};

    /// The index of its variant, from 0 in the order of the variants.
    pub(crate) fn kind(self) -> u32
        ensures { result ≡ kind_of self }
    {
        match self {
            Var::Cell(_) => 0,
            Var::Exit(_) => 1,
            Var::Phi(_) => 2,
            Var::Aux(_) => 3,
        }
    }

    /// The number in its variant.
    pub(crate) fn number(self) -> u32
        ensures { result ≡ number_of self }
    {
        match self {
            Var::Cell(n) => n,
            Var::Exit(n) => n,
            Var::Phi(n) => n as u32,
            Var::Aux(n) => n,
        }
    }

    /// The order of two variables: of their variants, then of their numbers.
    pub fn order(self, other: Var) -> Ordering
        ensures { result ≡ var_cmp self other }
    {
        self.kind()
            .cmp(&other.kind())
            .then(self.number().cmp(&other.number()))
    }

    #[tactic(auto, unfolding(crate::specs::Terms::var_eq))]
    /// Whether both are the same variable.
    pub fn is_same(self, other: Var) -> bool
        ensures { result ≡ var_eq self other }
    {
        self.kind() == other.kind() && self.number() == other.number()
    }

    #[tactic(auto, unfolding(crate::specs::Terms::var_lt))]
    /// Whether it comes before another.
    pub fn is_before(self, other: Var) -> bool
        ensures { result ≡ var_lt self other }
    {
        self.kind() < other.kind()
            || (self.kind() == other.kind() && self.number() < other.number())
    }
}

/// A variable times its factor.
#[derive(Clone, Copy, PartialEq, Eq, Debug)]
pub struct Term {
    pub var: Var,
    pub factor: i128,
}

/// A sum of terms: in ascending order of variables, each once, no factor 0.
pub type Terms = List<Term>;

/// An affine constraint: the sum of the terms is the bound, where `equal`, or else at most the bound.
#[derive(Clone, PartialEq, Eq, Debug, Drop)]
pub struct Row {
    pub equal: bool,
    pub terms: Terms,
    pub bound: i128,
}

/// Rows that hold together. In a tidied system they are in the order of rows: equal rows first, then fewer terms, then
/// by variables and factors.
pub type Rows = List<Row>;

/// A conjunction of rows, without rows the universe. Where `weak` it is over-approximated: a row was lost by a limit.
#[derive(Clone, PartialEq, Eq, Debug, Drop)]
pub struct System {
    pub rows: Rows,
    pub weak: bool,
}

/// A list of variables, in any order.
pub type Vars = List<Var>;

/// What normalising makes of a row.
#[derive(Clone, Copy, PartialEq, Eq, Debug)]
pub enum Norm {
    /// It is in normal form.
    Kept,
    /// It is trivial: it holds at each point.
    True,
    /// It is infeasible.
    False,
    /// A number of its normal form reaches 2^62 in magnitude.
    TooBig,
}

/// A system without a variable. Where it is `exact`, each point of it extends to one of the system before the
/// elimination.
#[derive(Clone, PartialEq, Eq, Debug, Drop)]
pub struct Elim {
    pub system: System,
    pub exact: bool,
}
