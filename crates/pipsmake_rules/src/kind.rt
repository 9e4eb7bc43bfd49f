//! The kinds of results.
ghost use Rattle.std.specs.Prelude.{◌≡◌, ◌≢◌, IfSome, IfNone};
ghost use Rattle.pipsmake_rules.specs.declared.kind.Kind.{Kind};
ghost use Rattle.pipsmake_rules.specs.Kinds.{number_of, name_of, kind_with};

/// What is kept of a program, in the order in which a module's results are reported: a result needs none of a later kind.
#[derive(Clone, Copy, PartialEq, Eq)]
pub enum Kind {
    /// The statements of a module, without its lines and comments.
    Parsed,
    /// The lines and comments of a module.
    Lines,
    /// The table of symbols of a module.
    Symbols,
    /// The graph of the program, the one result that is of no module.
    CallGraph,
    /// The variables that each statement reads and writes.
    Effects,
    /// What each statement does to the analysed scalars.
    Transformers,
    /// What holds of the analysed scalars where each statement begins.
    Preconditions,
    /// The array elements that each statement reads and writes.
    Regions,
    /// The array elements whose values each statement takes over.
    InRegions,
    /// The array elements that are read after each statement.
    OutRegions,
    /// Which loops may run in parallel.
    Marks,
    /// The text of a module with what is known of its statements.
    Printed,
}

/// The kinds in their order.
pub const KINDS: [Kind; 12] = [
    Kind::Parsed,
    Kind::Lines,
    Kind::Symbols,
    Kind::CallGraph,
    Kind::Effects,
    Kind::Transformers,
    Kind::Preconditions,
    Kind::Regions,
    Kind::InRegions,
    Kind::OutRegions,
    Kind::Marks,
    Kind::Printed,
];

impl Kind {
    /// The place of the kind in their order, from 0.
    pub fn number(self) -> u8
        ensures { result ≡ number_of self }
    {
        match self {
            Kind::Parsed => 0,
            Kind::Lines => 1,
            Kind::Symbols => 2,
            Kind::CallGraph => 3,
            Kind::Effects => 4,
            Kind::Transformers => 5,
            Kind::Preconditions => 6,
            Kind::Regions => 7,
            Kind::InRegions => 8,
            Kind::OutRegions => 9,
            Kind::Marks => 10,
            Kind::Printed => 11,
        }
    }

    /// The name of the kind in commands and in stored results.
    pub fn name(self) -> &'static str
        ensures { result.now ≡ name_of self }
    {
        match self {
            Kind::Parsed => "PARSED",
            Kind::Lines => "LINES",
            Kind::Symbols => "SYMBOLS",
            Kind::CallGraph => "CALLGRAPH",
            Kind::Effects => "EFFECTS",
            Kind::Transformers => "TRANSFORMERS",
            Kind::Preconditions => "PRECONDITIONS",
            Kind::Regions => "REGIONS",
            Kind::InRegions => "IN_REGIONS",
            Kind::OutRegions => "OUT_REGIONS",
            Kind::Marks => "MARKS",
            Kind::Printed => "PRINTED",
        }
    }

    /// The kind of a name; None where no kind has it.
    pub fn with_name(name: &[u8]) -> Option<Kind>
        ensures found { IfSome result (λ kind. name_of kind ≡ name.now) }
        ensures none { IfNone result ((kind : Kind) → name_of kind ≢ name.now) }
    {
        kind_with(name)
    }
}

/// The first kind of a name.
fn kind_with(name: &[u8]) -> Option<Kind>
    ensures { result ≡ kind_with name.now }
{
    KINDS
        .iter()
        .copied()
        .find(|kind| kind.name().as_bytes() == name)
}
