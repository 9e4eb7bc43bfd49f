//! The table of rules: what a result of each kind needs.
ghost use Rattle.std.specs.Prelude.{◌≡◌, ◌&&◌, ◌++◌, IfOk};
ghost use Rattle.pipsmake_rules.specs.Kinds.{same_kind};
ghost use Rattle.pipsmake_rules.specs.Table.{whose_number, same_whose, entry, entries, kinds_needed};

use crate::kind::Kind;
use fx_lists::List;
use std::alloc::{AllocError as Memory, Global};

/// The modules of which a rule needs results: the result's own, all of the program, those that its own calls, or those that call it.
#[derive(Clone, Copy, PartialEq, Eq)]
pub enum Whose {
    Own,
    All,
    Callees,
    Callers,
}

/// A result of the kind `kind` needs the results of the kind `need` of these modules.
#[derive(Clone, Copy, PartialEq, Eq)]
pub struct Rule {
    pub kind: Kind,
    pub whose: Whose,
    pub need: Kind,
}

macro_rules! rules {
    ($($kind:ident: $whose:ident $need:ident),* $(,)?) => {
        [$(Rule { kind: Kind::$kind, whose: Whose::$whose, need: Kind::$need }),*]
    };
}

/// The rules, by kind; those of a kind in the order in which its needs are made. `PARSED` and `LINES` need the text of their
/// module alone.
pub const RULES: [Rule; 62] = rules![
    Symbols: Own Parsed,
    CallGraph: All Parsed,
    CallGraph: All Symbols,
    Effects: Own Parsed,
    Effects: Own Symbols,
    Effects: Own CallGraph,
    Effects: Callees Symbols,
    Effects: Callees Effects,
    Transformers: Own Parsed,
    Transformers: Own Symbols,
    Transformers: Own CallGraph,
    Transformers: Own Effects,
    Transformers: Callees Symbols,
    Transformers: Callees Transformers,
    Preconditions: Own Parsed,
    Preconditions: Own Symbols,
    Preconditions: Own CallGraph,
    Preconditions: Own Transformers,
    Preconditions: Callers Parsed,
    Preconditions: Callers Symbols,
    Preconditions: Callers Preconditions,
    Regions: Own Parsed,
    Regions: Own Symbols,
    Regions: Own CallGraph,
    Regions: Own Transformers,
    Regions: Callees Symbols,
    Regions: Callees Regions,
    InRegions: Own Parsed,
    InRegions: Own Symbols,
    InRegions: Own CallGraph,
    InRegions: Own Transformers,
    InRegions: Own Regions,
    InRegions: Callees Symbols,
    InRegions: Callees InRegions,
    OutRegions: Own Parsed,
    OutRegions: Own Symbols,
    OutRegions: Own CallGraph,
    OutRegions: Own Transformers,
    OutRegions: Own Regions,
    OutRegions: Own InRegions,
    OutRegions: Callers Parsed,
    OutRegions: Callers Symbols,
    OutRegions: Callers Transformers,
    OutRegions: Callers OutRegions,
    Marks: Own Parsed,
    Marks: Own Symbols,
    Marks: Own CallGraph,
    Marks: Own Effects,
    Marks: Own Transformers,
    Marks: Own Preconditions,
    Marks: Own Regions,
    Marks: Own InRegions,
    Marks: Own OutRegions,
    Printed: Own Parsed,
    Printed: Own Lines,
    Printed: Own Symbols,
    Printed: Own Transformers,
    Printed: Own Preconditions,
    Printed: Own Regions,
    Printed: Own InRegions,
    Printed: Own OutRegions,
    Printed: Own Marks,
];

impl Whose {
    fn number(self) -> u8
        ensures { result ≡ whose_number self }
    {
        match self {
            Whose::Own => 0,
            Whose::All => 1,
            Whose::Callees => 2,
            Whose::Callers => 3,
        }
    }
}

/// Whether a rule is of a kind and of these modules.
fn is_entry(rule: &Rule, kind: Kind, whose: Whose) -> bool
    ensures { result ≡ (same_kind rule.now.kind kind && same_whose rule.now.whose whose) }
{
    rule.kind.number() == kind.number() && rule.whose.number() == whose.number()
}

/// Adds what a rule needs, if it is of a kind and of these modules.
fn put_entry(kinds: &mut List<Kind>, rule: &Rule, kind: Kind, whose: Whose) -> Result<(), Memory>
    ensures { IfOk result (λ _. kinds.new ≡ kinds.old ++ entry kind whose rule.now) }
{
    if is_entry(rule, kind, whose) {
        kinds.push(rule.need)?;
    }
    Ok(())
}

/// What the rules of a kind for these modules need, in order.
fn entries(alloc: Global, rules: &[Rule], kind: Kind, whose: Whose) -> Result<List<Kind>, Memory>
    ensures { IfOk result (λ kinds. kinds ≡ entries kind whose rules.now) }
{
    let mut kinds = List::new(alloc);
    let mut rest = rules;
    while let [rule, more @ ..] = rest {
        put_entry(&mut kinds, rule, kind, whose)?;
        rest = more;
    }
    Ok(kinds)
}

/// The kinds that a result of this kind needs of these modules, in order.
#[tactic(auto, using(crate::proofs::TableLaws::table))]
pub fn kinds_needed(alloc: Global, kind: Kind, whose: Whose) -> Result<List<Kind>, Memory>
    ensures { IfOk result (λ kinds. kinds ≡ kinds_needed kind whose) }
{
    entries(alloc, &RULES, kind, whose)
}
