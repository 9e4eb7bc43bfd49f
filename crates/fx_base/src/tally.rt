//! Counts of what a store could not do, for each role. They rise, up to the greatest value of their type.
ghost use Rattle.std.specs.Prelude.{◌≡◌};
ghost use Rattle.fx_base.specs.declared.store.Role.TheVariants.{Base};
ghost use Rattle.fx_base.specs.Counts.{Rose, raised_count};
ghost use Rattle.fx_base.specs.Tallies.{tally_of};
ghost use Rattle.fx_base.specs.Store.{OnlyCounts, OnlyBaseFaults};

use crate::Role;

/// Counts for one role. Each stops at the greatest u64.
#[derive(Clone, Copy, Debug, PartialEq, Eq)]
pub struct Tally {
    /// Fetches, and keeps, that failed.
    pub faults: u64,
    /// Fetches of a file that is not there.
    pub misses: u64,
    /// Fetches of a file with more bytes than the limit.
    pub overlong: u64,
}

/// The counts of each role.
#[derive(Clone, Copy, Debug, PartialEq, Eq)]
pub struct Tallies {
    pub input: Tally,
    pub base: Tally,
}

/// The count and 1, or the greatest u64 where it is that already.
pub fn next_count(count: u64) -> u64
    ensures { result ≡ raised_count count }
{
    count.saturating_add(1)
}

impl Tally {
    fn new() -> Tally {
        Tally {
            faults: 0,
            misses: 0,
            overlong: 0,
        }
    }
}

impl Tallies {
    /// All counts 0.
    pub fn new() -> Tallies {
        Tallies {
            input: Tally::new(),
            base: Tally::new(),
        }
    }

    /// Counts a failed fetch for a role.
    pub fn fault(&mut self, role: Role)
        ensures rose { Rose (tally_of self.old role).faults (tally_of self.new role).faults }
        ensures counts { OnlyCounts (tally_of self.old) (tally_of self.new) role }
    {
        match role {
            Role::Input => self.input.faults = next_count(self.input.faults),
            Role::Base => self.base.faults = next_count(self.base.faults),
        }
    }

    /// Counts, for a role, a fetch of a file that is not there.
    pub fn miss(&mut self, role: Role)
        ensures rose { Rose (tally_of self.old role).misses (tally_of self.new role).misses }
        ensures counts { OnlyCounts (tally_of self.old) (tally_of self.new) role }
    {
        match role {
            Role::Input => self.input.misses = next_count(self.input.misses),
            Role::Base => self.base.misses = next_count(self.base.misses),
        }
    }

    /// Counts, for a role, a fetch of a file with more bytes than the limit.
    pub fn overrun(&mut self, role: Role)
        ensures rose { Rose (tally_of self.old role).overlong (tally_of self.new role).overlong }
        ensures counts { OnlyCounts (tally_of self.old) (tally_of self.new) role }
    {
        match role {
            Role::Input => self.input.overlong = next_count(self.input.overlong),
            Role::Base => self.base.overlong = next_count(self.base.overlong),
        }
    }

    /// Counts a failed keep, for `Role::Base`.
    pub fn fault_of_keep(&mut self)
        ensures rose { Rose (tally_of self.old Base).faults (tally_of self.new Base).faults }
        ensures counts { OnlyBaseFaults (tally_of self.old) (tally_of self.new) }
    {
        self.base.faults = next_count(self.base.faults);
    }
}
