//! Values that are given to units in order.
ghost use Rattle.std.specs.Prelude.{◌≡◌, ◌++◌, ◌∷◌, [], IfOk, OnOk, reverse};
ghost use Rattle.storage_data.specs.Initials.{dealt, piece_of, taken, taken_for};

use crate::numbers::sum;
use crate::targets::Target;
use crate::values::Run;
use f77_ast::Constant;
use fx_lists::List;
use std::alloc::{AllocError as Memory, Global};

/// Units of one variable that DATA gives one value: the place of the name in the table of names, from 0; the first unit,
/// counted from that of the variable; how many units; and the value, None where it is no literal.
#[derive(Clone, Copy)]
pub struct Piece {
    pub place: usize,
    pub offset: u64,
    pub count: u64,
    pub value: Option<Constant>,
}

/// The values in the opposite order, so that the next one is the last.
fn reverse_runs(runs: List<Run>) -> List<Run>
    ensures { result ≡ reverse runs }
{
    let mut turned = runs.into_vec();
    turned.reverse();
    List::from_vec(turned)
}

/// Pieces in the order of the units, and the values that are left, the next one last.
#[derive(Drop)]
struct Dealing {
    pieces: List<Piece>,
    left: List<Run>,
}

impl Dealing {
    ghost use Rattle.storage_data.specs.Initials.{Takes};

    fn give(&mut self, place: usize, offset: u64, count: u64, run: Run) -> Result<(), Memory>
        ensures pieces { OnOk result (self.new.pieces ≡ self.old.pieces ++ piece_of place offset count run ∷ []) }
        ensures left { self.new.left ≡ self.old.left }
    {
        self.pieces.push(Piece {
            place,
            offset,
            count,
            value: run.value,
        })
    }

    /// The next values for so many units of the name at a place.
    #[tactic(auto, using(crate::proofs::DealLaws::deal_steps))]
    fn take(&mut self, place: usize, mut offset: u64, mut count: u64) -> Result<(), Memory>
        ensures { OnOk result (Takes (taken place offset count (reverse self.old.left)) self.old.pieces self.new.pieces self.new.left) }
    {
        while let Some(run) = self.left.pop() {
            if count == 0 {
                return self.left.push(run);
            }
            if count < run.count {
                self.give(place, offset, count, run)?;
                return self.left.push(Run {
                    count: run.count - count,
                    value: run.value,
                });
            }
            self.give(place, offset, run.count, run)?;
            offset = sum(offset, run.count)?;
            count -= run.count;
        }
        Ok(())
    }

    #[tactic(auto, using(crate::proofs::DealLaws::deal_steps))]
    fn take_for(&mut self, target: Target) -> Result<(), Memory>
        ensures { OnOk result (Takes (taken_for target (reverse self.old.left)) self.old.pieces self.new.pieces self.new.left) }
    {
        match target {
            Target::Excluded | Target::Open => Ok(()),
            Target::Covers(place, offset, count) => self.take(place, offset, count),
        }
    }
}

/// The pieces that result where the targets take the values one after another, one for each unit that they cover, in the order
/// of the text (ANSI X3.9-1978, §9). Values left over are dropped; targets past the last value get none.
#[tactic(auto, using(crate::proofs::DealLaws::deal_steps))]
pub fn dealt(alloc: Global, targets: &[Target], runs: List<Run>) -> Result<List<Piece>, Memory>
    ensures { IfOk result (λ ps. ps ≡ dealt targets.now runs) }
{
    let mut dealing = Dealing {
        pieces: List::new(alloc),
        left: reverse_runs(runs),
    };
    for target in targets {
        dealing.take_for(*target)?;
    }
    let Dealing { pieces, left: _ } = dealing;
    Ok(pieces)
}
