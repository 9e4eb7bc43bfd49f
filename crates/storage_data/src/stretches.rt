//! Units that have an initial value.
ghost use Rattle.std.specs.Prelude.{◌≡◌, ◌++◌, ◌+ℤ◌, ◌∷◌, [], Some, IfOk, OnOk, pos};
ghost use Rattle.storage_data.specs.Initials.{meet_twice, meets, meets_some, stretch_at, stretch_of, stretches_of};

use crate::numbers::as_offset;
use crate::targets::Target;
use crate::{Groups, Home, OffsetNode};
use fx_lists::List;
use std::alloc::{AllocError as Memory, Global};

/// Units of a group, as offsets from its unit 0: the first, and the one after the last.
#[derive(Clone, Copy)]
pub struct Stretch {
    pub home: Home,
    pub from: i64,
    pub end: i64,
}

fn end_of(from: i64, count: u64) -> Result<i64, Memory>
    ensures { IfOk result (λ n. n ≡ from +ℤ pos count) }
{
    match from.checked_add(as_offset(count)?) {
        None => Err(Memory),
        Some(end) => Ok(end),
    }
}

fn stretch_at(offset_node: OffsetNode, offset: u64, count: u64) -> Result<Stretch, Memory>
    ensures { IfOk result (λ s. s ∷ [] ≡ stretch_at (Some offset_node) offset count) }
{
    let from = end_of(offset_node.offset, offset)?;
    Ok(Stretch {
        home: offset_node.home,
        from,
        end: end_of(from, count)?,
    })
}

fn add_stretch(
    offset_nodes: &Groups,
    target: Target,
    stretches: &mut List<Stretch>,
) -> Result<(), Memory>
    ensures { OnOk result (stretches.new ≡ stretches.old ++ stretch_of offset_nodes.now target) }
{
    match target {
        Target::Excluded | Target::Open => Ok(()),
        Target::Covers(place, offset, count) => match offset_nodes.offset_node(place) {
            None => Ok(()),
            Some(offset_node) => stretches.push(stretch_at(offset_node, offset, count)?),
        },
    }
}

/// The units that targets cover, one stretch for each target that covers some, in their order. Err also where an offset leaves
/// 64 bits.
#[tactic(auto, using(f77_ast::proofs::PlainlyDecl::decl_lists))]
pub fn stretches_of(
    alloc: Global,
    offset_nodes: &Groups,
    targets: &[Target],
) -> Result<List<Stretch>, Memory>
    ensures { IfOk result (λ ss. ss ≡ stretches_of offset_nodes.now targets.now) }
{
    let mut stretches = List::new(alloc);
    for target in targets {
        add_stretch(offset_nodes, *target, &mut stretches)?;
    }
    Ok(stretches)
}

impl Stretch {
    fn meets(self, other: Stretch) -> bool
        ensures { result ≡ meets self other }
    {
        self.home.is_same(other.home) && self.from < other.end && other.from < self.end
    }
}

fn meets_some(stretch: Stretch, before: &[Stretch]) -> bool
    ensures { result ≡ meets_some stretch before.now }
{
    for other in before {
        if stretch.meets(*other) {
            return true;
        }
    }
    false
}

/// Adds stretches to those before; whether one of them shares a unit with one before it, old or new. Quadratic: each is
/// compared with all before it.
#[tactic(auto, using(crate::proofs::TestLaws::twice_steps))]
pub fn meet_twice(before: &mut List<Stretch>, new: &[Stretch]) -> Result<bool, Memory>
    ensures answer { IfOk result (λ b. b ≡ meet_twice before.old new.now) }
    ensures all { OnOk result (before.new ≡ before.old ++ new.now) }
{
    let mut twice = false;
    for stretch in new {
        twice = twice || meets_some(*stretch, before.as_slice());
        before.push(*stretch)?;
    }
    Ok(twice)
}
