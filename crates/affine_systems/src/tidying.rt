//! Tidying: normal rows, one for each list of terms, in order, with the pivots of equal rows substituted.
ghost use Rattle.std.specs.Prelude.{◌≡◌, List as Elements, IfOk};
ghost use Rattle.affine_systems.specs.Given.{ItemsGiven, ItemsSmall, ItemsFit};
ghost use Rattle.affine_systems.specs.Tidy.{normal_items as normal_items_is, any_too_big, in_form as in_form_is, merged, round as round_is, is_lossy, and_lost as and_lost_is, tidy_turns, tidy_items as tidy_items_is};
ghost use Rattle.affine_systems.specs.declared.items.Item.{Item as AnItem};
ghost use Rattle.affine_systems.specs.Forms.{IsForm, HasForm};

use crate::Norm;
use crate::facing::face_all;
use crate::false_rows::{collapse, false_item};
use crate::items::{Item, Items, Tidied};
use crate::normal::normalise_as;
use crate::pivots::{find_pivot, take_pivot};
use crate::sorting::arrange;
use fx_lists::List;
use std::alloc::{AllocError as Memory, Global};

/// The most rows of a system; what is more is lost, and makes it weak.
pub const ROWS: usize = 512;

/// More pivots than any system takes: each raises that of some row, and 512 rows have at most 2^34 variables.
const TURNS: u64 = 1 << 44;

/// Normal rows, and whether one was too big. A trivial row is dropped, an infeasible one becomes 0 <= -1.
fn normal_items(
    alloc: Global,
    rational: bool,
    mut items: Vec<Item>,
) -> Result<(Vec<Item>, bool), Memory>
    ensures items { IfOk result (λ r. r.0.items ≡ normal_items_is rational items.items) }
    ensures lost { IfOk result (λ r. r.1 ≡ any_too_big rational items.items) }
{
    let mut out = Vec::with_capacity(alloc, items.len())?;
    let mut lost = false;
    while let Some(mut item) = items.pop() {
        match normalise_as(rational, &mut item.row) {
            Norm::Kept => out.push(item)?,
            Norm::True => {}
            Norm::False => out.push(false_item(alloc))?,
            Norm::TooBig => lost = true,
        }
    }
    out.reverse();
    Ok((out, lost))
}

/// Normal rows in order, one for each list of terms; and whether one was too big.
fn in_form(alloc: Global, rational: bool, items: Vec<Item>) -> Result<(Vec<Item>, bool), Memory>
    ensures items { IfOk result (λ r. r.0.items ≡ in_form_is rational items.items) }
    ensures lost { IfOk result (λ r. r.1 ≡ any_too_big rational items.items) }
{
    let (items, lost) = normal_items(alloc, rational, items)?;
    let items = collapse(alloc, items)?;
    Ok((arrange(alloc, items)?, lost))
}

/// Opposite rows made equal rows, in order again.
fn merge(alloc: Global, items: Vec<Item>) -> Result<Vec<Item>, Memory>
    requires { ItemsSmall items.items }
    ensures { IfOk result (λ v. v.items ≡ merged items.items) }
{
    let items = face_all(alloc, items)?;
    arrange(alloc, items)
}

/// Normal rows in order, one for each list of terms, 512 at most; and whether a row was lost.
pub fn cut_form(
    alloc: Global,
    rational: bool,
    items: Vec<Item>,
) -> Result<(Vec<Item>, bool), Memory>
    ensures { IfOk result (λ r. IsForm rational items.items r.0.items r.1) }
{
    let (mut items, too_big) = in_form(alloc, rational, items)?;
    let lost = too_big || items.len() > ROWS;
    items.truncate(ROWS);
    Ok((items, lost))
}

#[tactic(auto, using(crate::proofs::TurnSteps::small_form))]
/// One round, and whether a row was lost in it.
fn round(alloc: Global, rational: bool, items: Vec<Item>) -> Result<(Vec<Item>, bool), Memory>
    requires { ItemsGiven items.items }
    ensures items { IfOk result (λ r. r.0.items ≡ (round_is rational items.items).items) }
    ensures lost { IfOk result (λ r. r.1 ≡ is_lossy rational items.items) }
{
    let (items, lost) = cut_form(alloc, rational, items)?;
    Ok((merge(alloc, items)?, lost))
}

/// Rounds until no pivot of an equal row occurs in another row, at most so many pivots being taken between them.
fn rounds(alloc: Global, rational: bool, items: Vec<Item>, turns: u64) -> Result<Tidied, Memory>
    requires { ItemsGiven items.items }
    ensures { IfOk result (λ t. t ≡ tidy_turns turns rational items.items) }
{
    let mut items = items;
    let mut lost = false;
    let mut turns = turns;
    while turns > 0 {
        turns -= 1;
        let (some, less) = round(alloc, rational, items)?;
        lost = lost || less;
        match find_pivot(some.as_slice()) {
            None => {
                return Ok(Tidied {
                    items: List::from_vec(some),
                    lost,
                });
            }
            Some(at) => items = take_pivot(alloc, some, at)?,
        }
    }
    let (some, less) = round(alloc, rational, items)?;
    Ok(Tidied {
        items: List::from_vec(some),
        lost: lost || less,
    })
}

/// Simplified rows, in order: normalises, sorts and merges them and substitutes a pivot, until no pivot of an equal row
/// occurs in another row. Rational rows are never rounded. Memory also where the numbers of items would reach 2^64.
pub fn tidy_items(alloc: Global, rational: bool, items: Items) -> Result<Tidied, Memory>
    requires fits { ItemsGiven items }
    ensures defined { IfOk result (λ t. t ≡ tidy_items_is rational items) }
    ensures fits { IfOk result (λ t. ItemsFit rational t.items) }
{
    rounds(alloc, rational, items.into_vec(), TURNS)
}

/// Tidied rows, where a row was lost before or in the tidying.
fn and_lost(lost: bool, t: Tidied) -> Tidied
    ensures { result ≡ and_lost_is lost t }
{
    Tidied {
        items: t.items,
        lost: lost || t.lost,
    }
}

/// The rounds of rows of which the form is there already.
pub fn tidy_form(
    alloc: Global,
    rational: bool,
    form: Vec<Item>,
    lost: bool,
) -> Result<Tidied, Memory>
    requires { HasForm rational form.items lost }
    ensures { IfOk result (λ t. (is : Elements AnItem) → ItemsGiven is → IsForm rational is form.items lost → t ≡ tidy_items_is rational is) }
{
    let some = merge(alloc, form)?;
    match find_pivot(some.as_slice()) {
        None => Ok(Tidied {
            items: List::from_vec(some),
            lost,
        }),
        Some(at) => {
            let items = take_pivot(alloc, some, at)?;
            let t = rounds(alloc, rational, items, TURNS - 1)?;
            Ok(and_lost(lost, t))
        }
    }
}
