//! Elimination of a variable.
ghost use Rattle.std.specs.Prelude.{◌≡◌, ◌++◌, ◌+◌, ◌*◌, ◌<◌, ◌≤◌, ◌^◌, length, true, false, List as Elements, IfOk, OnOk};
ghost use Rattle.affine_systems.specs.Given.{IsSmallRow, ItemsSmall, ItemsFit, AreNormal};
ghost use Rattle.affine_systems.specs.declared.items.Item.{Item as AnItem};
ghost use Rattle.affine_systems.specs.Lone.{Rises};
ghost use Rattle.affine_systems.specs.Forms.{IsForm};
ghost use Rattle.elimination.specs.Held.{Stands};
ghost use Rattle.affine_systems.specs.Items.{rows_of, next_made as next_made_is, cut_of, others, FindsCut};
ghost use Rattle.affine_systems.specs.Tidy.{tidy_items as tidy_items_is};
ghost use Rattle.affine_systems.specs.Eliminate.{AreLower, any_has as any_has_is, has_unit as has_unit_is, is_unit_on as is_unit_on_is, is_equal_on, is_lower, is_upper, is_without, keep, pair as pair_is, with_uppers as with_uppers_is, pairs as pairs_is, all_have_unit as all_have_unit_is, every_pair_unit as every_pair_unit_is, all_cancelled, elimination_of as elimination_of_is, paired_off, eliminate_item as eliminate_item_is};

use crate::closed::all_rise;
use crate::pairing::{Form, add, finish};
use affine_systems::Var;
use affine_systems::items::{
    Eliminated, Item, Items, Tidied, any_false, cancel_all, combine, cut_form, factor, is_unit,
    next_made, occurs, tidy_form, tidy_items,
};
use fx_lists::List;
use std::alloc::{AllocError as Memory, Global};
use std::cmp::Ordering;

#[tactic(auto, using(crate::proofs::ElimSteps::has_loop))]
/// Whether a variable occurs in any row.
fn any_has(items: &[Item], v: Var) -> bool
    requires { ItemsSmall items.now }
    ensures { result ≡ any_has_is v items.now }
{
    for item in items {
        if occurs(&item.row, v) {
            return true;
        }
    }
    false
}

/// Whether the factor of v is 1 or -1.
fn has_unit(item: &Item, v: Var) -> bool
    requires { IsSmallRow item.now.row }
    ensures { result ≡ has_unit_is v item.now }
{
    is_unit(factor(&item.row, v))
}

/// Whether it is an equal row with factor 1 or -1 on v.
pub fn is_unit_on(item: &Item, v: Var) -> bool
    requires { IsSmallRow item.now.row }
    ensures { result ≡ is_unit_on_is v item.now }
{
    item.row.equal && has_unit(item, v)
}

#[tactic(auto, using(affine_systems::proofs::PivotSteps::cut_loop))]
/// The place of the first equal row with factor 1 or -1 on v.
fn find_unit(items: &[Item], v: Var) -> Option<usize>
    requires { ItemsSmall items.now }
    ensures { FindsCut (is_unit_on_is v) items.now result }
{
    for (i, item) in items.iter().enumerate() {
        if is_unit_on(item, v) {
            return Some(i);
        }
    }
    None
}

#[tactic(auto, using(affine_systems::proofs::PivotSteps::cut_loop))]
/// The place of the first equal row with v.
fn find_equal(items: &[Item], v: Var) -> Option<usize>
    requires { ItemsSmall items.now }
    ensures { FindsCut (is_equal_on v) items.now result }
{
    for (i, item) in items.iter().enumerate() {
        if item.row.equal && occurs(&item.row, v) {
            return Some(i);
        }
    }
    None
}

/// Takes an equal row away and cancels v in the others by it.
fn cancel_by(alloc: Global, v: Var, mut items: Vec<Item>, at: usize) -> Result<Vec<Item>, Memory>
    requires within { at < length items.items }
    requires each { ItemsSmall items.items }
    ensures { IfOk result (λ r. r.items ≡ all_cancelled (next_made_is items.items) (cut_of items.items at).at v (others (cut_of items.items at))) }
{
    let made = next_made(items.as_slice(), items.len())?;
    let by = items.remove(at);
    cancel_all(alloc, made, &by, v, &mut items)?;
    Ok(items)
}

/// Rows that bound a variable from below, from above, and rows without it.
#[derive(Drop)]
struct Sides {
    lows: Vec<Item>,
    ups: Vec<Item>,
    rest: Vec<Item>,
}

fn split_by_sign(alloc: Global, v: Var, mut items: Vec<Item>) -> Result<Sides, Memory>
    requires { ItemsSmall items.items }
    ensures lows { IfOk result (λ s. s.lows.items ≡ keep (is_lower v) items.items) }
    ensures ups { IfOk result (λ s. s.ups.items ≡ keep (is_upper v) items.items) }
    ensures rest { IfOk result (λ s. s.rest.items ≡ keep (is_without v) items.items) }
{
    let mut lows = Vec::new(alloc);
    let mut ups = Vec::new(alloc);
    let mut rest = Vec::new(alloc);
    while let Some(item) = items.pop() {
        match factor(&item.row, v).cmp(&0) {
            Ordering::Less => lows.push(item)?,
            Ordering::Equal => rest.push(item)?,
            Ordering::Greater => ups.push(item)?,
        }
    }
    lows.reverse();
    ups.reverse();
    rest.reverse();
    Ok(Sides { lows, ups, rest })
}

/// The pair of a lower and an upper row, without v.
fn pair(alloc: Global, made: u64, v: Var, low: &Item, up: &Item) -> Result<Item, Memory>
    requires lower { is_lower v low.now ≡ true }
    requires one { IsSmallRow low.now.row }
    requires two { IsSmallRow up.now.row }
    ensures { IfOk result (λ i. i ≡ pair_is made v low.now up.now) }
{
    let c = factor(&up.row, v);
    let a = -factor(&low.row, v);
    Ok(Item {
        row: combine(alloc, false, c, &low.row, a, &up.row)?,
        originals: low.originals.union(up.originals),
        made,
    })
}

/// Adds the pairs of a lower row with each upper one.
fn with_uppers(
    alloc: Global,
    made: u64,
    v: Var,
    low: &Item,
    ups: &[Item],
    out: &mut Vec<Item>,
) -> Result<(), Memory>
    requires room { made + length ups.now < 2 ^ 64 }
    requires lower { is_lower v low.now ≡ true }
    requires one { IsSmallRow low.now.row }
    requires each { ItemsSmall ups.now }
    ensures { IfOk result (λ _. out.new.items ≡ out.old.items ++ with_uppers_is made v low.now ups.now) }
{
    for i in 0..ups.len() {
        let item = pair(alloc, made + i as u64, v, low, &ups[i])?;
        out.push(item)?;
    }
    Ok(())
}

/// Adds the pairs of each lower row with each upper one.
fn pairs(
    alloc: Global,
    made: u64,
    v: Var,
    lows: &[Item],
    ups: &[Item],
    out: &mut Vec<Item>,
) -> Result<(), Memory>
    requires room { made + length lows.now * length ups.now < 2 ^ 64 }
    requires lower { AreLower v lows.now }
    requires one { ItemsSmall lows.now }
    requires two { ItemsSmall ups.now }
    ensures { IfOk result (λ _. out.new.items ≡ out.old.items ++ pairs_is made v lows.now ups.now) }
{
    let mut next = made;
    for low in lows {
        with_uppers(alloc, next, v, low, ups, out)?;
        next += ups.len() as u64;
    }
    Ok(())
}

#[tactic(auto, using(crate::proofs::ElimSteps::units_loop))]
fn all_have_unit(items: &[Item], v: Var) -> bool
    requires { ItemsSmall items.now }
    ensures { result ≡ all_have_unit_is v items.now }
{
    for item in items {
        if !has_unit(item, v) {
            return false;
        }
    }
    true
}

#[tactic(auto, using(crate::proofs::ElimSteps::pairs_unit_loop))]
/// Whether in every pair one factor is 1 or -1.
fn every_pair_unit(lows: &[Item], ups: &[Item], v: Var) -> bool
    requires one { ItemsSmall lows.now }
    requires two { ItemsSmall ups.now }
    ensures { result ≡ every_pair_unit_is v lows.now ups.now }
{
    let ups_have = all_have_unit(ups, v);
    for low in lows {
        if !has_unit(low, v) && !ups_have {
            return false;
        }
    }
    true
}

/// What an elimination makes of the tidied rows.
fn elimination_of(exact: bool, paired: bool, t: Tidied) -> Eliminated
    ensures { result ≡ elimination_of_is exact paired t }
{
    Eliminated {
        items: t.items,
        exact: exact && !t.lost,
        lost: t.lost,
        paired,
    }
}

/// Eliminates by an equal row. It is exact where the factor of v there is 1 or -1.
fn eliminate_by(
    alloc: Global,
    rational: bool,
    v: Var,
    items: Vec<Item>,
    at: usize,
    exact: bool,
) -> Result<Eliminated, Memory>
    requires fits { ItemsFit rational items.items }
    requires within { at < length items.items }
    ensures { IfOk result (λ e. e ≡ elimination_of_is exact false (tidy_items_is rational (all_cancelled (next_made_is items.items) (cut_of items.items at).at v (others (cut_of items.items at))))) }
{
    let rest = cancel_by(alloc, v, items, at)?;
    let t = tidy_items(alloc, rational, List::from_vec(rest))?;
    Ok(elimination_of(exact, false, t))
}

/// Takes in the pairs of a lower row with each upper one.
fn add_uppers(
    alloc: Global,
    rational: bool,
    made: u64,
    v: Var,
    low: &Item,
    ups: &[Item],
    form: &mut Form,
) -> Result<(), Memory>
    requires room { made + length ups.now < 2 ^ 64 }
    requires lower { is_lower v low.now ≡ true }
    requires one { IsSmallRow low.now.row }
    requires each { ItemsSmall ups.now }
    requires rises { Rises (rows_of form.now.items.items) }
    ensures stands { OnOk result ((is : Elements AnItem) → Stands rational is form.old → Stands rational (is ++ with_uppers_is made v low.now ups.now) form.new) }
    ensures rises { OnOk result (Rises (rows_of form.new.items.items)) }
{
    for i in 0..ups.len() {
        let item = pair(alloc, made + i as u64, v, low, &ups[i])?;
        add(rational, form, item)?;
    }
    Ok(())
}

/// Takes in the pairs of each lower row with each upper one.
fn add_pairs(
    alloc: Global,
    rational: bool,
    made: u64,
    v: Var,
    lows: &[Item],
    ups: &[Item],
    form: &mut Form,
) -> Result<(), Memory>
    requires room { made + length lows.now * length ups.now < 2 ^ 64 }
    requires lower { AreLower v lows.now }
    requires one { ItemsSmall lows.now }
    requires two { ItemsSmall ups.now }
    requires rises { Rises (rows_of form.now.items.items) }
    ensures stands { OnOk result ((is : Elements AnItem) → Stands rational is form.old → Stands rational (is ++ pairs_is made v lows.now ups.now) form.new) }
    ensures rises { OnOk result (Rises (rows_of form.new.items.items)) }
{
    let mut next = made;
    for low in lows {
        add_uppers(alloc, rational, next, v, low, ups, form)?;
        next += ups.len() as u64;
    }
    Ok(())
}

/// The form of rows and the pairs of lower and upper rows. Where the rows are in order it is filled by one pair after the other; else the
/// pairs are sorted.
fn paired_form(
    alloc: Global,
    rational: bool,
    made: u64,
    v: Var,
    sides: Sides,
) -> Result<(Vec<Item>, bool), Memory>
    requires room { made + length sides.lows.items * length sides.ups.items < 2 ^ 64 }
    requires lower { AreLower v sides.lows.items }
    requires one { ItemsSmall sides.lows.items }
    requires two { ItemsSmall sides.ups.items }
    requires len { length sides.rest.items ≤ 512 }
    requires normal { AreNormal rational (rows_of sides.rest.items) }
    ensures { IfOk result (λ r. IsForm rational (sides.rest.items ++ pairs_is made v sides.lows.items sides.ups.items) r.0.items r.1) }
{
    let Sides { lows, ups, rest } = sides;
    if any_false(rest.as_slice()) || !all_rise(rest.as_slice()) {
        let mut rest = rest;
        pairs(alloc, made, v, lows.as_slice(), ups.as_slice(), &mut rest)?;
        return cut_form(alloc, rational, rest);
    }
    let mut form = Form {
        items: rest,
        too_big: false,
        is_false: false,
        is_over: false,
    };
    add_pairs(
        alloc,
        rational,
        made,
        v,
        lows.as_slice(),
        ups.as_slice(),
        &mut form,
    )?;
    finish(alloc, form)
}

/// Eliminates by pairs of lower and upper rows.
fn pair_off(alloc: Global, rational: bool, v: Var, items: Vec<Item>) -> Result<Eliminated, Memory>
    requires { ItemsFit rational items.items }
    ensures { IfOk result (λ e. e ≡ paired_off rational v items.items) }
{
    let made = next_made(items.as_slice(), 512 * 512)?;
    let sides = split_by_sign(alloc, v, items)?;
    let exact = every_pair_unit(sides.lows.as_slice(), sides.ups.as_slice(), v);
    let (form, lost) = paired_form(alloc, rational, made, v, sides)?;
    let t = tidy_form(alloc, rational, form, lost)?;
    Ok(elimination_of(exact, true, t))
}

/// The tidied rows without v, by the first case that fits: v does not occur; an equal row with factor 1 or -1 is
/// substituted; an equal row with v; each pair of a lower and an upper row. Rational rows are never rounded. Memory
/// also where the numbers of items would reach 2^64.
pub fn eliminate_item(
    alloc: Global,
    rational: bool,
    v: Var,
    items: Items,
) -> Result<Eliminated, Memory>
    requires fits { ItemsFit rational items }
    ensures defined { IfOk result (λ e. e ≡ eliminate_item_is rational v items) }
    ensures fits { IfOk result (λ e. ItemsFit rational e.items) }
{
    if !any_has(items.as_slice(), v) {
        return Ok(Eliminated {
            items,
            exact: true,
            lost: false,
            paired: false,
        });
    }
    let items = items.into_vec();
    if let Some(at) = find_unit(items.as_slice(), v) {
        return eliminate_by(alloc, rational, v, items, at, true);
    }
    if let Some(at) = find_equal(items.as_slice(), v) {
        return eliminate_by(alloc, rational, v, items, at, false);
    }
    pair_off(alloc, rational, v, items)
}
