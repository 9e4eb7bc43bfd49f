//! Elimination of one variable after another, without the rows that come from too many originals.
use affine_systems::Var;
use affine_systems::items::{Item, Items, Originals};
use elimination::{eliminate_item, without_lone};
use fx_lists::List;
use std::alloc::{AllocError as Memory, Global};

/// What eliminations left.
#[derive(Debug, Drop)]
pub struct Left {
    /// The rows, with the numbers of their originals.
    pub items: Items,
    /// Whether tidying lost a row. One that is dropped for its originals is not lost.
    pub lost: bool,
    /// How many eliminations were by pairs of lower and upper rows.
    pub pairs: usize,
}

ghost use Rattle.std.specs.Prelude.{◌≡◌, ◌+◌, ◌<◌, ◌≤◌, ◌^◌, length, take, true, false, IfOk};
ghost use Rattle.affine_systems.specs.Items.{AllItems};
ghost use Rattle.affine_systems.specs.Given.{ItemsFit};
ghost use Rattle.affine_systems.specs.Eliminate.{eliminate_item as eliminate_item_is};
ghost use Rattle.hull_projection.specs.Refute.{as_original as as_original_is, with_originals as with_originals_is, has_few as has_few_is, with_few as with_few_is, all_left as all_left_is, left_after, eliminate_all as eliminate_all_is};

/// An at-most row as the original with a number; an equal row is none.
fn as_original(item: Item, number: u32) -> Item
    requires { number < 512 }
    ensures { result ≡ as_original_is number item }
{
    let originals = if item.row.equal {
        Originals::none()
    } else {
        Originals::only(number)
    };
    Item {
        row: item.row,
        originals,
        made: number as u64,
    }
}

/// The at-most rows as originals, numbered from 0.
fn with_originals(alloc: Global, items: Items) -> Result<Items, Memory>
    requires { length items ≤ 512 }
    ensures { IfOk result (λ is. is ≡ with_originals_is 0 items) }
{
    let mut items = items.into_vec();
    let mut out = Vec::new(alloc);
    while let Some(item) = items.pop() {
        let number = items.as_slice().len();
        out.push(as_original(item, number as u32))?;
    }
    out.reverse();
    Ok(List::from_vec(out))
}

/// What is left before the first elimination: all rows, at most 512, each at-most row with its index as its only
/// original, and equal rows with none.
pub fn all_left(alloc: Global, items: Items) -> Result<Left, Memory>
    requires { length items ≤ 512 }
    ensures { IfOk result (λ s. s ≡ all_left_is items) }
{
    Ok(Left {
        items: with_originals(alloc, items)?,
        lost: false,
        pairs: 0,
    })
}

/// Whether it has at most `pairs` + 1 originals.
fn has_few(item: &Item, pairs: usize) -> bool
    ensures { result ≡ has_few_is pairs item.now }
{
    item.originals.len().saturating_sub(1) as usize <= pairs
}

/// The rows with at most `pairs` + 1 originals.
fn with_few(pairs: usize, items: Items) -> Items
    ensures { result ≡ with_few_is pairs items }
{
    let mut items = items.into_vec();
    items.retain(|item| has_few(item, pairs));
    List::from_vec(items)
}

/// One variable less, without the rows that then come from too many originals.
fn eliminate_more(alloc: Global, rational: bool, v: Var, left: Left) -> Result<Left, Memory>
    requires fits { ItemsFit rational left.items }
    requires room { left.pairs + 1 < 2 ^ 64 }
    ensures defined { IfOk result (λ s. s ≡ left_after left (eliminate_item_is rational v left.items)) }
    ensures fits { IfOk result (λ s. ItemsFit rational s.items) }
    ensures pairs { IfOk result (λ s. s.pairs ≤ left.pairs + 1) }
{
    let e = eliminate_item(alloc, rational, v, left.items)?;
    let pairs = if e.paired { left.pairs + 1 } else { left.pairs };
    Ok(Left {
        items: with_few(pairs, e.items),
        lost: left.lost || e.lost,
        pairs,
    })
}

/// Whether each row has at most `pairs` + 1 originals.
fn all_have_few(items: &[Item], pairs: usize) -> bool
    ensures { result ≡ true → AllItems (λ i. has_few_is pairs i ≡ true) items.now }
{
    for item in items {
        if !has_few(item, pairs) {
            return false;
        }
    }
    true
}

/// The leading variables that one row alone has, taken away with their rows; and how many these are.
fn without_leading(
    alloc: Global,
    rational: bool,
    left: Left,
    vars: &[Var],
) -> Result<(Left, usize), Memory>
    requires fits { ItemsFit rational left.items }
    ensures within { IfOk result (λ r. r.1 ≤ length vars.now) }
    ensures defined { IfOk result (λ r. r.0 ≡ eliminate_all_is rational left (take r.1 vars.now)) }
    ensures fits { IfOk result (λ r. ItemsFit rational r.0.items) }
    ensures pairs { IfOk result (λ r. r.0.pairs ≡ left.pairs) }
{
    if !all_have_few(left.items.as_slice(), left.pairs) {
        return Ok((left, 0));
    }
    let Left { items, lost, pairs } = left;
    let (items, done) = without_lone(alloc, items.into_vec(), vars);
    let left = Left {
        items: List::from_vec(items),
        lost,
        pairs,
    };
    Ok((left, done))
}

#[tactic(auto, using(crate::proofs::LoneLaws::all_some))]
/// The leading variables that one row alone has, and one more.
fn eliminate_some(
    alloc: Global,
    rational: bool,
    left: Left,
    vars: &[Var],
) -> Result<(Left, usize), Memory>
    requires fits { ItemsFit rational left.items }
    requires some { 0 < length vars.now }
    requires room { left.pairs + 1 < 2 ^ 64 }
    ensures within { IfOk result (λ r. (0 < r.1) × (r.1 ≤ length vars.now)) }
    ensures defined { IfOk result (λ r. r.0 ≡ eliminate_all_is rational left (take r.1 vars.now)) }
    ensures fits { IfOk result (λ r. ItemsFit rational r.0.items) }
    ensures pairs { IfOk result (λ r. r.0.pairs ≤ left.pairs + 1) }
{
    let (left, done) = without_leading(alloc, rational, left, vars)?;
    if done == vars.len() {
        return Ok((left, done));
    }
    let left = eliminate_more(alloc, rational, vars[done], left)?;
    Ok((left, done + 1))
}

#[tactic(auto, using(crate::proofs::LoneLaws::all_loop))]
/// What is left without the variables, which are eliminated in the order of the list. After k eliminations by pairs,
/// rows from more than k + 1 originals are dropped. The pairs of an elimination are as many as lower times upper rows.
pub fn eliminate_all(
    alloc: Global,
    rational: bool,
    left: Left,
    vars: &[Var],
) -> Result<Left, Memory>
    requires fits { ItemsFit rational left.items }
    requires first { left.pairs ≡ 0 }
    ensures defined { IfOk result (λ s. s ≡ eliminate_all_is rational left vars.now) }
    ensures fits { IfOk result (λ s. ItemsFit rational s.items) }
{
    let mut left = left;
    let mut at = 0;
    while at < vars.len() {
        let (next, done) = eliminate_some(alloc, rational, left, &vars[at..])?;
        left = next;
        at += done;
    }
    Ok(left)
}
