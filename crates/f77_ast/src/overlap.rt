//! Which variables share storage (ANSI X3.9-1978 §8.2, §8.3, §17.1).
ghost use Rattle.std.specs.Prelude.{◌≡◌, map};
ghost use Rattle.std.specs.Option.{option_copied, option_map};
ghost use Rattle.f77_ast.specs.Symbols.{symbol_tree};
ghost use Rattle.f77_ast.specs.Shared.{lies_in, numbers_share, overlap, same_storage, share, symbol_at, SharingIsOfUnits};

use crate::{Place, Symbol, Symbols, Variable, has_more};
use fx_lists::Text;

/// The offset in the storage that both lie in, where they lie in one.
fn offsets(a: &Place, b: &Place) -> Option<(u64, u64)>
    ensures { result ≡ same_storage a.now b.now }
{
    match (a, b) {
        (Place::Local(m, x), Place::Local(n, y)) if m == n => Some((*x, *y)),
        (Place::Block(m, x), Place::Block(n, y)) if m == n => Some((*x, *y)),
        _ => None,
    }
}

/// Whether both have the first unit of the one that begins last.
#[tactic(auto, using(crate::proofs::UnitsLaws::meet_tests))]
fn share(symbols: &Symbols, a: &Symbol, b: &Symbol) -> bool
    ensures { result ≡ share (map symbol_tree symbols.now) (symbol_tree a.now) (symbol_tree b.now) }
{
    match offsets(&a.place, &b.place) {
        None => false,
        Some((x, y)) => {
            let first = x.max(y);
            has_more(symbols, a, first - x) && has_more(symbols, b, first - y)
        }
    }
}

fn numbers_share(symbols: &Symbols, m: u32, n: u32) -> bool
    ensures { result ≡ numbers_share (map symbol_tree symbols.now) m n }
{
    if m == n {
        return false;
    }
    match (symbols.symbol(m), symbols.symbol(n)) {
        (Some(a), Some(b)) => share(symbols, a, b),
        _ => false,
    }
}

fn lies_in(symbols: &Symbols, n: u32, block: &Text) -> bool
    ensures { result ≡ lies_in (map symbol_tree symbols.now) n block.now }
{
    match symbols.symbol(n) {
        Some(symbol) => match &symbol.place {
            Place::Block(name, _) => name == block,
            Place::Local(..) | Place::Dummy(_) | Place::Constant(_) => false,
        },
        None => false,
    }
}

/// Whether two variables share a unit by COMMON or EQUIVALENCE: two symbols that have one in common, a block and a symbol that is
/// in it. Two saved locals of one other module always count as sharing; a variable and itself never do. Takes no memory; the time
/// is that of the bounds of both.
pub fn overlaps(symbols: &Symbols, a: &Variable, b: &Variable) -> bool
    ensures { result ≡ overlap (map symbol_tree symbols.now) a.now b.now }
{
    match (a, b) {
        (Variable::Own(m), Variable::Own(n)) => numbers_share(symbols, *m, *n),
        (Variable::Own(n), Variable::Block(block)) | (Variable::Block(block), Variable::Own(n)) => {
            lies_in(symbols, *n, block)
        }
        (Variable::Saved(m, x), Variable::Saved(n, y)) => m == n && x != y,
        (Variable::Own(_) | Variable::Block(_), Variable::Saved(..))
        | (Variable::Saved(..), Variable::Own(_) | Variable::Block(_))
        | (Variable::Block(_), Variable::Block(_)) => false,
    }
}

/// The law that two symbols share, as `overlaps` computes it, just where some unit is a unit of both.
pub fn sharing_is_of_units()
    ensures { SharingIsOfUnits }
{}
