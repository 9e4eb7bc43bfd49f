//! Equality of graphs and of the lines of modules.
ghost use Rattle.std.specs.Prelude.{◌≡◌, ◌↔◌, IsTrue};
ghost use Rattle.std.specs.Cmp.Lexicographic.{pointwise};
ghost use Rattle.same_values.specs.GraphTests.{graph_test, part_code, code_test, spot_test, places_test};

use call_graph::Graph;
use f77_ast::{Part, Places, Spot};
use fx_lists::List;

/// Whether two graphs are equal. Takes no memory.
pub fn same_graph(a: &Graph, b: &Graph) -> bool
    ensures { IsTrue result ↔ (a.now ≡ b.now) }
{
    a == b
}

/// The number of the form, and the numbers that it has.
fn part_code(part: Part) -> (u8, u32, u32)
    ensures { result ≡ part_code part }
{
    match part {
        Part::Title => (0, 0, 0),
        Part::Decl(n) => (1, n, 0),
        Part::Stmt(n) => (2, n, 0),
        Part::ElseIf(n, k) => (3, n, k),
        Part::Else(n) => (4, n, 0),
        Part::Close(n) => (5, n, 0),
        Part::End => (6, 0, 0),
    }
}

fn same_part(a: Part, b: Part) -> bool
    ensures { result ≡ code_test (part_code a) (part_code b) }
{
    let one = part_code(a);
    let other = part_code(b);
    one.0 == other.0 && one.1 == other.1 && one.2 == other.2
}

fn same_spot(a: &Spot, b: &Spot) -> bool
    ensures { result ≡ spot_test a.now b.now }
{
    same_part(a.part, b.part) && a.first == b.first && a.comments == b.comments
}

#[tactic(auto, using(crate::proofs::GraphLaws::spots_end))]
fn same_spots(a: &List<Spot>, b: &List<Spot>) -> bool
    ensures { result ≡ pointwise spot_test a.now b.now }
{
    let mut left = a.as_slice();
    let mut right = b.as_slice();
    while let [one, more @ ..] = left {
        let [other, others @ ..] = right else {
            return false;
        };
        if !same_spot(one, other) {
            return false;
        }
        left = more;
        right = others;
    }
    right.is_empty()
}

fn places_test(a: &Places, b: &Places) -> bool
    ensures { result ≡ places_test a.now b.now }
{
    same_spots(&a.spots, &b.spots) && a.closing == b.closing
}

/// Whether two modules have the same statements on the same lines, and the same comments. Takes no memory.
pub fn same_places(a: &Places, b: &Places) -> bool
    ensures { IsTrue result ↔ (a.now ≡ b.now) }
{
    places_test(a, b)
}
