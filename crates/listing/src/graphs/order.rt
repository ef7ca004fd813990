//! The order of edges and drops.
ghost use Rattle.std.specs.Prelude.{◌≡◌, ◌==◌, ◌&&◌, ◌||◌, map, nat_lt};
ghost use Rattle.listing.specs.graphs.Order.{comes_before_edge, is_less, rank};

use dependence_graph::graphs::{Dropped, Edge};
use subscripts::Dir;

fn rank(dir: Dir) -> u32
    ensures { result ≡ rank dir }
{
    match dir {
        Dir::Lt => 0,
        Dir::Eq => 1,
        Dir::Gt => 2,
        Dir::Any => 3,
    }
}

// Whether the first list of directions is less than the second one in the first place in which they differ.
fn are_less(a: &[Dir], b: &[Dir]) -> bool
    ensures { result ≡ is_less (map rank a.now) (map rank b.now) }
{
    match (a.split_first(), b.split_first()) {
        (Some((x, xs)), Some((y, ys))) => {
            rank(*x) < rank(*y) || (rank(*x) == rank(*y) && are_less(xs, ys))
        }
        _ => false,
    }
}

// Whether the first number is less, or the two are equal and what comes behind them is less.
fn stands_before(x: u32, y: u32, behind: bool) -> bool
    ensures { result ≡ (nat_lt x y || ((x == y) && behind)) }
{
    x < y || (x == y && behind)
}

// Whether the drop stands before the edge.
pub(crate) fn comes_before(drop: &Dropped, edge: &Edge) -> bool
    ensures { result ≡ comes_before_edge drop.now edge.now }
{
    let dirs = are_less(&drop.dirs.at, &edge.dirs.at);
    let to = stands_before(drop.to.at, edge.to.at, dirs);
    let to = stands_before(drop.to.stmt, edge.to.stmt, to);
    let from = stands_before(drop.from.at, edge.from.at, to);
    stands_before(drop.from.stmt, edge.from.stmt, from)
}
