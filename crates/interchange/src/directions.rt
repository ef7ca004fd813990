//! Direction vectors in an order of the loops.
ghost use Rattle.std.specs.Prelude.{◌≡◌};
ghost use Rattle.interchange.specs.Orders.{begins_at, carries, direction, directions, is_equal_direction, keeps_all};
ghost use Rattle.interchange.specs.Orders.{leads_forward};

use subscripts::{Dir, Dirs};

fn is_same(dir: Dir) -> bool
    ensures { result ≡ is_equal_direction dir }
{
    match dir {
        Dir::Eq => true,
        Dir::Lt | Dir::Gt | Dir::Any => false,
    }
}

// The direction in the loop of a place.
fn direction(dirs: &Dirs, place: usize) -> Dir
    ensures { result ≡ direction dirs.now place }
{
    match dirs.at.get(place) {
        Some(dir) => *dir,
        None => Dir::Any,
    }
}

// Whether the first entry other than `=` stands at a place of the order.
fn begins_at(dirs: &Dirs, order: &[usize], place: usize) -> bool
    ensures { result ≡ begins_at place (directions dirs.now order.now) }
{
    let Some((first, rest)) = order.split_first() else {
        return false;
    };
    let same = is_same(direction(dirs, *first));
    if place == 0 {
        return !same;
    }
    same && begins_at(dirs, rest, place - 1)
}

// Whether it is `<`, or there is none.
fn leads_forward(dirs: &Dirs, order: &[usize]) -> bool
    ensures { result ≡ leads_forward (directions dirs.now order.now) }
{
    let Some((first, rest)) = order.split_first() else {
        return true;
    };
    match direction(dirs, *first) {
        Dir::Lt => true,
        Dir::Eq => leads_forward(dirs, rest),
        Dir::Gt | Dir::Any => false,
    }
}

/// Whether the loop at a place of the order carries a dependence.
pub(crate) fn carries(vectors: &[Dirs], order: &[usize], place: usize) -> bool
    ensures { result ≡ carries vectors.now order.now place }
{
    vectors.iter().any(|dirs| begins_at(dirs, order, place))
}

/// Whether no dependence leads to an earlier iteration in the order.
pub(crate) fn keeps_all(vectors: &[Dirs], order: &[usize]) -> bool
    ensures { result ≡ keeps_all vectors.now order.now }
{
    vectors.iter().all(|dirs| leads_forward(dirs, order))
}
