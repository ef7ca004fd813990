//! The groups of subscript pairs.
ghost use Rattle.std.specs.Prelude.{◌≡◌, ◌≤◌, ◌<◌, All, length};
ghost use Rattle.subscripts.specs.Partitions.{AreGroupedUpTo, AreJoined, IsPartition};
ghost use Rattle.subscripts.specs.Shapes.{IsPairing};

use crate::pairing::{Groups, Pairing};

// Makes two groups one, with the lesser number.
fn join(groups: &mut [u8], first: u8, second: u8)
    ensures { AreJoined first second groups.old groups.new }
{
    let joined = first.min(second);
    let other = first.max(second);
    for group in groups.iter_mut() {
        if *group == other {
            *group = joined;
        }
    }
}

// Joins the group of a pairing with those of the earlier pairings that it shares a loop with.
fn join_earlier(ps: &[Pairing], groups: &mut [u8], place: usize)
    requires count { length ps.now ≤ 7 }
    requires pairings { All IsPairing ps.now }
    requires place { place < length ps.now }
    requires groups { length groups.old ≡ 7 }
    requires earlier { AreGroupedUpTo ps.now groups.old place 0 }
    ensures { AreGroupedUpTo ps.now groups.new place place }
{
    for earlier in 0..place {
        if ps[earlier].shares_loop(&ps[place]) {
            let (first, second) = (groups[earlier], groups[place]);
            join(groups, first, second);
        }
    }
}

/// The groups of coupled subscript pairs (Goff, Kennedy and Tseng 1991, section 3). A pair that is coupled with no
/// other one, as each of class Ziv or Unknown, is a group by itself.
pub fn partition(ps: &[Pairing]) -> Groups
    requires count { length ps.now ≤ 7 }
    requires pairings { All IsPairing ps.now }
    ensures { IsPartition ps.now result.of }
{
    let mut of = [0, 1, 2, 3, 4, 5, 6];
    for place in 0..ps.len() {
        join_earlier(ps, &mut of, place);
    }
    Groups { of }
}
