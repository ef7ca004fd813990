//! Coupled subscript pairs, each group of which is tested together.
ghost use Rattle.std.specs.Prelude.{◌≡◌, ◌≤◌, ◌<◌, ℕ, false, All, IsTrue, length, slice_index};
ghost use Rattle.dependence_tests.specs.loop_lines.OneLoop.{HasSevenPlaces};
ghost use Rattle.subscripts.specs.Partitions.{IsPartition};
ghost use Rattle.subscripts.specs.Shapes.{AreDirsOf, IsBeside, IsPairing, members};
ghost use Rattle.direction_vectors.specs.vector_tests.Places.{IsGroupLeft, picked};
ghost use Rattle.direction_vectors.specs.vector_tests.Words.{HasRefutedGroup, IsSeparable};

use crate::vector_tests::words::is_separable;
use dependence_tests::delta_test::test_group;
use subscripts::{Dirs, Group, Groups, Pairing, Verdict, partition};

// The members of the group with this number.
fn group_of(ps: &[Pairing], groups: &Groups, number: u8) -> Group
    requires some { 0 < length ps.now }
    requires count { length ps.now ≤ 7 }
    ensures members { members result ≡ picked number groups.now.of ps.now }
    ensures count { result.count ≤ length ps.now }
{
    let mut group = Group {
        count: 0,
        at: [ps[0]; 7],
    };
    for place in 0..ps.len() {
        if groups.of[place] == number {
            group.at[usize::from(group.count)] = ps[place];
            group.count += 1;
        }
    }
    group
}

// Whether the group whose first member stands in this place, if it has several members, is refuted.
fn group_refutes(ps: &[Pairing], d: &Dirs, groups: &Groups, place: usize) -> bool
    requires count { length ps.now ≤ 7 }
    requires pairings { All IsPairing ps.now }
    requires beside { All (λ p. All (IsBeside p) ps.now) ps.now }
    requires dirs { All (λ p. AreDirsOf p d.now) ps.now }
    requires groups { IsPartition ps.now groups.now.of }
    requires places { All (λ p. HasSevenPlaces p d.now) ps.now }
    requires place { place < length ps.now }
    ensures sound { IsTrue result → HasRefutedGroup ps.now d.now }
    ensures complete { result ≡ false → slice_index groups.now.of place ≡ place → (IsSeparable ps.now place → ⊥)
        → IsGroupLeft ps.now d.now place }
{
    let number = groups.of[place];
    if usize::from(number) != place || is_separable(ps, place) {
        return false;
    }
    match test_group(&group_of(ps, groups, number), d) {
        Verdict::Never(_) => true,
        Verdict::Pair(_, _, _) | Verdict::Assumed(_) => false,
    }
}

/// Whether a group of several pairs is refuted.
pub fn a_group_refutes(ps: &[Pairing], d: &Dirs) -> bool
    requires count { length ps.now ≤ 7 }
    requires pairings { All IsPairing ps.now }
    requires beside { All (λ p. All (IsBeside p) ps.now) ps.now }
    requires dirs { All (λ p. AreDirsOf p d.now) ps.now }
    requires places { All (λ p. HasSevenPlaces p d.now) ps.now }
    ensures sound { IsTrue result → HasRefutedGroup ps.now d.now }
    ensures complete { result ≡ false → (k : ℕ) → k < length ps.now → (IsSeparable ps.now k → ⊥)
        → IsGroupLeft ps.now d.now k }
{
    let groups = partition(ps);
    for place in 0..ps.len() {
        if group_refutes(ps, d, &groups, place) {
            return true;
        }
    }
    false
}
