//! Answers to the vectors under a prefix, merged.
ghost use Rattle.std.specs.Prelude.{◌≡◌, ◌<◌, ◌↔◌, false, IfOk, IsTrue, length};
ghost use Rattle.subscripts.specs.Cuts.{IsNoLater};
ghost use Rattle.direction_vectors.specs.vector_tests.Refs.{IsRefPair, IsVectorOf};
ghost use Rattle.direction_vectors.specs.Merged.{AreAlike};
ghost use Rattle.direction_vectors.specs.Parts.{IsUnited};
ghost use Rattle.direction_vectors.specs.Unions.{AreUnited, IsLessOf, IsMergedOf, IsOneAnswer, IsOrder};
ghost use Rattle.direction_vectors.specs.Unions.{IsPointPair, both_of};

use crate::dirs::{Answer, is_alike, with_dir};
use crate::vector_tests::{RefPair, test_vector};
use std::alloc::Global;
use subscripts::{Dir, Dirs, Point, Verdict};
use tree::Memory;

/// The first point is before the second in lexicographic order, they are the same, or it is after it.
#[derive(Clone, Copy)]
enum Order {
    Before,
    Same,
    After,
}

// How two points stand to each other.
fn order_of(one: &Point, other: &Point) -> Order
    ensures order { IsOrder result one.now.at other.now.at }
    ensures places { IsPointPair (one.now, other.now) }
{
    for place in 0..7 {
        if one.at[place] < other.at[place] {
            return Order::Before;
        }
        if other.at[place] < one.at[place] {
            return Order::After;
        }
    }
    Order::Same
}

// Whether a pair of iterations is no later than another.
fn is_no_later(x: &Point, y: &Point, i: &Point, j: &Point) -> bool
    ensures no_later { IsTrue result → IsNoLater (both_of (x.now, y.now)) (both_of (i.now, j.now)) }
    ensures later { result ≡ false → IsNoLater (both_of (i.now, j.now)) (both_of (x.now, y.now)) }
    ensures first { IsPointPair (x.now, y.now) }
    ensures second { IsPointPair (i.now, j.now) }
{
    let first = order_of(x, i);
    let second = order_of(y, j);
    match first {
        Order::Before => true,
        Order::After => false,
        Order::Same => match second {
            Order::Before => true,
            Order::Same => true,
            Order::After => false,
        },
    }
}

// The lesser of two pairs of iterations.
fn lesser_of(x: &Point, y: &Point, i: &Point, j: &Point) -> (Point, Point)
    ensures less { IsLessOf result (x.now, y.now) (i.now, j.now) }
    ensures first { IsPointPair (x.now, y.now) }
    ensures second { IsPointPair (i.now, j.now) }
{
    if is_no_later(x, y, i, j) {
        (*x, *y)
    } else {
        (*i, *j)
    }
}

// The verdict on all that three alike ones are about.
fn united(before: &Verdict, same: &Verdict, after: &Verdict) -> Verdict
    ensures { IsUnited before.now same.now after.now result }
{
    match before {
        Verdict::Never(word) => Verdict::Never(*word),
        Verdict::Assumed(word) => Verdict::Assumed(*word),
        Verdict::Pair(x, y, word) => match same {
            Verdict::Never(_) => *before,
            Verdict::Assumed(_) => *before,
            Verdict::Pair(i, j, _) => match after {
                Verdict::Never(_) => *before,
                Verdict::Assumed(_) => *before,
                Verdict::Pair(m, n, _) => {
                    let (first, second) = lesser_of(x, y, i, j);
                    let (first, second) = lesser_of(&first, &second, m, n);
                    Verdict::Pair(first, second, *word)
                }
            },
        },
    }
}

// Whether two lists of answers are alike from a place on.
fn are_alike(ones: &[Answer], others: &[Answer], place: usize) -> bool
    requires { place < 7 }
    ensures { IsTrue result ↔ AreAlike place ones.now others.now }
{
    if ones.len() != others.len() {
        return false;
    }
    for at in 0..ones.len() {
        if !is_alike(&ones[at], &others[at], place) {
            return false;
        }
    }
    true
}

// Three lists that are alike as one, with `*` in the place.
fn all_united(
    alloc: Global,
    before: &[Answer],
    same: &[Answer],
    after: &[Answer],
    place: usize,
) -> Result<Vec<Answer>, Memory>
    requires place { place < 7 }
    requires second { length before.now ≡ length same.now }
    requires third { length before.now ≡ length after.now }
    ensures { IfOk result (λ answers. AreUnited before.now same.now after.now place answers.items) }
{
    let mut answers = Vec::new(alloc);
    for at in 0..before.len() {
        let verdict = united(&before[at].1, &same[at].1, &after[at].1);
        answers.push((with_dir(&before[at].0, place, Dir::Any), verdict))?;
    }
    Ok(answers)
}

/// Those with `<`, with `=` and with `>` in the place, merged if they are alike.
pub fn merged_of(
    alloc: Global,
    mut before: Vec<Answer>,
    same: &[Answer],
    after: &[Answer],
    place: usize,
) -> Result<Vec<Answer>, Memory>
    requires { place < 7 }
    ensures { IfOk result (λ answers. IsMergedOf before.items same.now after.now place answers.items) }
{
    if are_alike(&before, same, place) && are_alike(&before, after, place) {
        return all_united(alloc, &before, same, after, place);
    }
    before.extend_from_slice(same)?;
    before.extend_from_slice(after)?;
    Ok(before)
}

/// The one answer to a vector.
pub fn one_answer(alloc: Global, refs: &RefPair, d: &Dirs) -> Result<Vec<Answer>, Memory>
    requires refs { IsRefPair refs.now }
    requires vector { IsVectorOf refs.now d.now }
    ensures { IfOk result (λ answers. IsOneAnswer refs.now d.now answers.items) }
{
    let mut answers = Vec::new(alloc);
    answers.push((*d, test_vector(refs, d)))?;
    Ok(answers)
}
