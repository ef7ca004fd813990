//! Numbers of 128 bits, in lists.
ghost use Rattle.std.specs.Prelude.{◌≡◌, ◌≤◌, ◌<◌, ◌+◌, ◌*◌, ◌^◌, ◌+ℤ◌, ◌*ℤ◌, ℕ, pos, neg_ℤ, nat_abs};
ghost use Rattle.std.specs.Prelude.{map, length, slice_index_or, IfOk};
ghost use Rattle.linear_forms.specs.Linear.{added, is_small, all_small, not_zero};

use std::alloc::Global;
use tree::Memory;

const LIMIT: u128 = 1 << 40;

/// x + times * y
pub(crate) fn plus_multiple(x: i128, times: i128, y: i128) -> i128
    requires { nat_abs x + nat_abs times * nat_abs y < 2 ^ 127 }
    ensures { result ≡ x +ℤ times *ℤ y }
{
    x + times * y
}

pub(crate) fn plus(x: i128, y: i128) -> i128
    requires { nat_abs x + nat_abs y < 2 ^ 127 }
    ensures { result ≡ x +ℤ y }
{
    x + y
}

pub(crate) fn widened(x: i64) -> i128
    ensures value { result ≡ x }
    ensures size { nat_abs result ≤ 2 ^ 63 }
{
    i128::from(x)
}

pub(crate) fn negated(x: i128) -> i128
    requires { nat_abs x < 2 ^ 127 }
    ensures value { result ≡ neg_ℤ x }
    ensures size { nat_abs result ≡ nat_abs x }
{
    -x
}

fn number_at(list: &[i128], place: usize) -> i128
    ensures { result ≡ slice_index_or list.now place (pos 0) }
{
    match list.get(place) {
        Some(number) => *number,
        None => 0,
    }
}

/// f and so many times g, place by place.
pub(crate) fn combined(
    alloc: Global,
    f: &[i128],
    times: i128,
    g: &[i128],
) -> Result<Vec<i128>, Memory>
    requires { (j : ℕ) → nat_abs (slice_index_or f.now j (pos 0))
        + nat_abs times * nat_abs (slice_index_or g.now j (pos 0)) < 2 ^ 127 }
    ensures { IfOk result (λ sum. sum.items ≡ added f.now (map (λ a. times *ℤ a) g.now)) }
{
    let mut sum = Vec::new(alloc);
    for place in 0..f.len().max(g.len()) {
        let x = number_at(f, place);
        let y = number_at(g, place);
        sum.push(plus_multiple(x, times, y))?;
    }
    Ok(sum)
}

pub(crate) fn is_small(number: i128) -> bool
    ensures { result ≡ is_small number }
{
    number.unsigned_abs() <= LIMIT
}

pub(crate) fn all_small(list: &[i128]) -> bool
    ensures { result ≡ all_small list.now }
{
    for number in list {
        if !is_small(*number) {
            return false;
        }
    }
    true
}

/// How many of them aren't 0.
pub(crate) fn not_zero(list: &[i128]) -> usize
    ensures count { result ≡ not_zero list.now }
    ensures most { result ≤ length list.now }
{
    let mut count = 0;
    for number in list {
        if *number != 0 {
            count += 1;
        }
    }
    count
}
