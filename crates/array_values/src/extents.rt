//! The extents of arrays, positions within them, and their places in column-major order.
ghost use Rattle.std.specs.Prelude.{◌≡◌, ◌<◌, ◌≤◌, ◌+◌, ◌*◌, ◌-◌, ◌^◌, ◌++◌};
ghost use Rattle.std.specs.Prelude.{ℕ, min, length, MatchOption, MatchResult, OnOk};
ghost use Rattle.meaning.specs.ArrayValues.{size, place_of, conform};
ghost use Rattle.array_values.specs.Positions.{position_at, wider};

use tree::{Fault, Memory};

// The first index, and what stands behind it in order.
fn join(index: u128, extent: u128, rest: u128) -> u128
    ensures { (k : ℕ) → rest ≡ min k (2 ^ 128 - 1) → result ≡ min (index + extent * k) (2 ^ 128 - 1) }
{
    index.saturating_add(extent.saturating_mul(rest))
}

/// The place of a position, whose numbers stand in two parts, in column-major order. Beyond 2^128 - 1 it is that.
pub fn place(extents: &[u128], first: &[u128], more: &[u128]) -> u128
    ensures { result ≡ min (place_of extents.now (first.now ++ more.now)) (2 ^ 128 - 1) }
{
    let Some((extent, inner)) = extents.split_first() else {
        return 0;
    };
    if let Some((index, rest)) = first.split_first() {
        return join(*index, *extent, place(inner, rest, more));
    }
    let Some((index, rest)) = more.split_first() else {
        return 0;
    };
    join(*index, *extent, place(inner, rest, &[]))
}

/// How many elements there are, unless they are more than any memory holds.
pub fn count(extents: &[u128]) -> Option<usize>
    ensures { MatchOption result (2 ^ 64 ≤ size extents.now) (λ n. size extents.now ≡ n) }
{
    usize::try_from(saturated_size(extents)).ok()
}

/// How many elements there are, or 2^128 - 1 where they are more.
pub fn saturated_size(extents: &[u128]) -> u128
    ensures { result ≡ min (size extents.now) (2 ^ 128 - 1) }
{
    match extents.split_first() {
        None => 1,
        Some((extent, inner)) => join(0, *extent, saturated_size(inner)),
    }
}

/// Puts the position at this place among those of these extents, in column-major order.
pub fn set_position(position: &mut Vec<u128>, extents: &[u128], place: usize) -> Result<(), Memory>
    requires { place < size extents.now }
    ensures { OnOk result (position.new.items ≡ position_at extents.now place) }
{
    position.clear();
    let mut rest = place as u128;
    for extent in extents {
        position.push(rest % *extent)?;
        rest /= *extent;
    }
    Ok(())
}

/// Whether two arrays conform: their extents are equal, or one is a scalar.
pub fn check_conform(one: &[u128], other: &[u128]) -> Result<(), Fault>
    ensures { MatchResult result (λ _. conform one.now other.now ≡ Ok (wider one.now other.now))
        (λ fault. conform one.now other.now ≡ Err fault) }
{
    if one.is_empty() || other.is_empty() || one == other {
        return Ok(());
    }
    Err(Fault::Shape)
}
