//! Counts of the elements of arrays.
ghost use Rattle.std.specs.Prelude.{◌≡◌, ◌*◌, ◌+◌};
ghost use Rattle.meaning.specs.Store.{size_of};
ghost use Rattle.meaning.specs.element_counts.Counts.{capped};

use tree::ARRAY_ELEMENTS;

// More than the most count as one more than those.
fn at_most(number: u64) -> u64
    ensures { result ≡ capped number }
{
    number.min(ARRAY_ELEMENTS + 1)
}

/// The sum of two counts.
pub fn sum_of(a: u64, b: u64) -> u64
    ensures { result ≡ capped (a + b) }
{
    at_most(a.saturating_add(b))
}

/// The product of two counts.
pub fn product_of(a: u64, b: u64) -> u64
    ensures { result ≡ capped (a * b) }
{
    at_most(a.saturating_mul(b))
}

/// How many numbers a dimension of these bounds has, or one more than the most elements where there are more.
pub fn size_between(lower: i128, upper: i128) -> u64
    ensures { result ≡ capped (size_of (lower, upper)) }
{
    if upper < lower {
        return 0;
    }
    let Some(difference) = upper.checked_sub(lower) else {
        return ARRAY_ELEMENTS + 1;
    };
    if difference > i128::from(ARRAY_ELEMENTS) {
        return ARRAY_ELEMENTS + 1;
    }
    at_most(difference as u64 + 1)
}
