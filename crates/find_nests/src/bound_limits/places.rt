//! Coefficients at their places.
ghost use Rattle.std.specs.Prelude.{◌≡◌, ◌≤◌, ◌^◌, ◌++◌, ◌∷◌, [], ℕ, ℤ, List, pos, nat_abs, replicate};
ghost use Rattle.std.specs.Prelude.{slice_index_or, IfOk};
ghost use Rattle.linear_forms.specs.Places.{padded, terms_from};
ghost use Rattle.find_nests.specs.bound_limits.Composed.{filled};
ghost use Rattle.find_nests.specs.bound_limits.Terms.{coefficient_at};

use crate::bound_limits::numbers::widened;
use std::alloc::Global;
use tree::Memory;

// The coefficient of the first term with this place; 0 where there is none.
fn coefficient_at(terms: &[(u16, i64)], place: usize) -> i128
    ensures value { result ≡ coefficient_at terms.now place }
    ensures size { nat_abs result ≤ 2 ^ 63 }
{
    let Some((first, rest)) = terms.split_first() else {
        return 0;
    };
    if usize::from(first.0) == place {
        return widened(first.1);
    }
    coefficient_at(rest, place)
}

/// The coefficients of so many symbols, by their terms.
pub(crate) fn coefficients(
    alloc: Global,
    terms: &[(u16, i64)],
    count: usize,
) -> Result<Vec<i128>, Memory>
    ensures value { IfOk result (λ list. (cs : List ℤ) → terms.now ≡ padded (terms_from 0 cs)
        → list.items ≡ filled count cs) }
    ensures size { IfOk result (λ list. (j : ℕ) → nat_abs (slice_index_or list.items j (pos 0)) ≤ 2 ^ 63) }
{
    let mut list = Vec::new(alloc);
    for place in 0..count {
        list.push(coefficient_at(terms, place))?;
    }
    Ok(list)
}

/// 1 at a place, and 0 at those before it.
pub(crate) fn unit(alloc: Global, place: usize) -> Result<Vec<i128>, Memory>
    ensures { IfOk result (λ list. list.items ≡ replicate place (pos 0) ++ pos 1 ∷ []) }
{
    let mut list = Vec::from_elem(alloc, 0, place)?;
    list.push(1)?;
    Ok(list)
}
