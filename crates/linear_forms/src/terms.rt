//! Sums of affine forms and their multiples, within the limits.
ghost use Rattle.std.specs.Prelude.{◌≡◌, ◌≤◌, ◌+ℤ◌, ◌*ℤ◌, ◌^◌, MatchOption, Some, ℕ, ℤ, List, [], unsigned_abs, length};
ghost use Rattle.std.specs.List.{position_or_len};
ghost use Rattle.linear_forms.specs.Linear.{Form, limited, sum, multiple, constant_form};
ghost use Rattle.linear_forms.specs.Merging.{IsCombined, IsTooLarge, merged, all_pushed};
ghost use Rattle.linear_forms.specs.Pushing.{small_or_none, pushed};
ghost use Rattle.linear_forms.specs.Merging.{front_used, is_unused};
ghost use Rattle.linear_forms.specs.Places.{padded, terms_from};
ghost use Rattle.linear_forms.specs.Affines.{IsAffineOf, IsFound};

use subscripts::Affine;

/// The form 0.
pub const ZERO: Affine = Affine {
    loops: [0; 7],
    syms: [(0, 0); 8],
    constant: 0,
};

const LIMIT: u128 = 1 << 40;

// A coefficient or a constant within the limit.
fn small(number: i128) -> Option<i64>
    ensures { result ≡ small_or_none number }
{
    if number.unsigned_abs() > LIMIT {
        return None;
    }
    Some(number as i64)
}

fn product(k: i64, b: i64) -> i128
    ensures value { result ≡ k *ℤ b }
    ensures size { unsigned_abs result ≤ 2 ^ 126 }
{
    i128::from(k) * i128::from(b)
}

// a + k * b
fn coefficient(a: i64, b: i64, k: i64) -> i128
    ensures { result ≡ a +ℤ k *ℤ b }
{
    i128::from(a) + product(k, b)
}

fn combined_loops(f: &[i64; 7], g: &[i64; 7], k: i64) -> Option<[i64; 7]>
    ensures { MatchOption result (IsTooLarge f.now g.now k) (IsCombined f.now g.now k) }
{
    let mut loops = [0; 7];
    for at in 0..7 {
        let Some(number) = small(coefficient(f[at], g[at], k)) else {
            return None;
        };
        loops[at] = number;
    }
    Some(loops)
}

/// Symbols with their coefficients, as many as were found so far.
#[derive(Clone, Copy, Debug)]
pub struct Terms {
    pub at: [(u16, i64); 8],
    pub used: usize,
}

impl Terms {
    fn with(self, place: u16, number: i128) -> Option<Terms>
        ensures { result ≡ pushed place number self }
    {
        if number == 0 {
            return Some(self);
        }
        let Some(number) = small(number) else {
            return None;
        };
        if self.used >= 8 {
            return None;
        }
        let mut at = self.at;
        at[self.used] = (place, number);
        Some(Terms {
            at,
            used: self.used + 1,
        })
    }
}

fn count_used(symbols: &[(u16, i64)]) -> usize
    ensures count { result ≡ position_or_len is_unused symbols.now }
    ensures within { result ≤ length symbols.now }
{
    let Some((first, rest)) = symbols.split_first() else {
        return 0;
    };
    if first.1 == 0 {
        return 0;
    }
    1 + count_used(rest)
}

// The symbols in use.
fn used(symbols: &[(u16, i64)]) -> &[(u16, i64)]
    ensures { result.now ≡ front_used symbols.now }
{
    &symbols[..count_used(symbols)]
}

// Multiples of the terms, behind those that there are.
fn with_multiples(terms: &[(u16, i64)], k: i64, sum: Terms) -> Option<Terms>
    ensures { result ≡ all_pushed (merged k [] terms.now) sum }
{
    let Some((first, rest)) = terms.split_first() else {
        return Some(sum);
    };
    let Some(sum) = sum.with(first.0, product(k, first.1)) else {
        return None;
    };
    with_multiples(rest, k, sum)
}

// Terms and multiples of others, both in rising order, behind those that there are.
#[tactic(auto, using(crate::proofs::Merges::merged_equal))]
fn with_both(terms: &[(u16, i64)], others: &[(u16, i64)], k: i64, sum: Terms) -> Option<Terms>
    ensures { result ≡ all_pushed (merged k terms.now others.now) sum }
{
    let Some((t, ts)) = terms.split_first() else {
        return with_multiples(others, k, sum);
    };
    let Some((u, us)) = others.split_first() else {
        return match sum.with(t.0, i128::from(t.1)) {
            None => None,
            Some(sum) => with_both(ts, others, k, sum),
        };
    };
    if t.0 < u.0 {
        return match sum.with(t.0, i128::from(t.1)) {
            None => None,
            Some(sum) => with_both(ts, others, k, sum),
        };
    }
    if u.0 < t.0 {
        return match sum.with(u.0, product(k, u.1)) {
            None => None,
            Some(sum) => with_both(terms, us, k, sum),
        };
    }
    match sum.with(t.0, coefficient(t.1, u.1, k)) {
        None => None,
        Some(sum) => with_both(ts, us, k, sum),
    }
}

const NONE: Terms = Terms {
    at: [(0, 0); 8],
    used: 0,
};

/// f and k times g, where that is within the limits.
pub fn combined(f: &Affine, g: &Affine, k: i64) -> Option<Affine>
    ensures { (n : ℕ) (p q : Form) → n ≤ 7 → IsAffineOf n p f.now → IsAffineOf n q g.now
        → IsFound n (limited n (Some (sum p (multiple k q)))) result }
{
    let Some(loops) = combined_loops(&f.loops, &g.loops, k) else {
        return None;
    };
    let Some(terms) = with_both(used(&f.syms), used(&g.syms), k, NONE) else {
        return None;
    };
    let Some(constant) = small(coefficient(f.constant, g.constant, k)) else {
        return None;
    };
    let syms = terms.at;
    Some(Affine {
        loops,
        syms,
        constant,
    })
}

/// A constant, where it is within the limits.
pub fn constant_form(number: i128) -> Option<Affine>
    ensures { (n : ℕ) → IsFound n (limited n (Some (constant_form number))) result }
{
    let Some(constant) = small(number) else {
        return None;
    };
    Some(Affine {
        loops: [0; 7],
        syms: [(0, 0); 8],
        constant,
    })
}
