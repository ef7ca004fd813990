//! Sums of multiples of linear forms.
ghost use Rattle.std.specs.Prelude.{◌≡◌, ◌≤◌, ◌<◌, ◌+◌, ◌*◌, ◌^◌, ◌*ℤ◌, IsTrue, length, unsigned_abs};
ghost use Rattle.std.specs.List.{list_all};
ghost use Rattle.linear_forms.specs.Linear.{is_small};
ghost use Rattle.linear_forms.specs.Pushing.{small_or_none, pushed};
ghost use Rattle.last_values.specs.declared.normal_forms.places.Place.TheVariants.{Loop, Symbol};
ghost use Rattle.last_values.specs.normal_forms.Combinations.{combined_at, all_within, seven, with_symbol_terms};
ghost use Rattle.last_values.specs.normal_forms.Combinations.{has_small_factor, combination};

use crate::normal_forms::places::Place;
use linear_forms::Terms;
use subscripts::Affine;

const SMALL: u64 = 1 << 40;

const LIMIT: u128 = 1 << 40;

/// So many times a form.
#[derive(Clone, Copy)]
pub struct Multiple {
    pub times: i64,
    pub form: Affine,
}

pub(crate) fn is_small(number: i64) -> bool
    ensures { result ≡ is_small number }
{
    number.unsigned_abs() <= SMALL
}

fn small(number: i128) -> Option<i64>
    ensures { result ≡ small_or_none number }
{
    if number.unsigned_abs() > LIMIT {
        return None;
    }
    Some(number as i64)
}

#[tactic(auto, using(crate::proofs::NormalForms::Sizes::product_within))]
fn product(times: i64, number: i64) -> i128
    requires { IsTrue (is_small times) }
    ensures value { result ≡ times *ℤ number }
    ensures size { unsigned_abs result ≤ 2 ^ 103 }
{
    i128::from(times) * i128::from(number)
}

fn have_small_factors(terms: &[Multiple]) -> bool
    ensures { result ≡ list_all has_small_factor terms.now }
{
    terms.iter().all(|term| is_small(term.times))
}

// The number at a place of the sum.
#[tactic(auto, using(crate::proofs::NormalForms::Sizes::sum_sizes))]
fn combined_at(terms: &[Multiple], place: Place) -> i128
    requires small { IsTrue (list_all has_small_factor terms.now) }
    requires few { length terms.now ≤ 16 }
    ensures value { result ≡ combined_at terms.now place }
    ensures size { unsigned_abs result ≤ length terms.now * 2 ^ 103 }
{
    let Some((first, rest)) = terms.split_first() else {
        return 0;
    };
    product(first.times, place.of(&first.form)) + combined_at(rest, place)
}

fn small_at(terms: &[Multiple], place: Place) -> Option<i64>
    requires small { IsTrue (list_all has_small_factor terms.now) }
    requires few { length terms.now ≤ 16 }
    ensures { result ≡ small_or_none (combined_at terms.now place) }
{
    small(combined_at(terms, place))
}

fn loops_of(terms: &[Multiple]) -> Option<[i64; 7]>
    requires small { IsTrue (list_all has_small_factor terms.now) }
    requires few { length terms.now ≤ 16 }
    ensures { result ≡ all_within (seven (λ k. combined_at terms.now (Loop k))) }
{
    let first = small_at(terms, Place::Loop(0))?;
    let second = small_at(terms, Place::Loop(1))?;
    let third = small_at(terms, Place::Loop(2))?;
    let fourth = small_at(terms, Place::Loop(3))?;
    let fifth = small_at(terms, Place::Loop(4))?;
    let sixth = small_at(terms, Place::Loop(5))?;
    let last = small_at(terms, Place::Loop(6))?;
    Some([first, second, third, fourth, fifth, sixth, last])
}

// One more symbol; one with the coefficient 0 is left out.
fn with(terms: Terms, place: u16, number: i128) -> Option<Terms>
    ensures { result ≡ pushed place number terms }
{
    if number == 0 {
        return Some(terms);
    }
    let Some(number) = small(number) else {
        return None;
    };
    if terms.used >= 8 {
        return None;
    }
    let mut at = terms.at;
    at[terms.used] = (place, number);
    Some(Terms {
        at,
        used: terms.used + 1,
    })
}

// The symbols of the sum from a place on, of which there are so many.
#[tactic(auto, using(crate::proofs::NormalForms::Symbols::with_symbols_more))]
fn with_symbols(terms: &[Multiple], count: u16, place: u16, so_far: Terms) -> Option<Terms>
    requires small { IsTrue (list_all has_small_factor terms.now) }
    requires few { length terms.now ≤ 16 }
    requires places { count + place < 2 ^ 16 }
    ensures { result ≡ with_symbol_terms (λ j. combined_at terms.now (Symbol j)) count place so_far }
{
    if count == 0 {
        return Some(so_far);
    }
    let number = combined_at(terms, Place::Symbol(usize::from(place)));
    let Some(so_far) = with(so_far, place, number) else {
        return None;
    };
    with_symbols(terms, count - 1, place + 1, so_far)
}

const NO_TERMS: Terms = Terms {
    at: [(0, 0); 8],
    used: 0,
};

/// The sum of the multiples, where it and the factors are within the limits; `count` is how many places are those of
/// symbols and divided trips.
#[tactic(auto, unfolding(crate::specs::normal_forms::Combinations::combination))]
pub fn combination(terms: &[Multiple], count: u16) -> Option<Affine>
    requires { length terms.now ≤ 16 }
    ensures { result ≡ combination count terms.now }
{
    if !have_small_factors(terms) {
        return None;
    }
    let loops = loops_of(terms)?;
    let symbols = with_symbols(terms, count, 0, NO_TERMS)?;
    let constant = small_at(terms, Place::Constant)?;
    let syms = symbols.at;
    Some(Affine {
        loops,
        syms,
        constant,
    })
}
