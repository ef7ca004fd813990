//! Faults at lines, numbers that are stored, and how often loops turn.
ghost use Rattle.std.specs.Prelude.{◌≡◌, ◌<◌, ◌-ℤ◌, ◌+ℤ◌, int_div, Ok, Err, MatchResult, pos, ℕ, ℤ, IfOk};
ghost use Rattle.meaning.specs.Value.{exact, is_in_range, trip_count, as_count};
ghost use Rattle.tree.specs.Widths.{bits_of};
ghost use Rattle.machine.specs.Moments.{located, checked};
ghost use Rattle.machine.specs.Loops.{nonzero};

use crate::progress::Halt;
use tree::{Fault, Value, Width};

/// The answer with its fault at the line.
pub fn at<T: Drop>(line: u32, answer: Result<T, Fault>) -> Result<T, Halt>
    ensures { result ≡ located line answer }
{
    match answer {
        Ok(value) => Ok(value),
        Err(fault) => Err(Halt::Fault(fault, line)),
    }
}

fn fits_integer(width: Width, value: Value) -> bool
    ensures { result ≡ is_in_range (bits_of width) value }
{
    match value {
        Value::Int(number) => width.holds(number),
        Value::Truth(_) => true,
    }
}

/// A number outside the range of INTEGER can't be stored.
pub fn check_range(width: Width, value: Value) -> Result<(), Fault>
    ensures { result ≡ checked (bits_of width) value }
{
    if !fits_integer(width, value) {
        return Err(Fault::Overflow);
    }
    Ok(())
}

/// How often a loop turns, and by how much its variable grows after each turn.
#[derive(Clone, Copy)]
pub struct Turns {
    pub count: u32,
    pub step: i128,
}

/// The third parameter of a loop isn't 0.
pub fn increment(step: i128) -> Result<i128, Fault>
    ensures value { result ≡ nonzero step }
    ensures nonzero { IfOk result (λ z. z ≡ pos 0 → ⊥) }
{
    if step == 0 {
        return Err(Fault::ZeroStep);
    }
    Ok(step)
}

/// The sum, which has to fit 128 bits.
#[tactic(auto, using(crate::proofs::Exact::exact_laws))]
pub fn add(a: i128, b: i128) -> Result<i128, Fault>
    ensures { result ≡ exact (a +ℤ b) }
{
    a.checked_add(b).ok_or(Fault::Overflow)
}

#[tactic(auto, using(crate::proofs::Exact::exact_laws))]
fn subtract(a: i128, b: i128) -> Result<i128, Fault>
    ensures { result ≡ exact (a -ℤ b) }
{
    a.checked_sub(b).ok_or(Fault::Overflow)
}

#[tactic(auto, using(crate::proofs::Exact::exact_laws))]
fn divide(a: i128, b: i128) -> Result<i128, Fault>
    requires { b ≡ pos 0 → ⊥ }
    ensures { result ≡ exact (int_div a b) }
{
    a.checked_div(b).ok_or(Fault::Overflow)
}

/// How often a loop turns (ANSI X3.9-1978, section 11.10.3). The third parameter isn't 0.
#[tactic(auto, using(crate::proofs::Exact::trip_laws))]
pub fn trip_count(first: i128, last: i128, step: i128) -> Result<u32, Fault>
    requires { step ≡ pos 0 → ⊥ }
    ensures { result ≡ trip_count first last step }
{
    let distance = subtract(last, first)?;
    let dividend = add(distance, step)?;
    count(divide(dividend, step)?)
}

fn count(quotient: i128) -> Result<u32, Fault>
    ensures { result ≡ as_count quotient }
{
    if quotient < 0 {
        return Ok(0);
    }
    if quotient > 2147483646 {
        return Err(Fault::TripCount);
    }
    Ok(quotient as u32)
}
