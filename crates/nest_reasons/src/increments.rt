//! Increments of loops.
ghost use Rattle.std.specs.Prelude.{◌≡◌};
ghost use Rattle.tree.specs.View.{expression_of};
ghost use Rattle.nest_reasons.specs.Increments.{step_of, suitable};

use linear_forms::constant_value;
use tree::{Expr, Value};

const GREATEST: u128 = 1 << 31;

fn suitable(number: i128) -> Option<i64>
    ensures { result ≡ suitable number }
{
    if number == 0 || number.unsigned_abs() > GREATEST {
        return None;
    }
    Some(number as i64)
}

/// The value of an increment, where it is a constant other than 0 of size up to 2^31.
pub fn step_of(step: &Expr) -> Option<i64>
    ensures { result ≡ step_of (expression_of step.now) }
{
    match constant_value(step) {
        Some(Value::Int(number)) => suitable(number),
        Some(Value::Truth(_)) => None,
        None => None,
    }
}
