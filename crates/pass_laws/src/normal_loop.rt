//! Loops that count from 1 by 1.
ghost use Rattle.pass_laws.specs.normal_loop.NormalLoop.{NormalLoopRuns, FirstValueIsForm, TripIsTurned};

/// A loop with any increment, and the loop from 1 by 1 in whose body a linear form in the counter stands for the
/// variable. Where the given loop meets no fault, the other one meets none, also with no turn and with a negative
/// increment; both write the same, and leave all names but the two variables alike.
pub fn normal_loop_runs()
    ensures { NormalLoopRuns }
{}

/// What a normal form asks of the first value holds where that value is linear, and the form's constant is that of the
/// first value less the increment.
pub fn first_value_is_form()
    ensures { FirstValueIsForm }
{}

/// `(m1 - m2 - m3) / (-m3)` is `(m2 - m1 + m3) / m3`: so the trip of a loop with a negative increment needs no negative
/// divisor.
pub fn trip_is_turned()
    ensures { TripIsTurned }
{}
