//! Linear forms of the loops of a nest as loops from 1 by 1: bounds and values of variables, trips, and last values,
//! each composed exactly and then held against the limits; and their texts.
mod combinations;
mod last;
mod laws;
mod loops;
mod places;
mod texts;

pub use combinations::{Multiple, combination};
pub use last::{LastForms, LastTexts, have_plain_trips, last_forms, last_texts, tests_of};
pub use laws::{bound_number, combination_number, normal_loop_numbers};
pub use loops::{NormalLoop, is_known, is_positive, normal_loop};
pub use places::Place;
pub use texts::{at_least_one, counters_of, trip_text, value_text};
