//! Whole points of lines over the two iterations of one loop: all of a line, those of two lines, and the least one
//! that is a pair of iterations of the loop in a direction. Everything is solved, nothing is tried. Coefficients go up
//! to 2^44, and trips up to 2^64.
mod bezout;
mod crossing;
mod line;
mod points;
mod stretch;
mod whole;

pub use crossing::{Crossing, common_points};
pub use line::{Both, least_on_line};
pub use points::Line;
pub use whole::{Quotient, divided, times};
