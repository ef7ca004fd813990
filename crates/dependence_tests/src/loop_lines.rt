//! Pairs of subscripts that have one loop: which loop it is, what bounds its two iterations, and the line that the pair
//! draws over them. The points of that line within the trip and in the direction are the pairs of iterations (Goff,
//! Kennedy and Tseng, "Practical Dependence Testing", PLDI 1991, section 4.2, which draws these lines).
//!
//! - **dependence_tests::loop_lines::line_points**: all whole points of a line, or none (`points_of`); the common
//!   points of two lines (`common_points`); the least point of a line in the square of a trip on the named side of the
//!   diagonal, or that there is none (`least_on_line`).
//!
//! Proved: the one loop of a pairing and its line.
pub mod line_points;
mod one_loop;

pub use one_loop::{
    Bounds, LoopPlace, bounds_at, coefficients_at, constant_trip, line_of, mattering_at,
    one_loop_of, only_loop_of, points_at,
};
