//! The GCD test and Banerjee's test of the extremes.
//!
//! Both look at one subscript pair alone. Where one of them refutes it, no iterations make its sides equal (Banerjee,
//! "Dependence Analysis for Supercomputing"; Goff, Kennedy and Tseng, "Practical Dependence Testing", PLDI 1991,
//! section 4; Allen and Kennedy, "Optimizing Compilers for Modern Architectures", chapter 3).
//!
//! - Proved: `gcd_refutes` and `range_refutes` answer exactly where the divisor's, or the extremes', condition holds
//!   (`exact`), and then there is no pair (`sound`).
//!
//! **Banerjee's test is stated without corners.** "The difference is above 0 all over the region, or below 0 all over
//! it" is what the extremes over the corners decide, since the corners are whole points of the region. That it is sound
//! is one line; that the code decides it exactly is the proof.
mod divisors;
mod extremes;
mod gcd_test;
mod least;
mod range_test;
mod terms;

pub use gcd_test::{gcd_refutes, gcd_refutes_with};
pub use range_test::{range_refutes, range_refutes_with};
