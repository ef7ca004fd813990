//! The tests of one subscript pair that has no loop, or one (Goff, Kennedy and Tseng, "Practical Dependence Testing",
//! PLDI 1991, sections 4.1 and 4.2; Allen and Kennedy, "Optimizing Compilers for Modern Architectures", chapter 3).
//!
//! The papers' strong, weak-zero and weak-crossing SIV tests are one here: a pair of one loop is a line over that
//! loop's two iterations, and the least point of it within the trip is solved for. The word of the answer tells them
//! apart.
//!
//! - Proved (`test_ziv`, `test_siv`): *never* means no pair (`never`), and with a constant trip none in the cut bounds
//!   either (`exact`); a pair that is given is the least one (`pair`); *assumed* comes only where no constant trip is
//!   known and neither GCD nor range refutes (`assumed`); the word names the class (`word`).
//!
//! **One solver for all SIV classes.** Strong, weak-zero, weak-crossing and general SIV pairs are lines over the two
//! iterations of one loop; all whole points of a line are a progression, and bounds and direction each cut a stretch of
//! it. The class gives the word of the answer and nothing else.
mod siv;
mod ziv;

pub use siv::test_siv;
pub use ziv::test_ziv;
