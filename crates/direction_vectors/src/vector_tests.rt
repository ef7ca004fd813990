//! Whether two references meet in a direction vector: all their subscripts are tested together (Goff, Kennedy and
//! Tseng, "Practical Dependence Testing", PLDI 1991, section 4; Allen and Kennedy, "Optimizing Compilers for Modern
//! Architectures", chapter 3).
//!
//! - Proved (`test_vector`, of two references with up to seven subscripts and loops, in one vector): *never* means that
//!   no iterations within all spans, related as the vector says, make all linear subscript pairs equal for any values
//!   of the symbols (`never`), and its word is one that this vector may bear (`dropped`): TRIP exactly where a loop
//!   lacks the iterations; else ZIV exactly where a pair without a loop has two constants; else it names a separable
//!   pair of its class, a group, or a separable pair of several loops that by itself leaves none. A pair that is given
//!   is the least one of all, and comes in the exact class alone (`pair`); *assumed* comes only outside that class, and
//!   only where neither the trips, nor GCD or range for a linear pair, nor the one loop of a group with a constant trip
//!   refutes the vector (`assumed`). So in the exact class a pair is given exactly where one exists. The word of a pair
//!   and of an assumption is that of the first pair that isn't ZIV (`kept`). Whether two references keep what the call
//!   asks for is a call of its own (`RefPair::is_valid`).
//!
//! **The exact class is told by single pairs.** It is that each pair has no loop or one, and that all trips are
//! constants. Pairs of one loop each that are coupled have one and the same loop, so this is the class of groups of one
//! loop.
//!
//! **A least pair is put together loop by loop.** Where all pairs have one loop or none, the iterations of each loop
//! are chosen by themselves: the meetings are a product, and the least of a product has the least in each place. That
//! each loop has some is proved from the tests' refuting nothing, so there is no third answer.
//!
//! **A refuted group of one loop is said by its loop's two iterations.** No iterations from 1 to the trip, related as
//! the vector says, make both sides of each member equal. It is the same for a separable pair, whose group is itself.
//!
//! **The word of a drop is allowed, not fixed, by the contract.** Several causes may leave no pair, and the contract
//! allows the word of each; TRIP and ZIV come exactly where they hold. The code takes the first in a fixed order:
//! trips, ZIV, separable pairs of one loop, groups, separable pairs of several loops (GCD before RANGE, pair by pair).
//!
//! **A couple of references keeps lists of seven places.** The arrays of a pairing are lists for the prover; that they
//! have seven places is asked of the caller (`IsSubscriptOf`, `IsVectorOf`), since a list of pairings doesn't tell.
mod coupled;
mod drops;
mod least;
mod open;
mod refs;
mod shapes;
mod siv;
mod trips;
mod vector;
mod words;

pub use open::open_place;
pub use refs::RefPair;
pub use vector::test_vector;
