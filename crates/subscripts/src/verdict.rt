//! What a dependence test answers.

/// What settled a verdict.
#[derive(Clone, Copy, Debug, PartialEq, Eq)]
pub enum Test {
    /// A loop without the iterations that a direction asks for.
    Trip,
    /// The variable is no array.
    Scalar,
    Ziv,
    /// The strong SIV test.
    Strong,
    /// The weak-zero SIV test.
    WeakZero,
    /// The weak-crossing SIV test.
    Crossing,
    /// The SIV test of any other coefficients.
    Siv,
    /// The Delta test.
    Delta,
    Gcd,
    /// Banerjee's test of the extremes.
    Range,
    /// Several loops.
    Miv,
    /// A subscript that isn't linear.
    Unknown,
}

/// An iteration of each loop round a reference from the outside in; 1 in a place of no loop.
#[derive(Clone, Copy, Debug)]
pub struct Point {
    pub at: [i64; 7],
}

/// Whether a pair of iterations exists.
#[derive(Clone, Copy, Debug)]
pub enum Verdict {
    /// None exists.
    Never(Test),
    /// This one does, of the first reference and of the second.
    Pair(Point, Point, Test),
    /// It isn't known, and so assumed.
    Assumed(Test),
}
