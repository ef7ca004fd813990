//! The earlier of two places.
ghost use Rattle.std.specs.Prelude.{◌≡◌};
ghost use Rattle.f90_blocks.specs.places.First as first;

/// The earlier of two places, where there is one. The earlier of the first places of two things is the first at which
/// one of the two holds.
pub fn earlier(a: Option<usize>, b: Option<usize>) -> Option<usize>
    ensures { result ≡ first.earlier a b }
{
    match (a, b) {
        (None, b) => b,
        (Some(i), None) => Some(i),
        (Some(i), Some(j)) => Some(i.min(j)),
    }
}
