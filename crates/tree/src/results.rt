//! Results that are asked for together: all are made first, so that no tree is held where memory may end.
ghost use Rattle.std.specs.Prelude.{◌≡◌, IfOk};

/// Both values, or the first error. It holds neither at a `?` of the caller's.
pub fn both<A: Drop, B: Drop, E: Drop>(a: Result<A, E>, b: Result<B, E>) -> Result<(A, B), E>
    ensures first { IfOk result (λ pair. a ≡ Ok pair.0) }
    ensures second { IfOk result (λ pair. b ≡ Ok pair.1) }
{
    Ok((a?, b?))
}

/// All three values, or the first error.
pub fn three<A: Drop, B: Drop, C: Drop, E: Drop>(
    a: Result<A, E>,
    b: Result<B, E>,
    c: Result<C, E>,
) -> Result<(A, B, C), E>
    ensures first { IfOk result (λ all. a ≡ Ok all.0) }
    ensures second { IfOk result (λ all. b ≡ Ok all.1) }
    ensures third { IfOk result (λ all. c ≡ Ok all.2) }
{
    Ok((a?, b?, c?))
}
