//! Laws of rules. A law is a function without a body: its contract is what holds.
ghost use Rattle.rewrite.specs.Replacing.{ReplacingKeepsProfile};

/// The rule that puts an expression in place of a scalar variable keeps the profile, where both are INTEGER scalars.
pub fn replaced_profile()
    ensures { ReplacingKeepsProfile }
{}
