//! Laws of sources that are read or refused. A law is a function without a body: its contract is what holds.
ghost use Rattle.std.specs.Prelude.{◌≡◌, ℕ, ◌≤◌, List};
ghost use Rattle.tree.specs.Plain.{Program};
ghost use Rattle.tree.specs.declared.refusals.Refusal.{Refusal};
ghost use Rattle.meaning.specs.Dialect.{Dialect};
ghost use Rattle.f77_grammar.specs.Cards.{PlainCard};
ghost use Rattle.meaning.specs.Profile77.{IsProgram77};
ghost use Rattle.f77_grammar.specs.Reading77.{RefusedProgram, Reads77, Refused77};

/// What a source is read as is a program of the profile.
pub fn read_source_is_program()
    ensures { (d : Dialect) (source : List ℕ) (p : Program) → d.bits ≤ 126 → Reads77 d source p → IsProgram77 d p }
{}

/// Cards have one refusal at most, and so has a source.
pub fn one_refusal()
    ensures cards { (d : Dialect) (cards : List PlainCard) (r s : Refusal)
        → RefusedProgram d cards r → RefusedProgram d cards s → r ≡ s }
    ensures source { (d : Dialect) (source : List ℕ) (r s : Refusal)
        → Refused77 d source r → Refused77 d source s → r ≡ s }
{}
