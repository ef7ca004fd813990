//! Laws of sources that are read or refused. A law is a function without a body: its contract is what holds.
ghost use Rattle.std.specs.Prelude.{◌≡◌, ◌⊎◌, ℕ, List};
ghost use Rattle.tree.specs.Plain.{Program};
ghost use Rattle.tree.specs.declared.refusals.Refusal.{Refusal};
ghost use Rattle.meaning.specs.Dialect.{Dialect};
ghost use Rattle.f77_grammar.specs.Reading77.{Reads77, Refused77};
ghost use Rattle.f77_read.specs.one_answer.Settled.{AllAreSettled};

/// The characters of a card are read as one statement or refused, by one cause and one word, and never both.
pub fn card_is_read_or_refused()
    ensures { AllAreSettled }
{}

/// Each source is read or refused, never both, and read as one program.
pub fn source_is_read_or_refused()
    ensures either { (d : Dialect) (source : List ℕ)
        → ((p : Program) × Reads77 d source p) ⊎ ((r : Refusal) × Refused77 d source r) }
    ensures not_both { (d : Dialect) (source : List ℕ) (p : Program) (r : Refusal)
        → Reads77 d source p → Refused77 d source r → ⊥ }
    ensures one_program { (d : Dialect) (source : List ℕ) (p q : Program)
        → Reads77 d source p → Reads77 d source q → p ≡ q }
{}
