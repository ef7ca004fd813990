//! Laws on the statements of fixed form, and on the refusals of its lines.
ghost use Rattle.std.specs.Prelude.{◌≡◌, ◌⊎◌, ℕ, List};
ghost use Rattle.tree.specs.declared.refusals.Refusal.{Refusal};
ghost use Rattle.f77_grammar.specs.Cards.{PlainCard, AreCards, ReadsCards, RefusedCards};

/// Each source is read as cards or refused, never both, and in one way alone.
pub fn source_is_read_or_refused()
    ensures either { (text : List ℕ)
        → ((cards : List PlainCard) × ReadsCards text cards) ⊎ ((r : Refusal) × RefusedCards text r) }
    ensures not_both { (text : List ℕ) (cards : List PlainCard) (r : Refusal)
        → ReadsCards text cards → RefusedCards text r → ⊥ }
    ensures one_list { (text : List ℕ) (a b : List PlainCard)
        → AreCards text a → AreCards text b → a ≡ b }
    ensures one_refusal { (text : List ℕ) (r s : Refusal)
        → RefusedCards text r → RefusedCards text s → r ≡ s }
{}
