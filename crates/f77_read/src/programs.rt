//! The program of cards.
ghost use Rattle.std.specs.Prelude.{◌≡◌, ◌⊎◌, ◌≤◌, ℕ, List, map, IfOk, IsOkAnd};
ghost use Rattle.tree.specs.Plain.{Program};
ghost use Rattle.tree.specs.View.{program_of};
ghost use Rattle.tree.specs.declared.refusals.Refusal.{Refusal};
ghost use Rattle.f77_names.specs.constants.Declarations.{HaveDimensions};
ghost use Rattle.f77_grammar.specs.Cards.{ReadsCards};
ghost use Rattle.meaning.specs.Dialect.{fortran77};
ghost use Rattle.meaning.specs.Profile77.{IsProgram77};
ghost use Rattle.f77_cards.specs.Card.{card_of};
ghost use Rattle.f77_grammar.specs.syntax.Views.{text_of};
ghost use Rattle.f77_laws.specs.SourceCards.{AreRisingCards};
ghost use Rattle.f77_grammar.specs.Reading77.{ReadsProgram, RefusedProgram};
ghost use Rattle.f77_read.specs.Outcomes.{IsTextBuilt, AreCardsBuilt};

use crate::cards::read_cards;
use f77_cards::Card;
use f77_checks::{Known, check};
use f77_grammar::syntax::Labelled;
use f77_structure::with_loop_labels;
use f77_tree::tree;
use std::alloc::Global;
use tree::{Program77, Refused, Seq, Width};

fn build_text(alloc: Global, text: &[Labelled], width: Width) -> Result<Program77, Refused>
    ensures built { IsTextBuilt width (text_of text.now) result }
    ensures dimensions { IfOk result (λ program. HaveDimensions program.decls) }
{
    let known = Known::of_text(alloc, text, width)?;
    check(alloc, text, &known)?;
    Ok(tree(alloc, text, &known.names, &known.constants)?)
}

fn build_cards(alloc: Global, cards: &[Card], width: Width) -> Result<Program77, Refused>
    ensures built { AreCardsBuilt width (map card_of cards.now) result }
    ensures dimensions { IfOk result (λ program. HaveDimensions program.decls) }
{
    let written = read_cards(alloc, cards)?;
    let text = with_loop_labels(alloc, written)?;
    build_text(alloc, text.as_slice(), width)
}

/// The program that the statements of the cards form, with INTEGER of this width.
///
/// The cards are those of a whole source, and each of them is tried before a refusal is answered.
#[tactic(auto, using(crate::proofs::Answers::answer_laws))]
pub fn build(alloc: Global, cards: &Seq<Card>, width: Width) -> Result<Program77, Refused>
    ensures ok { IfOk result (λ p. ReadsProgram (fortran77 width) (map card_of cards.now) (program_of p)) }
    ensures program { (source : List ℕ) → ReadsCards source (map card_of cards.now)
        → IfOk result (λ p. IsProgram77 (fortran77 width) (program_of p)) }

    // Whoever prints its arrays finds bounds there.
    ensures dimensions { IfOk result (λ p. HaveDimensions p.decls) }

    // From 10 on the numbers are those of findings in the statements, whose order is that of lines.
    ensures refused { (r : Refusal) → result ≡ Err (Refused.Refusal r)
        → (10 ≤ r.number → AreRisingCards (map card_of cards.now))
        → RefusedProgram (fortran77 width) (map card_of cards.now) r }

    // Cards that are read, or refused, have no other answer, unless memory runs out.
    ensures only_read { (p : Program) → ReadsProgram (fortran77 width) (map card_of cards.now) p
        → IsOkAnd result (λ built. program_of built ≡ p) ⊎ (result ≡ Err Refused.Memory) }
    ensures only_refused { (r : Refusal) → RefusedProgram (fortran77 width) (map card_of cards.now) r
        → (10 ≤ r.number → AreRisingCards (map card_of cards.now))
        → (result ≡ Err (Refused.Refusal r)) ⊎ (result ≡ Err Refused.Memory) }
{
    build_cards(alloc, cards.as_slice(), width)
}
