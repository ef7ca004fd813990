//! The program of a source.
ghost use Rattle.std.specs.Prelude.{◌≡◌, ◌⊎◌, IfOk, IsOkAnd};
ghost use Rattle.tree.specs.Plain.{Program};
ghost use Rattle.tree.specs.View.{program_of};
ghost use Rattle.tree.specs.declared.refusals.Refusal.{Refusal};
ghost use Rattle.meaning.specs.Dialect.{fortran77};
ghost use Rattle.meaning.specs.Profile77.{IsProgram77};
ghost use Rattle.f77_names.specs.constants.Declarations.{HaveDimensions};
ghost use Rattle.f77_grammar.specs.Reading77.{Reads77, Refused77};

use crate::programs::build;
use f77_cards::statements;
use std::alloc::Global;
use tree::{Program77, Refused, Width};

/// The program that a source in fixed form is, with INTEGER of this width.
#[tactic(auto, using(crate::proofs::SourceLaws::source_laws))]
pub fn read77(alloc: Global, source: &[u8], width: Width) -> Result<Program77, Refused>
    ensures ok { IfOk result (λ p. Reads77 (fortran77 width) source.now (program_of p)) }
    ensures program { IfOk result (λ p. IsProgram77 (fortran77 width) (program_of p)) }
    ensures refused { (r : Refusal) → result ≡ Err (Refused.Refusal r) → Refused77 (fortran77 width) source.now r }

    // Whoever prints its arrays finds bounds there.
    ensures dimensions { IfOk result (λ p. HaveDimensions p.decls) }

    // A source that is read, or refused, has no other answer, unless memory runs out.
    ensures only_read { (p : Program) → Reads77 (fortran77 width) source.now p
        → IsOkAnd result (λ read. program_of read ≡ p) ⊎ (result ≡ Err Refused.Memory) }
    ensures only_refused { (r : Refusal) → Refused77 (fortran77 width) source.now r
        → (result ≡ Err (Refused.Refusal r)) ⊎ (result ≡ Err Refused.Memory) }
{
    let cards = statements(alloc, source)?;
    build(alloc, &cards, width)
}
