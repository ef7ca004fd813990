//! The first thing that is found wrong in a program.
ghost use Rattle.std.specs.Prelude.{◌≡◌, ◌⊎◌, ◌<◌, length, [], Err, OnOk, OnErr};
ghost use Rattle.tree.specs.declared.refusals.Refusal.{Refusal};
ghost use Rattle.meaning.specs.Dialect.{fortran77};
ghost use Rattle.f77_grammar.specs.program.Program77.{findings, RefusedStatements};
ghost use Rattle.f77_laws.specs.Source.{AreRising};
ghost use Rattle.f77_grammar.specs.syntax.Views.{text_of};
ghost use Rattle.f77_checks.specs.First.{IsFoundFirst};
ghost use Rattle.f77_checks.specs.Known.{IsKnownOf};
ghost use Rattle.f77_checks.specs.Outcomes.{IsChecked};

use crate::causes::{
    check_declarations, check_do_variables, check_end, check_jumps, check_kinds, check_labels,
    check_nesting, check_real_names, check_types,
};
use crate::known::Known;
use crate::limits::refuse_breach;
use f77_grammar::syntax::Labelled;
use std::alloc::Global;
use tree::{Cause, Refused};

// The causes come in the order of their numbers.
#[tactic(auto, using(crate::proofs::Chain::chain_laws))]
fn check_statements(alloc: Global, text: &[Labelled], known: &Known) -> Result<(), Refused>
    requires some { 0 < length text.now }
    requires known { IsKnownOf known.now (text_of text.now) }
    ensures { IsChecked known.now.constants.width (text_of text.now) result }
{
    check_labels(alloc, text)?;
    check_nesting(alloc, text, known)?;
    check_end(text)?;
    check_declarations(alloc, text, known)?;
    check_real_names(alloc, text, known)?;
    check_kinds(alloc, text, known)?;
    check_jumps(alloc, text, known)?;
    check_do_variables(alloc, text, known)?;
    refuse_breach(alloc, text, known)?;
    check_types(alloc, text, known)
}

// A program without statements has no END.
#[tactic(auto, using(crate::proofs::Chain::nothing_to_check))]
fn check_text(alloc: Global, text: &[Labelled], known: &Known) -> Result<(), Refused>
    requires { IsKnownOf known.now (text_of text.now) }
    ensures { IsChecked known.now.constants.width (text_of text.now) result }
{
    if text.is_empty() {
        return Err(Refused::Refusal(Cause::NoEnd.at(0)));
    }
    check_statements(alloc, text, known)
}

/// Finds nothing wrong in a program's statements, or refuses them for the cause with the least number, at the first
/// statement at which it holds.
///
/// What is known of the statements is lent.
#[tactic(auto, using(crate::proofs::Answers::answer_laws))]
pub fn check(alloc: Global, text: &[Labelled], known: &Known) -> Result<(), Refused>
    requires { IsKnownOf known.now (text_of text.now) }
    ensures ok { OnOk result (findings (fortran77 known.now.constants.width) (text_of text.now) ≡ []) }
    ensures refused { (r : Refusal) → result ≡ Err (Refused.Refusal r)
        → IsFoundFirst known.now.constants.width (text_of text.now) r }
    ensures rising { (r : Refusal) → result ≡ Err (Refused.Refusal r) → AreRising (text_of text.now)
        → RefusedStatements (fortran77 known.now.constants.width) (text_of text.now) r }

    // A text in which nothing is wrong, or that is refused, has no other answer, unless memory runs out.
    ensures only_sound { findings (fortran77 known.now.constants.width) (text_of text.now) ≡ []
        → OnErr result (result ≡ Err Refused.Memory) }
    ensures only_refused { (r : Refusal) → RefusedStatements (fortran77 known.now.constants.width) (text_of text.now) r
        → AreRising (text_of text.now)
        → (result ≡ Err (Refused.Refusal r)) ⊎ (result ≡ Err Refused.Memory) }
{
    check_text(alloc, text, known)
}
