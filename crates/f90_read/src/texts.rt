//! The program of a text.
ghost use Rattle.std.specs.Prelude.{◌≡◌, ◌⊎◌, ◌^◌, ◌<◌, ◌≤◌, ℕ, List, length, IfOk, IsOkAnd};
ghost use Rattle.tree.specs.Limits.{deck_bytes90};
ghost use Rattle.tree.specs.Plain.{Program};
ghost use Rattle.tree.specs.View.{program_of_90};
ghost use Rattle.tree.specs.declared.refusals.Refusal.{Refusal};
ghost use Rattle.meaning.specs.Profile90.{IsProgram90};
ghost use Rattle.f90_blocks.specs.places.forms.Places.{IsPlacedOf};
ghost use Rattle.f90_blocks.specs.statement_trees.Results.{AreOfSome};
ghost use Rattle.f90_grammar.specs.Blocks as grammar;
ghost use Rattle.f90_grammar.specs.Refusals.{Reads90, Refused90};
ghost use Rattle.f90_read.specs.Checks.{IsTextOf, IsClearBelow, IsReadAs};

use crate::causes::check;
use crate::making::{functions_of, program};
use f90_blocks::places::forms::Placed;
use f90_lines::statements;
use f90_names::calls::placed;
use f90_names::kinds::declarations::Names;
use std::alloc::Global;
use tree::{Program90, Refused};

fn read_placed(alloc: Global, text: &[Placed]) -> Result<Program90, Refused>
    requires { AreOfSome IsPlacedOf text.now }
    ensures { (source : List ℕ) (ps : List grammar.Placed) → IsTextOf source ps text.now → IsClearBelow source 35
        → IsReadAs source result }
{
    let functions = functions_of(alloc, text)?;
    let names = Names::of(alloc, text)?;
    check(alloc, text, &functions, &names)?;
    Ok(program(alloc, text, &functions)?)
}

fn read_text(alloc: Global, text: &[u8]) -> Result<Program90, Refused>
    requires { length text.now < 2 ^ 32 }
    ensures { IsReadAs text.now result }
{
    let written = statements(alloc, text)?;
    let placed = placed(alloc, written.as_slice())?;
    read_placed(alloc, placed.as_slice())
}

/// The program that a text in free form is (ISO/IEC 1539:1991, section 3.3.1), or why it is refused: the cause with
/// the least number, at the first line at which it holds.
///
/// A text of at most 2^28 bytes that is read is a program of the profile.
pub fn read90(alloc: Global, text: &[u8]) -> Result<Program90, Refused>
    requires { length text.now < 2 ^ 32 }
    ensures ok { IfOk result (λ p. Reads90 text.now (program_of_90 p)) }
    ensures program { length text.now ≤ deck_bytes90 → IfOk result (λ p. IsProgram90 (program_of_90 p)) }
    ensures refused { (r : Refusal) → result ≡ Err (Refused.Refusal r) → Refused90 text.now r }

    // A text that is read, or refused, has no other answer, unless memory runs out.
    ensures only_read { (p : Program) → Reads90 text.now p
        → IsOkAnd result (λ read. program_of_90 read ≡ p) ⊎ (result ≡ Err Refused.Memory) }
    ensures only_refused { (r : Refusal) → Refused90 text.now r
        → (result ≡ Err (Refused.Refusal r)) ⊎ (result ≡ Err Refused.Memory) }
{
    read_text(alloc, text)
}
