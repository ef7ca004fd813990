//! What doesn't suit the blocks round it.
ghost use Rattle.std.specs.Prelude.{◌≡◌, ℕ, Option, List, IfOk};
ghost use Rattle.std.specs.List.{AllByRecursion};
ghost use Rattle.tree.specs.Plain.{Declaration};
ghost use Rattle.tree.specs.declared.functions.Intrinsic.{Intrinsic};
ghost use Rattle.f90_laws.specs.blocks.Places.{SuitsPlace, surroundings_of};
ghost use Rattle.f90_names.specs.kinds.declarations.Names.{AreNamesOf};
ghost use Rattle.f90_grammar.specs.Blocks as grammar;
ghost use Rattle.f90_blocks.specs.places.forms.Places.{IsPlacedOf};
ghost use Rattle.f90_blocks.specs.places.First.{FindsFirst};
ghost use Rattle.f90_statement.specs.Views.{AreOf};
ghost use Rattle.f90_read.specs.surroundings.Misplaced.{earlier, AreProper, IsWrittenOut};

use crate::surroundings::jumping::first_wrong_jump;
use crate::surroundings::looping::first_misuse;
use f90_blocks::places::forms::Placed;
use f90_names::kinds::declarations::Names;
use std::alloc::Global;
use tree::Memory;

// The earlier of two places.
fn earlier(a: Option<usize>, b: Option<usize>) -> Option<usize>
    ensures { result ≡ earlier a b }
{
    match (a, b) {
        (None, b) => b,
        (Some(i), None) => Some(i),
        (Some(i), Some(j)) => Some(i.min(j)),
    }
}

/// The first statement that sets a DO variable of a loop or list round it, has a wrong DO variable of its own, or jumps
/// to a label that isn't ahead of it (ISO/IEC 1539:1991, sections 8.1.4.1, 8.2 and 9.4.2). It takes about as long as
/// the text, but for loops in one another: each name that is set is looked for among their variables.
pub fn first_misplaced(
    alloc: Global,
    text: &[Placed],
    names: &Names,
) -> Result<Option<usize>, Memory>
    ensures { (ps : List grammar.Placed) (ds : List Declaration) (function : List ℕ → Option Intrinsic)
        → AreOf IsPlacedOf text.now ps → AreNamesOf names.now ds → AreProper ds function
        → AllByRecursion IsWrittenOut ps → IfOk result (λ found. FindsFirst ps
        (λ p. SuitsPlace ds function p.here.form (surroundings_of p) → ⊥) found) }
{
    let misuse = first_misuse(alloc, text, names)?;
    let jump = first_wrong_jump(alloc, text)?;
    Ok(earlier(misuse, jump))
}
