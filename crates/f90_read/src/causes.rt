//! Why the statements of a text are refused: each number in turn, at the first statement where it holds.
ghost use Rattle.std.specs.Prelude.{ℕ, List};
ghost use Rattle.f90_blocks.specs.statement_trees.Results.{AreOfSome};
ghost use Rattle.f90_grammar.specs.Blocks as grammar;
ghost use Rattle.f90_grammar.specs.Declared.{declarations_of};
ghost use Rattle.f90_names.specs.kinds.declarations.Names.{AreNamesOf};
ghost use Rattle.f90_blocks.specs.places.forms.Places.{IsPlacedOf};
ghost use Rattle.f90_statement.specs.Views.{AreOf};
ghost use Rattle.f90_read.specs.Checks.{IsTextOf, IsNamedTextOf, IsClearBelow, Clears, RefusesAt};

use crate::f90_suits::{first_unknown, first_unsuited};
use crate::surroundings::first_misplaced;
use f90_blocks::places::forms::Placed;
use f90_blocks::places::{earlier, first_deep, first_wide, line_at};
use f90_blocks::structure::{first_deep_block, first_disordered, first_wrong_label};
use f90_names::kinds::declarations::{
    Names, first_beyond_bounds, first_beyond_elements, first_beyond_names, first_repeated,
};
use f90_trees::Functions;
use std::alloc::Global;
use tree::{Cause, Refused};

// For the cause, at the place, if there is one.
fn refuse(text: &[Placed], place: Option<usize>, cause: Cause) -> Result<(), Refused>
    ensures { (ps : List grammar.Placed) → AreOf IsPlacedOf text.now ps → RefusesAt ps cause place result }
{
    let Some(place) = place else {
        return Ok(());
    };
    match line_at(text, place) {
        Some(line) => Err(Refused::Refusal(cause.at(line))),
        None => Ok(()),
    }
}

fn check_literals(text: &[Placed]) -> Result<(), Refused>
    ensures { (source : List ℕ) (ps : List grammar.Placed) → IsTextOf source ps text.now → IsClearBelow source 35
        → Clears source 36 result }
{
    refuse(text, first_wide(text), Cause::WideLiteral90)
}

fn check_depth(text: &[Placed]) -> Result<(), Refused>
    ensures { (source : List ℕ) (ps : List grammar.Placed) → IsTextOf source ps text.now → IsClearBelow source 36
        → Clears source 37 result }
{
    refuse(text, first_deep(text), Cause::Deep90)
}

// Blocks and the order of statements come first: what stands in which block is known only where they are right.
fn check_structure(alloc: Global, text: &[Placed], names: &Names) -> Result<(), Refused>
    ensures { (source : List ℕ) (ps : List grammar.Placed) → IsTextOf source ps text.now
        → AreNamesOf names.now (declarations_of ps) → IsClearBelow source 37 → Clears source 38 result }
{
    if text.is_empty() {
        return Err(Refused::Refusal(Cause::Structure.at(0)));
    }
    let disorder = first_disordered(alloc, text)?;
    refuse(text, disorder, Cause::Structure)?;
    let label = first_wrong_label(alloc, text)?;
    let misplaced = first_misplaced(alloc, text, names)?;
    refuse(text, earlier(label, misplaced), Cause::Structure)
}

fn check_names(
    alloc: Global,
    text: &[Placed],
    functions: &Functions,
    names: &Names,
) -> Result<(), Refused>
    requires { AreOfSome IsPlacedOf text.now }
    ensures { (source : List ℕ) (ps : List grammar.Placed)
        → IsNamedTextOf source ps text.now functions.now names.now → IsClearBelow source 38
        → Clears source 39 result }
{
    let repeated = first_repeated(alloc, text)?;
    let unknown = first_unknown(alloc, text, functions, names)?;
    refuse(text, earlier(repeated, unknown), Cause::Declared90)
}

fn check_kinds(
    alloc: Global,
    text: &[Placed],
    functions: &Functions,
    names: &Names,
) -> Result<(), Refused>
    requires { AreOfSome IsPlacedOf text.now }
    ensures { (source : List ℕ) (ps : List grammar.Placed)
        → IsNamedTextOf source ps text.now functions.now names.now → IsClearBelow source 39
        → Clears source 40 result }
{
    let unsuited = first_unsuited(alloc, text, functions, names)?;
    refuse(text, unsuited, Cause::TypeClash90)
}

fn check_limits(alloc: Global, text: &[Placed]) -> Result<(), Refused>
    ensures { (source : List ℕ) (ps : List grammar.Placed) → IsTextOf source ps text.now → IsClearBelow source 40
        → Clears source 41 result }
{
    let blocks = first_deep_block(alloc, text)?;
    let bounds = earlier(blocks, first_beyond_bounds(text));
    let elements = earlier(bounds, first_beyond_elements(text));
    let names = earlier(elements, first_beyond_names(text));
    refuse(text, names, Cause::Limit90)
}

/// Whether the statements are those of a program, or why they aren't.
pub(crate) fn check(
    alloc: Global,
    text: &[Placed],
    functions: &Functions,
    names: &Names,
) -> Result<(), Refused>
    requires { AreOfSome IsPlacedOf text.now }
    ensures { (source : List ℕ) (ps : List grammar.Placed)
        → IsNamedTextOf source ps text.now functions.now names.now → IsClearBelow source 35
        → Clears source 41 result }
{
    check_literals(text)?;
    check_depth(text)?;
    check_structure(alloc, text, names)?;
    check_names(alloc, text, functions, names)?;
    check_kinds(alloc, text, functions, names)?;
    check_limits(alloc, text)
}
