//! The limits of bounds, elements and names.
ghost use Rattle.std.specs.Prelude.{◌≡◌, ◌<◌, ◌↔◌, false, IsTrue, map, length, Contains, List};
ghost use Rattle.std.specs.List.{list_any, AllByRecursion};
ghost use Rattle.tree.specs.Limits as limits;
ghost use Rattle.meaning.specs.Extents.{IsDimension};
ghost use Rattle.f90_grammar.specs.Blocks as grammar;
ghost use Rattle.f90_grammar.specs.Bounds.{HasBounds, declared_up_to, HasManyNames};
ghost use Rattle.f90_grammar.specs.Contents.{is_declared_wide, has_wide_literal_in};
ghost use Rattle.f90_grammar.specs.Declared.{declarations_in};
ghost use Rattle.f90_grammar.specs.Forms as forms;
ghost use Rattle.f90_grammar.specs.Forms.{Form90};
ghost use Rattle.f90_grammar.specs.Order.{Place90};
ghost use Rattle.f90_grammar.specs.Reading.{dimension_bounds};
ghost use Rattle.f90_blocks.specs.places.forms.Places.{IsPlacedOf};
ghost use Rattle.f90_blocks.specs.places.First.{FindsFirst};
ghost use Rattle.f90_statement.specs.Views.{AreOf, IsDimensionOf, IsEntityOf, IsStatementOf};
ghost use Rattle.f90_names.specs.kinds.declarations.Bounds.{are_wide, given_bounds, given_in, elements_in};
ghost use Rattle.f90_names.specs.kinds.declarations.Bounds.{all_elements};
ghost use Rattle.meaning.specs.element_counts.Counts.{capped};

use crate::kinds::declarations::bounds::{dim, elements};
use f90_blocks::places::forms::Placed;
use f90_statement::{Dimension, Entity, Statement};
use meaning::element_counts::sum_of;
use tree::{ARRAY_ELEMENTS, PROGRAM_NAMES_90};

// ---- bounds

fn are_bounds(dimensions: &[Dimension]) -> bool
    ensures { (ds : List forms.Dimension) → AreOf IsDimensionOf dimensions.now ds
        → IsTrue result ↔ AllByRecursion IsDimension (map dimension_bounds ds) }
{
    for dimension in dimensions {
        if dim(*dimension).is_none() {
            return false;
        }
    }
    true
}

fn have_bounds(entities: &[Entity]) -> bool
    ensures { (es : List forms.EntityForm90) → AreOf IsEntityOf entities.now es
        → IsTrue result ↔ AllByRecursion (AllByRecursion IsDimension) (map given_bounds es) }
{
    for entity in entities {
        if !are_bounds(entity.dimensions.as_slice()) {
            return false;
        }
    }
    true
}

// The names whose bounds the statement gives: none where they are allocatable.
fn given(statement: &Statement) -> &[Entity]
    ensures { result.now ≡ given_in statement.now }
{
    match statement {
        Statement::Declare(_, false, entities) => entities.as_slice(),
        _ => &[],
    }
}

// Whether the bounds that the statement declares are within 64 bits.
fn has_bounds(statement: &Statement) -> bool
    ensures { (f : Form90) → IsStatementOf statement.now f
        → IsTrue result ↔ AllByRecursion HasBounds (declarations_in f) }
{
    have_bounds(given(statement))
}

/// The place of the first statement with a bound that 64 bits don't hold, counted from 0.
pub fn first_beyond_bounds(text: &[Placed]) -> Option<usize>
    ensures { (ps : List grammar.Placed) → AreOf IsPlacedOf text.now ps
        → FindsFirst ps (λ (p : Place90). AllByRecursion HasBounds (declarations_in p.here.form) → ⊥) result }
{
    for (i, placed) in text.iter().enumerate() {
        if !has_bounds(&placed.statement) {
            return Some(i);
        }
    }
    None
}

// ---- elements

fn elements_of(entities: &[Entity]) -> u64
    ensures { (es : List forms.EntityForm90) → AreOf IsEntityOf entities.now es → list_any are_wide es ≡ false
        → result ≡ capped (elements_in es) }
{
    let mut count = 0;
    for entity in entities {
        count = sum_of(count, elements(entity.dimensions.as_slice()));
    }
    count
}

// The elements of the arrays that the statement declares; those of allocatable arrays don't count.
fn elements_here(statement: &Statement) -> u64
    ensures { (f : Form90) → IsStatementOf statement.now f → is_declared_wide f ≡ false
        → result ≡ capped (all_elements (declarations_in f)) }
{
    elements_of(given(statement))
}

/// The place of the statement at which the arrays declared so far first have too many elements, counted from 0.
pub fn first_beyond_elements(text: &[Placed]) -> Option<usize>
    ensures { (ps : List grammar.Placed) → AreOf IsPlacedOf text.now ps
        → ((p : grammar.Placed) → Contains ps p → has_wide_literal_in p.form ≡ false)
        → FindsFirst ps (λ (p : Place90). limits.most_array_elements < all_elements (declared_up_to p)) result }
{
    let mut count = 0;
    for (i, placed) in text.iter().enumerate() {
        count = sum_of(count, elements_here(&placed.statement));
        if count > ARRAY_ELEMENTS {
            return Some(i);
        }
    }
    None
}

// ---- names

fn names_here(statement: &Statement) -> usize
    ensures { (f : Form90) → IsStatementOf statement.now f → result ≡ length (declarations_in f) }
{
    match statement {
        Statement::Declare(_, _, entities) => entities.len(),
        _ => 0,
    }
}

/// The place of the statement at which too many names are first declared, counted from 0.
pub fn first_beyond_names(text: &[Placed]) -> Option<usize>
    ensures { (ps : List grammar.Placed) → AreOf IsPlacedOf text.now ps → FindsFirst ps HasManyNames result }
{
    let mut left = PROGRAM_NAMES_90;
    for (i, placed) in text.iter().enumerate() {
        let here = names_here(&placed.statement);
        if here > left {
            return Some(i);
        }
        left -= here;
    }
    None
}
