//! Bounds of declared arrays, and how many elements they make.
ghost use Rattle.std.specs.Prelude.{◌≡◌, false, map, List};
ghost use Rattle.std.specs.List.{list_any};
ghost use Rattle.meaning.specs.Extents.{array_elements, elements_of};
ghost use Rattle.meaning.specs.Store.{size_of};
ghost use Rattle.f90_grammar.specs.Contents.{is_wide_literal, is_wide_dimension};
ghost use Rattle.f90_grammar.specs.Forms as forms;
ghost use Rattle.f90_grammar.specs.Reading.{bound_value, dimension_bounds};
ghost use Rattle.f90_statement.specs.Views.{AreOf, IsBoundOf, IsDimensionOf};
ghost use Rattle.f90_names.specs.kinds.declarations.Bounds.{IsValueOf, IsNarrowOf, IsDimOf};
ghost use Rattle.meaning.specs.element_counts.Counts.{capped};

use f90_statement::{Bound, Dimension};
use meaning::element_counts::{product_of, size_between};
use tree::Dim;

// The value of a bound; none: its literal is above 2^127-1.
fn value(bound: Bound) -> Option<i128>
    ensures { (b : forms.Bound90) → IsBoundOf bound b → IsValueOf result b }
{
    let magnitude = i128::try_from(bound.magnitude?).ok()?;
    if bound.is_negative {
        Some(-magnitude)
    } else {
        Some(magnitude)
    }
}

// The value of a bound; none: 64 bits don't hold it.
fn narrow(bound: Bound) -> Option<i64>
    ensures { (b : forms.Bound90) → IsBoundOf bound b → IsNarrowOf result b }
{
    i64::try_from(value(bound)?).ok()
}

/// The bounds of a dimension; none: 64 bits don't hold one.
pub(crate) fn dim(dimension: Dimension) -> Option<Dim>
    ensures { (d : forms.Dimension) → IsDimensionOf dimension d → IsDimOf result d }
{
    match dimension {
        Dimension::Upper(last) => Some(Dim {
            lower: 1,
            upper: narrow(last)?,
        }),
        Dimension::Both(first, last) => Some(Dim {
            lower: narrow(first)?,
            upper: narrow(last)?,
        }),
        Dimension::Deferred => Some(Dim { lower: 1, upper: 0 }),
    }
}

// ---- elements

// The value of a bound whose literal isn't above 2^127-1.
fn value_or_zero(bound: Bound) -> i128
    ensures { (b : forms.Bound90) → IsBoundOf bound b → is_wide_literal b.digits ≡ false → result ≡ bound_value b }
{
    value(bound).unwrap_or(0)
}

fn size(dimension: Dimension) -> u64
    ensures { (d : forms.Dimension) → IsDimensionOf dimension d → is_wide_dimension d ≡ false
        → result ≡ capped (size_of (dimension_bounds d)) }
{
    match dimension {
        Dimension::Upper(last) => size_between(1, value_or_zero(last)),
        Dimension::Both(first, last) => size_between(value_or_zero(first), value_or_zero(last)),
        Dimension::Deferred => 0,
    }
}

fn product(dimensions: &[Dimension]) -> u64
    ensures { (ds : List forms.Dimension) → AreOf IsDimensionOf dimensions.now ds
        → list_any is_wide_dimension ds ≡ false → result ≡ capped (elements_of (map dimension_bounds ds)) }
{
    let mut product = 1;
    for dimension in dimensions {
        product = product_of(product, size(*dimension));
    }
    product
}

/// The elements of an array of these dimensions, or one more than the most where there are more.
pub(crate) fn elements(dimensions: &[Dimension]) -> u64
    ensures { (ds : List forms.Dimension) → AreOf IsDimensionOf dimensions.now ds
        → list_any is_wide_dimension ds ≡ false → result ≡ capped (array_elements (map dimension_bounds ds)) }
{
    match dimensions {
        [] => 0,
        [..] => product(dimensions),
    }
}
