//! Laws of array forms of a nest's statements. A law is a function without a body: its contract is what holds.
ghost use Rattle.array_form.specs.lone.Cells.{RunNamesCells, SafeStatementsHaveCells};
ghost use Rattle.array_form.specs.lone.Composed.{ArrayFormIsForm, CellsGiveValues};
ghost use Rattle.array_form.specs.lone.Instances.{GuardedInstancesOfArrayForms, InstancesOfArrayForms};
ghost use Rattle.array_form.specs.lone.Known.{NumbersAreKnown};
ghost use Rattle.tree.specs.declared.width.Width.{Width};

use crate::forms::guarded_form_stores;

/// Where the instances of a statement in its inner loops may store all at once, its instances as the laws of array
/// forms have them do the same.
pub fn instances_in_inner_loops()
    ensures guarded { (width : Width) → GuardedInstancesOfArrayForms width }
    ensures unguarded { (width : Width) → InstancesOfArrayForms width }
{}

/// In a store in which a nest is run, the loop variables and symbols round a statement hold numbers as the laws of
/// array forms ask for: the outer loops their iterations, the inner ones whatever they hold.
pub fn known_numbers()
    ensures { (width : Width) → NumbersAreKnown width }
{}

/// The references of a statement that isn't held by its bounds name cells in each of its instances, whatever its guard
/// is there: subscripts that stay within the declared bounds over constant trips, and those that an unguarded statement
/// has too, whose instances named cells in the nest's run.
pub fn safe_statements()
    ensures run { RunNamesCells }
    ensures cells { (width : Width) → SafeStatementsHaveCells width }
    ensures values { (width : Width) → CellsGiveValues width }
{}

/// The array form of a statement of a nest, where nothing in its inner loops forbids it, is one of the forms that may
/// stand in the place of these loops.
pub fn array_form_in_nest()
    ensures { (width : Width) → ArrayFormIsForm width }
{
    guarded_form_stores();
}
