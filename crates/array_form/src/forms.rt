//! The array form of an assignment in loops, maybe under a guard, and the law that it stores what its instances store.
//!
//! Proved (laws): the array form of an assignment at a level, as definitions on plain trees: a WHERE under a guard in
//! which one of its loops stands, in an IF under any other one. The form of an expression has at each position the
//! value that the expression has in the instance of that position, without fault where the instances' values are
//! without fault (`form_values`): parts without loops, operators and functions, sections of linear subscripts, vector
//! subscripts, a loop variable's constructor, SPREAD for missing loops, TRANSPOSE for two that are exchanged, and
//! constructors over all loops in RESHAPE. And the whole (`array_form_stores`): from any moment of a Fortran 90 run
//! that goes on, in which loop variables and symbols are INTEGER scalars that hold numbers of 64 bits, where no loop
//! from the level on is held and the instances, in the order of a sequential run, lead without fault to another store,
//! none of them reading a cell that an earlier one has written, the array form with the IF on its trips ends without
//! fault in that store; also where a loop doesn't turn. Under a guard the same holds (`guarded_form_stores`); where a
//! loop stands in the guard it is asked that left side and references of the right side name cells in all instances.
//! Different instances store in different cells (`instances_apart`). Worked forms are computed in `proofs/Rows`. Not
//! spoken of: expressions that have array values themselves, and a linear subscript in which a loop stands with the
//! coefficient 0, which no nest in canonical text has. Wrong definitions that the proof refuses: the first loop
//! outermost in a constructor, a place of SPREAD counted from the right, TRANSPOSE for other than two loops, no IF on
//! the trips, a stride of 1, a section that begins at r.
//!
//! **Positions and iterations are told apart.** Positions count from 0 along the order of the left subscripts,
//! iterations from 1 along the nest; both are lists of naturals, and only one lemma says how they go together.
//!
//! **A loop whose trip is a positive constant is not tested, and trips are held to what a loop can count.** The law
//! asks that each trip is at most 2^31 - 2, as the count of a DO loop is; a trip below 1, however small, is in.
//!
//! **What is asked of subscripts is a decidable test on the text** (`is_regular`, `are_moved`): a linear subscript in
//! which a loop stands moves with it. A nest in canonical text has it, since terms with the coefficient 0 aren't
//! written.
//!
//! **In a reference with two loops in one subscript nothing is asked of the subscripts**, since it is listed element by
//! element.
//!
//! **Trips hold a number only for as many iterations as there are loops.** With fewer, the form of a trip would be
//! looked at where some of its variables have no value; the laws on runs never ask that.
//!
//! **Subscripts are asked to be regular only where no loop is held.** A held statement gets no array form, and
//! canonical text there may have a subscript that no form describes.
//!
//! **Under a false mask no operation is performed, but subscripts are looked at.** So of the right side's references
//! alone it is asked that they have values in all instances, and a division or a sum past INTEGER under a false guard
//! is no fault.
ghost use Rattle.array_form.specs.forms.Guarded.{FormHasValuesOrFaults, GuardedFormStoresInstances};
ghost use Rattle.array_form.specs.forms.Laws.{ArrayFormStoresInstances, FormHasInstanceValues, InstancesHaveOwnCells};
ghost use Rattle.tree.specs.declared.width.Width.{Width};

/// The form of a regular expression has at each position the value of the expression in the instance of that position.
pub fn form_values()
    ensures { FormHasInstanceValues }
{}

/// The array form of an assignment with such a right side leaves the store that its instances leave one after another,
/// where none of its instances reads a cell that an earlier one has written.
pub fn array_form_stores()
    ensures { (width : Width) → ArrayFormStoresInstances width }
{}

/// Different instances of an assignment whose array form no loop forbids store in different cells.
pub fn instances_apart()
    ensures { InstancesHaveOwnCells }
{}

/// The array form of an assignment under a guard leaves the store that its instances leave one after another: a WHERE,
/// where the references name cells in all instances, whatever the guard is there, and else an assignment in an IF.
pub fn guarded_form_stores()
    ensures values { FormHasValuesOrFaults }
    ensures stores { (width : Width) → GuardedFormStoresInstances width }
{}
