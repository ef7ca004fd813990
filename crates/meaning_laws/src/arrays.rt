//! What an array assignment stores: all at once, and element by element.
//!
//! Proved (laws): instances that store one after another store what they store all at once, where none reads a cell
//! that an earlier one has written, and the order of writes doesn't matter where no cell gets two values
//! (`stores_in_turn`); the element of an array at a position depends on the cells that it reads there alone, and is
//! given by structure of its expression (`array_elements`, `elements_by_structure`); what an array assignment stores is
//! what its elements store (`array_assignment_by_elements`), one by one in column-major order where none reads what an
//! earlier one has written (`array_assignment_in_turn`), and what instances store for which it stands
//! (`array_form_is_instances`); it gives no cell two values where nothing is selected twice (`assigned_one_to_one`);
//! what it does in a run (`array_statements_store`).
//!
//! **meaning_laws::arrays shows its proofs to other crates**, as other crates of laws do; some of its lemmas became
//! public for `array_form::forms`, the one crate that stands on it.
ghost use Rattle.meaning_laws.specs.arrays.Assignments.{ArrayAssignmentInTurn, ArrayAssignmentStores};
ghost use Rattle.meaning_laws.specs.arrays.Assignments.{ArrayStatementStores};
ghost use Rattle.meaning_laws.specs.arrays.Assignments.{EffectsAreWrites, ElementsInTurnAtOnce, WhereStores};
ghost use Rattle.meaning_laws.specs.arrays.Assignments.{WritesAreEffects};
ghost use Rattle.meaning_laws.specs.arrays.Elements.{CellsByPosition, ElementComesFromCellsRead, ElementOfCall};
ghost use Rattle.meaning_laws.specs.arrays.Elements.{ElementOfOperation, ElementOfSection, ElementOfUnary};
ghost use Rattle.meaning_laws.specs.arrays.Elements.{NumberOfTriplet, ScalarIsItsElement};
ghost use Rattle.meaning_laws.specs.arrays.Forms.{ArrayFormIsInstances};
ghost use Rattle.meaning_laws.specs.arrays.Instances.{ApartIsAtOnce, InTurnIsAtOnce, WritesInAnyOrder};
ghost use Rattle.meaning_laws.specs.arrays.OneToOne.{DimensionSelectsOnce, NoCellTwice, PositionsAreOneToOne};
ghost use Rattle.meaning_laws.specs.arrays.OneToOne.{TripletSelectsOnce};

/// Instances that store one after another store what they store all at once, where none reads a cell that an earlier
/// one has written; and the order of writes doesn't matter where no cell gets two values.
pub fn stores_in_turn()
    ensures in_turn { InTurnIsAtOnce }
    ensures apart { ApartIsAtOnce }
    ensures order { WritesInAnyOrder }
{}

/// An element of an array depends on nothing but the cells that it reads; that of a section is the value of the cell at
/// its position.
pub fn array_elements()
    ensures read { ElementComesFromCellsRead }
    ensures cells { CellsByPosition }
    ensures section { ElementOfSection }
    ensures triplet { NumberOfTriplet }
{}

/// The element of an expression at a position, by structure of the expression: a scalar is its own element, and an
/// operation or a function is left to each position.
pub fn elements_by_structure()
    ensures scalar { ScalarIsItsElement }
    ensures unary { ElementOfUnary }
    ensures operation { ElementOfOperation }
    ensures call { ElementOfCall }
{}

/// What an array assignment stores is what its elements store, all looked at in the store before it.
pub fn array_assignment_by_elements()
    ensures effects { WritesAreEffects }
    ensures writes { EffectsAreWrites }
{}

/// An array assignment stores what its elements store, assigned one by one in column-major order, where none of them
/// reads a cell that an earlier one has written.
pub fn array_assignment_in_turn()
    ensures at_once { ArrayAssignmentInTurn }
    ensures in_turn { ElementsInTurnAtOnce }
{}

/// What an array assignment and a WHERE do in a run that goes on.
pub fn array_statements_store()
    ensures assignment { ArrayAssignmentStores }
    ensures statement { ArrayStatementStores }
    ensures where_statement { WhereStores }
{}

/// Where no number is selected twice along a dimension, different positions have different cells, and an array
/// assignment gives no cell two values.
pub fn assigned_one_to_one()
    ensures triplet { TripletSelectsOnce }
    ensures dimension { DimensionSelectsOnce }
    ensures positions { PositionsAreOneToOne }
    ensures writes { NoCellTwice }
{}

/// An array assignment that stands for instances of a statement, none of which reads a cell that an earlier one has
/// written, leaves the store that they leave one after another.
pub fn array_form_is_instances()
    ensures { ArrayFormIsInstances }
{}
