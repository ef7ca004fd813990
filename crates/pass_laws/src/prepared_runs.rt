//! A nest beside its loop in the source, and what is emitted for it beside the nest.
ghost use Rattle.pass_laws.specs.prepared_runs.Laws.{NormalNestGoesOnAsLoop, PiecesGoOnAsNest};
ghost use Rattle.pass_laws.specs.prepared_runs.Laws.{PreparedTranslationIsOfProfile, RunOfPreparedNest};
ghost use Rattle.pass_laws.specs.prepared_runs.Allocations.{ArraysAreAllocated, ArraysAreDeallocated};
ghost use Rattle.tree.specs.declared.width.Width.{Width};

/// The loops of a nest from 1 by 1, and what comes after them, go on as the loop of the source does.
pub fn normal_nest_goes_on_as_loop()
    ensures { (width : Width) → NormalNestGoesOnAsLoop width }
{}

/// The run of a nest is its instances one after another in their sequential order, and then what comes after the loops,
/// but for the variables of the loops; with arrays as values and without.
pub fn run_of_prepared_nest()
    ensures { (width : Width) → RunOfPreparedNest width }
{}

/// The array run of what is emitted goes on as the sequential run of the nest does.
pub fn pieces_go_on_as_nest()
    ensures { (width : Width) → PiecesGoOnAsNest width }
{}

/// What is emitted, with what comes after it and within its allocations, is a block of the profile of Fortran 90.
pub fn prepared_translation_is_of_profile()
    ensures { PreparedTranslationIsOfProfile }
{}

/// ALLOCATE leads to a store in which the arrays of a nest are there by their extents, where none of them was.
pub fn arrays_are_allocated()
    ensures { (width : Width) → ArraysAreAllocated width }
{}

/// DEALLOCATE lets them go, and changes nothing else.
pub fn arrays_are_deallocated()
    ensures { (width : Width) → ArraysAreDeallocated width }
{}
