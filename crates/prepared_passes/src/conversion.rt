//! A law is a function without a body: its contract is what holds.
ghost use Rattle.prepared_passes.specs.conversion.Found.{FoundNestHasDeclarations, FoundNestIsConverted};
ghost use Rattle.prepared_passes.specs.conversion.Found.{FoundNestIsUnguarded, ProgramHasNoMasks};
ghost use Rattle.prepared_passes.specs.conversion.Laws.{ConvertedMayStandFor};
ghost use Rattle.prepared_passes.specs.conversion.Prepared.{BranchedNestIsBranching, ConvertedBranchedNestIsPrepared};
ghost use Rattle.prepared_passes.specs.conversion.Prepared.{ConvertedNestIsPrepared};
ghost use Rattle.tree.specs.declared.width.Width.{Width};

/// A nest with masks in place of its IFs, labels and jumps does what the nest does.
pub fn converted_may_stand_for()
    ensures { (width : Width) → ConvertedMayStandFor width }
{}

/// It is prepared where the nest is prepared with these.
pub fn converted_nest_is_prepared()
    ensures { ConvertedNestIsPrepared }
{}

/// Statements of a nest that is found have no guards, and its IFs have arms, also with loops from 1 by 1.
pub fn found_nest_is_unguarded()
    ensures { (width : Width) → FoundNestIsUnguarded width }
{}

/// A nest that is prepared with its IFs and jumps, by declarations without masks, is one that masks may be made for.
pub fn branched_nest_is_branching()
    ensures { BranchedNestIsBranching }
{}

/// No name of a program of FORTRAN 77 is a mask.
pub fn program_has_no_masks()
    ensures { (width : Width) → ProgramHasNoMasks width }
{}

/// It is prepared with masks in place of these, by declarations that have the masks.
pub fn converted_branched_nest_is_prepared()
    ensures { ConvertedBranchedNestIsPrepared }
{}

/// Masks may be made for a nest that is found, with loops from 1 by 1, and it is prepared with them.
pub fn found_nest_is_converted()
    ensures { (width : Width) → FoundNestIsConverted width }
{}

/// There are declarations by which it is prepared so.
pub fn found_nest_has_declarations()
    ensures { (width : Width) → FoundNestHasDeclarations width }
{}
