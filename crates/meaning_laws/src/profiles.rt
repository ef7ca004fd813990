//! Programs of the two profiles: those of FORTRAN 77 are programs of Fortran 90 too, their values have their kinds, and
//! what holds of each store of a run.
//!
//! Proved (laws of the programs of the two profiles): a program of FORTRAN 77's profile is one of Fortran 90's
//! (`source_is_target`); its jumps lead forward (`jumps_forward`); a value has the kind of its expression
//! (`values_have_kinds`); the store of a run, of either dialect, holds what the program declares and nothing else
//! (`stores_hold_program`, `held_stores`); the faults of a sequential run are those that a sequential program can have
//! (`source_faults_are_plain`).
//!
//! **Laws on programs stand beside `meaning`, not in it.** Everything stands on `meaning`; a law that only some need
//! has a crate of its own (`meaning_laws::profiles`), so that it can be bettered without proving the rest anew.
ghost use Rattle.meaning_laws.specs.profiles.Faults.{SourceRunFaultIsPlain, SourceValueFaultIsPlain};
ghost use Rattle.meaning_laws.specs.profiles.Faults.{SourceValueHasKind};
ghost use Rattle.meaning_laws.specs.profiles.Forward.{SourceJumpsForward, TargetJumpsForward};
ghost use Rattle.meaning_laws.specs.profiles.Profiles.{SourceIsTarget, SourceWithMadeNamesIsTarget};
ghost use Rattle.meaning_laws.specs.profiles.Stores.{HeldStoresAgree, StoreHoldsFewer};
ghost use Rattle.meaning_laws.specs.profiles.Stores.{OpeningStoreHolds, RunHolds, SourceRunHolds, StatementsKeepStores};
ghost use Rattle.meaning_laws.specs.profiles.Values.{ElementsHaveKind, ExtentsAreRank, ValueHasKind};

/// A program of FORTRAN 77 is one of Fortran 90, as it stands and with further declarations of names that no source
/// has.
pub fn source_is_target()
    ensures plain { SourceIsTarget }
    ensures made { SourceWithMadeNamesIsTarget }
{}

/// Each GO TO of a program leads forward.
pub fn jumps_forward()
    ensures source { SourceJumpsForward }
    ensures target { TargetJumpsForward }
{}

/// The value of an expression has its kind, and so have the elements of an array, which has an extent for each of its
/// dimensions.
pub fn values_have_kinds()
    ensures value { ValueHasKind }
    ensures elements { ElementsHaveKind }
    ensures extents { ExtentsAreRank }
{}

/// Each store of a run has the bounds of the declared names, and in their cells values of their kinds within the range
/// of INTEGER; statements keep such stores.
pub fn stores_hold_program()
    ensures opening { OpeningStoreHolds }
    ensures statements { StatementsKeepStores }
    ensures run { RunHolds }
    ensures source { SourceRunHolds }
{}

/// Stores that hold a program hold it with fewer names too, and agree on it where they have the same values in the same
/// cells.
pub fn held_stores()
    ensures fewer { StoreHoldsFewer }
    ensures agree { HeldStoresAgree }
{}

/// The value of an expression of FORTRAN 77 has its kind, and neither it nor a run meets the faults Shape and
/// Allocated.
pub fn source_faults_are_plain()
    ensures value { SourceValueHasKind }
    ensures value_fault { SourceValueFaultIsPlain }
    ensures run { SourceRunFaultIsPlain }
{}
