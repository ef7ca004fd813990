//! The array form of an assignment, maybe under a guard, is a statement of the profile of Fortran 90.
//!
//! Proved (laws): the array form of an expression has its kind, a dimension for each loop, and a depth of 100 more at
//! most (`form_has_kind`); that of an assignment in which no loop from the level on is held, maybe under a guard, is a
//! block of the profile (`array_form_is_of_profile`).
//!
//! **A mask has the rank of the left side.** A loop of the array form stands in the guard of a WHERE, so the guard's
//! form is an array over all of the loops, as the left side is.
//!
//! **An array form is at most 100 deeper than what it is made of.** Seven loops bring a bounded number of functions
//! round each part; expressions of FORTRAN 77 are far enough from the limit of Fortran 90.
ghost use Rattle.array_form.specs.profile.Laws.{ArrayFormIsOfProfile, FormHasKind};

/// The form of an expression has the expression's kind, the rank of the loops that stand in it, and a depth that is
/// higher by a bounded number (ISO/IEC 1539:1991, sections 4.5, 6.2.2, 7.1 and 13.13).
pub fn form_has_kind()
    ensures { FormHasKind }
{}

/// The array form of an assignment, as a WHERE or in an IF under a guard, with the IF on its trips, is a block of the
/// profile.
pub fn array_form_is_of_profile()
    ensures { ArrayFormIsOfProfile }
{}
