//! What is read of a text of Fortran 90 is a program of the profile, and a text that is read isn't refused.
//!
//! Proved (laws): what a text of at most 2^28 bytes conforms as is a program of the profile (`read_text_is_program`); a
//! text has at most one refusal (`text_has_one_refusal`); one that conforms is refused for nothing but the number of
//! its names, and one that is read not at all (`read_text_is_not_refused`).
ghost use Rattle.f90_laws.specs.readings.Reading.{ReadTextIsProgram};
ghost use Rattle.f90_laws.specs.readings.Refusing.{OneRefusal, ConformingIsRefusedForNames, ReadIsNotRefused};

/// A text has at most one refusal.
pub fn text_has_one_refusal()
    ensures { OneRefusal }
{}

/// A text that is read isn't refused; one that conforms is refused for nothing but the number of its names.
pub fn read_text_is_not_refused()
    ensures names { ConformingIsRefusedForNames }
    ensures within { ReadIsNotRefused }
{}

/// What a text conforms as is a program of the profile.
pub fn read_text_is_program()
    ensures { ReadTextIsProgram }
{}
