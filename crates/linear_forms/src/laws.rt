//! Laws of linear forms. A law is a function without a body: its contract is what holds.
ghost use Rattle.linear_forms.specs.CanonicalLaws.{CanonicalTextStays, CanonicalBlockStays, CanonisingKeepsProfile};
ghost use Rattle.linear_forms.specs.CanonicalLaws.{CanonicalBlockKeepsProfile};
ghost use Rattle.linear_forms.specs.Laws.{LinearHasValue, TextHasValue, AffineHasText};
ghost use Rattle.linear_forms.specs.Laws.{AffineTextHasValue, TextKeepsValue};

/// An expression with a linear form has exactly the form's number as its value, without fault, wherever its names hold
/// numbers of 64 bits.
#[tactic(auto, using(crate::proofs::Faultless::linear_has_value))]
pub fn linear_value()
    ensures { LinearHasValue }
{}

/// So has the canonical text of a form, whose terms are names or divided trips.
pub fn text_value()
    ensures { TextHasValue }
{}

/// The text of an affine form is the canonical text of the linear form that it stands for, by the names of the loops
/// and the symbols, and by the divided trips.
#[tactic(auto, using(crate::proofs::AffineTexts::affine_has_text))]
pub fn affine_text()
    ensures { AffineHasText }
{}

/// So, within the limits and with at most seven loops, its value is the form's number, without fault, wherever those
/// names hold numbers of 64 bits and the trips have such values.
#[tactic(auto, using(crate::proofs::AffineTexts::affine_text_has_value))]
pub fn affine_text_value()
    ensures { AffineTextHasValue }
{}

/// Where an expression with a form has a value, the canonical text of the form has the same value, in each store whose
/// numbers have at most 64 bits, whatever the names hold there.
pub fn text_kept_value()
    ensures { TextKeepsValue }
{}

/// Bringing each node in which the variable of a loop stood into canonical text twice is as once, with at most seven
/// loops and where no name stands twice among loops and symbols.
pub fn canonical_text_stays()
    ensures { CanonicalTextStays }
{}

/// So it is for a block.
pub fn canonical_block_stays()
    ensures { CanonicalBlockStays }
{}

/// Canonical text keeps the profile, where loops and symbols are INTEGER scalars, and raises a depth by at most 18.
pub fn canonical_profile()
    ensures node { CanonisingKeepsProfile }
    ensures block { CanonicalBlockKeepsProfile }
{}
