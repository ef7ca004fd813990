//! What is emitted for a nest, as loops with array forms in the place of some of them, of which the laws of runs speak.
ghost use Rattle.emission.specs.emission_forms.Laws.{FormsAreLone, PiecesAreWritten};
ghost use Rattle.tree.specs.declared.width.Width.{Width};

/// The pieces that are emitted for a nest are, as statements, loops from 1 by 1 in which a statement's array form
/// stands in the place of the statement's further loops.
pub fn pieces_are_written()
    ensures { PiecesAreWritten }
{}

/// Such a form stands for one statement that depends on itself by no flow or output dependence there, and does what the
/// statement's instances do where these may store all at once (Allen and Kennedy, section 2.4).
pub fn forms_are_lone()
    ensures { (width : Width) → FormsAreLone width }
{}
