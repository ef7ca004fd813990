//! The marks of a translated program.
ghost use Rattle.translation.specs.program_marks.Laws.{TranslationIsMarked};
ghost use Rattle.tree.specs.declared.width.Width.{Width};

/// In a translated program each statement of a nest that was listed with its graph bears its mark just once: as an
/// array statement from the least level on at which it is alone by this graph and the nest's holds, within the loops
/// before that level. No other statement is marked.
pub fn translation_is_marked()
    ensures { (width : Width) → TranslationIsMarked width }
{}
