//! What stands in the place of a nest is of the profile of Fortran 90.
ghost use Rattle.translation.specs.nest_profile.Laws.{TranslationIsOfProfile};
ghost use Rattle.tree.specs.declared.width.Width.{Width};

/// What is emitted for the last nest that passes make of one that was found, with its last values behind it, is a block
/// of the profile wherever the nest's loop is a statement of it, with the counters and what passes made declared
/// besides.
pub fn translation_is_of_profile()
    ensures { (width : Width) → TranslationIsOfProfile width }
{}
