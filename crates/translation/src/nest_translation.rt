//! What stands in the place of a nest does what the nest's loop does.
ghost use Rattle.translation.specs.nest_translation.Laws.{TranslationDoesAsLoop};
ghost use Rattle.tree.specs.declared.width.Width.{Width};

/// What is emitted for the last nest that passes make of one that was found, with its last values behind it, does with
/// arrays as values what the nest's loop does, in every program that declares the counters and what passes made besides
/// (Allen and Kennedy, "Optimizing Compilers for Modern Architectures", sections 2.2 and 2.4).
pub fn translation_does_as_loop()
    ensures { (width : Width) → TranslationDoesAsLoop width }
{}
