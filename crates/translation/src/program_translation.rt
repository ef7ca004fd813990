//! A program with translations in the place of its nests keeps its meaning.
ghost use Rattle.translation.specs.program_translation.Laws.{TranslationIsGood, TranslationKeepsMeaning};
ghost use Rattle.tree.specs.declared.width.Width.{Width};

/// Where the sequential run of a program of FORTRAN 77 ends without fault, so does the array run of the program in
/// which what was emitted for nests stands in their loops' place, with the same output and the same values of the
/// source's variables.
pub fn translation_keeps_meaning()
    ensures { (width : Width) → TranslationKeepsMeaning width }
{}

/// The translation of a program of FORTRAN 77, within the limits of Fortran 90 on its statements, is a program of
/// Fortran 90, and keeps the meaning of its source.
pub fn translation_is_good()
    ensures { (width : Width) → TranslationIsGood width }
{}
