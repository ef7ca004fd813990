//! Laws of the grammar of Fortran 90: no list of words is written for two forms.
//!
//! Proved (laws): no words are those of two expressions, of two lists or of two statements (`one_phrase`, `one_items`,
//! `one_form`); the characters of a statement are those of one list of words (`one_words`); the lines of a text are
//! those of one list of statements, each with one form (`one_reading`, `one_text`).
//!
//! **That a text is taken in one way is a law, not part of the definitions.** What a text has for statements is said as
//! a relation, line by line and word by word; `f90_laws::unique` shows that it has one list of statements at most,
//! `f90_laws::unrefused` that those of a printed program have no cause of refusal, and `f90_laws::read_back` joins
//! both.
ghost use Rattle.f90_laws.specs.unique.Unique.{OneForm, OneItems, OnePhrase, OneReading, OneStatement};
ghost use Rattle.f90_laws.specs.unique.Unique.{OneText, OneWords};

/// No words are those of two expressions, whatever follows that can't go on an expression (ISO/IEC 1539:1991, section
/// 7.1).
pub fn one_phrase()
    ensures { OnePhrase }
{}

/// No words are those of two lists of PRINT or READ (ISO/IEC 1539:1991, section 9.4.2).
pub fn one_items()
    ensures { OneItems }
{}

/// No words are those of two statements, though a variable may have a keyword's name (ISO/IEC 1539:1991, section
/// 3.3.1).
pub fn one_form()
    ensures { OneForm }
{}

/// The characters of a statement are those of one list of words: each word goes as far as it can (ISO/IEC 1539:1991,
/// section 3.2).
pub fn one_words()
    ensures { OneWords }
{}

/// A statement of a text has one form, and so the statements of a text are read in one way: with these forms, the
/// numbers of their lines and their marks.
pub fn one_reading()
    ensures statement { OneStatement }
    ensures statements { OneReading }
{}

/// The lines of a text are those of one list of statements (ISO/IEC 1539:1991, section 3.3.1): which lines are comments
/// and which are continued, and where the characters of a statement begin and end, can be told in one way.
pub fn one_text()
    ensures { OneText }
{}
