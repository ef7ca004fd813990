//! What stands in the input of READ: words, and between them blanks, tabs and line ends with at most one comma.
//!
//! Proved (laws): exactly blanks, tabs and line ends with at most one comma stand before the next word of the input,
//! none before the first one of a READ; where nothing else is left, the input has ended, and a further comma is a fault
//! (`words_of_input`); a READ takes these words (`words_of_read`).
ghost use Rattle.meaning_laws.specs.inputs.ReadStatements.{FirstWordOfRead, ReadTakesWord};
ghost use Rattle.meaning_laws.specs.inputs.Words.{InputEndsInSeparation, NextWordIsSeparated, SecondCommaIsFault};
ghost use Rattle.meaning_laws.specs.inputs.Words.{WordIsWhole};

/// What stands before the next word of the input is blanks, tabs and line ends with at most one comma, and with none
/// before the first word; the input ends there where no word follows, and its form is a fault where a further comma
/// does.
pub fn words_of_input()
    ensures next { NextWordIsSeparated }
    ensures end { InputEndsInSeparation }
    ensures comma { SecondCommaIsFault }
    ensures whole { WordIsWhole }
{}

/// A READ takes the words of its input one after another, up to separators; before the first one it takes no comma.
pub fn words_of_read()
    ensures begins { FirstWordOfRead }
    ensures takes { ReadTakesWord }
{}
