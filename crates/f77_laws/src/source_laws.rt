//! Laws of statements as they are read. A law is a function without a body: its contract is what holds.
ghost use Rattle.f77_laws.specs.SourceCards.{ReadCardsAreSource, ReadSourceHasCards, ReadStatementIsSource};

/// What characters of a card are read as is a source statement, and a label that it names is below 100,000.
pub fn read_statement_is_source()
    ensures { ReadStatementIsSource }
{}

/// The cards of a source have characters from 32 to 126, labels below 100,000, and rising lines from 1.
pub fn read_source_has_cards()
    ensures { ReadSourceHasCards }
{}

/// The statements that the cards of a source are read as are source statements, and few enough for a program, as they
/// are written, with labels below 100,000, and with the labels of their loops, which have at most 32 bits.
pub fn read_cards_are_source()
    ensures { ReadCardsAreSource }
{}
