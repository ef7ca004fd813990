//! Variables that are read in the bodies of their own loops alone. A law is a function without a body: its contract is
//! what holds.
ghost use Rattle.reduction_laws.specs.unread.Reading.{UnreadIsBlind};
ghost use Rattle.reduction_laws.specs.unread.Replaced.{ReplacedLoopFollows};
ghost use Rattle.reduction_laws.specs.unread.Unread.{KeptStatementsFollow};

/// Statements that read variables of loops in the bodies of these loops alone go the same way, whatever the variables
/// hold.
pub fn kept_statements()
    ensures { KeptStatementsFollow }
{}

/// An expression has one value whatever variables hold that it doesn't read; a constructor's variable is its own.
pub fn unread_variables()
    ensures { UnreadIsBlind }
{}

/// A loop that gathers may be replaced by its statement where the other statements don't read its variable.
pub fn replaced_loop()
    ensures { ReplacedLoopFollows }
{}
