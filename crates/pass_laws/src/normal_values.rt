//! What a nest computes within its loops, and what its normal form computes within the loops from 1 by 1.
ghost use Rattle.pass_laws.specs.normal_values.Laws.{BoundsBeside, ExpressionBeside, LastValueInPlace, StatementBeside};

/// Where an expression has a value, its normal form, in which forms of the counters stand for the variables, has it
/// too.
pub fn expression_beside()
    ensures { ExpressionBeside }
{}

/// Where an assignment meets no fault, its normal form meets none, and stores the same in the same cell.
pub fn statement_beside()
    ensures { StatementBeside }
{}

/// A loop and its form from 1 by 1 have the same number of turns, and in each turn the form of the variable is the
/// variable's value.
pub fn bounds_beside()
    ensures { BoundsBeside }
{}

/// The texts of a loop's first value, and of its variable's value behind its last turn, over the counters of the loops
/// round it.
pub fn last_value_in_place()
    ensures { LastValueInPlace }
{}
