//! Laws of the lists of expressions. A law is a function without a body: its contract is what holds.
ghost use Rattle.f90_trees.specs.Building.{MakesTree};
ghost use Rattle.f90_trees.specs.Calls.{ListTellsCalls};

/// The list of an expression makes its tree, from left to right with a stack, whatever names are functions.
pub fn list_makes_tree()
    ensures { MakesTree }
{}

/// The list of an expression tells whether its calls have arguments that may stand there (ISO/IEC 1539:1991, section
/// 13.13): sections and a dimension that is no literal are none of a function's.
pub fn list_tells_calls()
    ensures { ListTellsCalls }
{}
