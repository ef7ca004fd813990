//! The names of trees are those of the phrases that they are the trees of. A law is a function without a body: its
//! contract is what holds.
ghost use Rattle.f90_names.specs.kinds.Known.{TreeKnowsNames, TreesKnowNames, ReferenceKnowsNames};
ghost use Rattle.f90_names.specs.kinds.Known.{OutputKnowsNames, InputKnowsNames};

/// The names in an expression are known exactly where those in its tree are (ISO/IEC 1539:1991, sections 5 and 12.5.2).
pub fn tree_has_its_names()
    ensures { TreeKnowsNames }
{}

/// The same of a list of expressions.
pub fn trees_have_their_names()
    ensures { TreesKnowNames }
{}

/// The same of what is stored into.
pub fn reference_has_its_names()
    ensures { ReferenceKnowsNames }
{}

/// The same of the list of PRINT.
pub fn output_has_its_names()
    ensures { OutputKnowsNames }
{}

/// The same of the list of READ.
pub fn input_has_its_names()
    ensures { InputKnowsNames }
{}
