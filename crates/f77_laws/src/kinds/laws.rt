//! Laws of kinds. A law is a function without a body: its contract is what holds.
ghost use Rattle.f77_laws.specs.kinds.Apart.{ConstantsAreNeeded, CountsAreNeeded, ListsAreNeeded, SpellingsAreNeeded};
ghost use Rattle.f77_laws.specs.kinds.OneRule.{OneRuleOfKinds, OneRuleOfRead, SameKinds};
ghost use Rattle.f77_laws.specs.kinds.StatementRule.{ClashesByTree, OneRuleOfReadStatements, OneRuleOfStatements};

/// An expression has a kind by the uses of names in its text, each a right one, where it has that kind by the
/// declarations of the tree and each name with a list in parentheses is an array or a function. So where both hold of
/// its names, it has the same kinds by the one and by the other. Of a text that is read nothing more is asked.
pub fn kinds_are_one_rule()
    ensures whole { OneRuleOfKinds }
    ensures same { SameKinds }
    ensures read { OneRuleOfRead }
{}

/// Kinds suit in a statement by the uses of names in its text, each a right one, where they suit by the profile in what
/// the tree has of it and each name with a list in parentheses is an array or a function. So a statement of the text in
/// which no name is misused is refused for its kinds where it doesn't suit so in the tree, and else not.
pub fn statements_are_one_rule()
    ensures whole { OneRuleOfStatements }
    ensures read { OneRuleOfReadStatements }
    ensures clash { ClashesByTree }
{}

/// Each premise is needed: a text and an expression of it have a kind by the tree alone, or by the text alone, where
/// what stands with a list is no array and no function, where a variable has the name by which Fortran 90 calls
/// the function, where an array has other dimensions, and where a symbolic constant has another type than its name.
pub fn premises_are_needed()
    ensures lists { ListsAreNeeded }
    ensures spellings { SpellingsAreNeeded }
    ensures counts { CountsAreNeeded }
    ensures constants { ConstantsAreNeeded }
{}
