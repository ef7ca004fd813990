//! Laws of closed walks and components. A law is a function without a body: its contract is what holds.
ghost use Rattle.closed_walks.specs.FlatComponents.{NestedIsFlat};
ghost use Rattle.closed_walks.specs.Laws.{LeastWalkIsUnique, LoneMembersHaveOwnPairs, MembersHaveWalks};
ghost use Rattle.closed_walks.specs.Laws.{WalksStayInComponents};
ghost use Rattle.closed_walks.specs.OwnPairs.{OwnPairsChangeNoOrder};

/// A closed walk from a member of a component stays in it; where a component has two members, each has such a walk, and
/// one that is alone has one exactly where it is paired with itself.
pub fn walks_in_components()
    ensures stay { WalksStayInComponents }
    ensures members { MembersHaveWalks }
    ensures lone { LoneMembersHaveOwnPairs }
{}

/// There is only one least of the shortest closed walks from a number.
pub fn least_walk_is_unique()
    ensures { LeastWalkIsUnique }
{}

/// Components in their order are those of the pairs of different numbers alone.
pub fn own_pairs()
    ensures { OwnPairsChangeNoOrder }
{}

/// The component at a level within that of the level before is that of the edges at work there among all statements.
pub fn flat_components()
    ensures { NestedIsFlat }
{}
