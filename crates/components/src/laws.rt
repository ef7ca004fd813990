//! Laws of orders of components. A law is a function without a body: its contract is what holds.
ghost use Rattle.components.specs.Laws.{OrderIsUnique, OrderHasComponents};

/// A relation has one order of its components, in whatever order, and however often, its pairs are listed.
pub fn order_is_unique()
    ensures { OrderIsUnique }
{}

/// The components of the places of some statements, where those are paired whose statements lead to one another, are
/// classes of these statements that may be emitted one after the other.
pub fn order_has_components()
    ensures { OrderHasComponents }
{}
