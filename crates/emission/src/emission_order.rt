//! Recursive emission of a nest with the classes that the crate `components` gives.
ghost use Rattle.emission.specs.emission_order.Components.{OrderIsComponents};

/// What `components` answers for the places of some statements of a nest, paired by the edges of a level or more, are
/// the classes of these statements at that level: so whoever emits them one after another emits as recursive emission
/// does.
pub fn order_is_components()
    ensures { OrderIsComponents }
{}
