//! What is seen of a nest without running it suffices for the laws of its runs and orders.
//!
//! Proved (law): where the subscripts and trips of a nest are what their linear forms say, a trip maybe divided by a
//! constant, symbols are numbers of 64 bits, statements assign expressions of the kind of their left side, and no loop
//! has more turns than can be counted, runs and orders of the nest have their laws (`facts_of_nest`).
//!
//! **Laws cite one another by their statements.** What is asked of a nest (`IsNestIn`) is about values of expressions,
//! so that any way of knowing them serves; `nest_order::facts` gives one way, by linear forms.
ghost use Rattle.nest_order.specs.facts.Facts.{FactsSuffice};

/// A nest whose subscripts and trips are what their linear forms say, and whose statements suit in kind, is one of
/// which runs and orders have their laws.
pub fn facts_of_nest()
    ensures { FactsSuffice }
{}
