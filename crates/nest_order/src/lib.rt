//! Laws of the order of a nest's instances, and of what its run does in such an order.
#![tactic(auto)]

pub mod facts;
pub mod orders;
pub mod runs;
pub mod shapes;
