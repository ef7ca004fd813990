//! Orders of the instances of a nest whose loops were put in another order. A law is a function without a body: its
//! contract is what holds.
ghost use Rattle.interchange_laws.specs.orders.Laws.{MoveIsRearranged, RearrangedOrderKeepsVectors};

/// The sequential order of a chain of rectangular loops that were put in another order keeps each vector whose first
/// entry other than `=` is `<` then, too (Allen and Kennedy, section 5.2).
pub fn rearranged_order()
    ensures { RearrangedOrderKeepsVectors }
{}

/// To move a loop outwards over others is to exchange it with one after the other.
pub fn moved_loop()
    ensures { MoveIsRearranged }
{}
