//! What a nest does whose loops were put in another order.
ghost use Rattle.interchange_laws.specs.runs.Counted.{MovedTripsAreCounted, RearrangedNestIsNest, RunTripsAreCountable};
ghost use Rattle.interchange_laws.specs.runs.Laws.{ExchangedLoopsGiveStore, ExchangedLoopsKeepMeaning};

/// The loops of a chain of rectangular loops may be put in another order in which each vector still has `<` as its
/// first entry other than `=` (Allen and Kennedy, section 5.2): the instances in the order of the new nest leave the
/// store that they leave in the old one's, and so does the new nest, where its trips can be counted.
pub fn exchanged_loops()
    ensures store { ExchangedLoopsGiveStore }
    ensures meaning { ExchangedLoopsKeepMeaning }
{}

/// Where a loop is moved outwards whose trip can be counted anyhow, or where that of the loop whose place it takes can,
/// or where each loop that it passes has a turn if it can be counted, the trips that the new nest comes to can be
/// counted where those of the old one could; and these could where the old one's run goes on.
pub fn counted_trips()
    ensures moved { MovedTripsAreCounted }
    ensures run { RunTripsAreCountable }
{}

/// With its loops in another order a nest is one, too, where its trips name symbols alone.
pub fn rearranged_nest()
    ensures { RearrangedNestIsNest }
{}
