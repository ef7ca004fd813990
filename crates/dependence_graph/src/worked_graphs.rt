//! The dependence graphs of worked nests: no right listing of them has an edge more, an edge less, or another word.
//!
//! - Proved (laws): eight worked nests of one loop, each with the only right list of its edges and drops, with their
//!   words and least pairs: `A(I) = B(I) + 1`, which has no edge (`elementwise_is_listed`); `A(I+1) = A(I)`
//!   (`recurrence_is_listed`); `A(I+50) = A(I)` in 50 turns, which has none (`past_the_trip_is_listed`); `A(I) =
//!   A(101-I)` (`crossing_is_listed`); `A(I) = A(1)` (`first_element_is_listed`); one turn (`one_turn_is_listed`);
//!   `A(I) = A(I*I)`, whose edges are assumed (`of_square_is_listed`); `A(I,I*I) = B(I)`, of which one subscript tells
//!   that there is none (`beside_square_is_listed`). So a listing with an edge for each statement on itself, with each
//!   candidate assumed, with a dependence past the trip, or with the word RANGE for each drop isn't right by the
//!   definition. In two loops answers that are alike are one (`drops_merge`).
ghost use Rattle.std.specs.Prelude.{[], ◌∷◌, pos};
ghost use Rattle.dependence_graph.specs.declared.graphs.Dep.TheVariants.{Anti, Flow, Output};
ghost use Rattle.subscripts.specs.declared.verdict.Test.TheVariants.{Crossing, Strong, Trip, Unknown, WeakZero};
ghost use Rattle.dependence_graph.specs.worked_graphs.Listed.{HasOnly, assumed, at, drop, edge};
ghost use Rattle.dependence_graph.specs.worked_graphs.Merges.{DropsMerge};
ghost use Rattle.dependence_graph.specs.worked_graphs.Nests.{beside_square, crossing, elementwise, first_element};
ghost use Rattle.dependence_graph.specs.worked_graphs.Nests.{of_square, one_turn, past_the_trip, recurrence};

/// `A(I) = B(I) + 1`: no edge at all.
pub fn elementwise_is_listed()
    ensures { HasOnly elementwise [] (drop (at 0) (at 0) Output "A" Strong ∷ []) }
{}

/// `A(I+1) = A(I)`: what is written is read in the next turn, and nothing else.
pub fn recurrence_is_listed()
    ensures { HasOnly recurrence (edge (at 0) (at 1) Flow "A" Strong (pos 1) (pos 2) ∷ [])
        (drop (at 0) (at 0) Output "A" Strong ∷ drop (at 1) (at 0) Anti "A" Strong ∷ []) }
{}

/// `A(I+50) = A(I)`, I from 1 to 50: what is written is read past the last turn, and so never.
pub fn past_the_trip_is_listed()
    ensures { HasOnly past_the_trip [] (drop (at 0) (at 0) Output "A" Strong
        ∷ drop (at 0) (at 1) Flow "A" Strong
        ∷ drop (at 1) (at 0) Anti "A" Strong ∷ []) }
{}

/// `A(I) = A(101-I)`: the first half of the turns reads what the other half writes, and the other way round.
pub fn crossing_is_listed()
    ensures { HasOnly crossing (edge (at 0) (at 1) Flow "A" Crossing (pos 1) (pos 100)
        ∷ edge (at 1) (at 0) Anti "A" Crossing (pos 1) (pos 100) ∷ [])
        (drop (at 0) (at 0) Output "A" Strong ∷ []) }
{}

/// `A(I) = A(1)`: what the first turn writes all later ones read.
pub fn first_element_is_listed()
    ensures { HasOnly first_element (edge (at 0) (at 1) Flow "A" WeakZero (pos 1) (pos 2) ∷ [])
        (drop (at 0) (at 0) Output "A" Strong ∷ drop (at 1) (at 0) Anti "A" WeakZero ∷ []) }
{}

/// `A(I) = A(I)`, I from 1 to 1: no turn stands before another.
pub fn one_turn_is_listed()
    ensures { HasOnly one_turn [] (drop (at 0) (at 0) Output "A" Trip
        ∷ drop (at 0) (at 1) Flow "A" Trip
        ∷ drop (at 1) (at 0) Anti "A" Trip ∷ []) }
{}

/// `A(I) = A(I*I)`: where the squares fall isn't known, so both orders may depend.
pub fn of_square_is_listed()
    ensures { HasOnly of_square (assumed (at 0) (at 1) Flow "A" Unknown ∷ assumed (at 1) (at 0) Anti "A" Unknown ∷ [])
        (drop (at 0) (at 0) Output "A" Strong ∷ []) }
{}

/// `A(I,I*I) = B(I)`: the first subscript alone tells that no element is written twice.
pub fn beside_square_is_listed()
    ensures { HasOnly beside_square [] (drop (at 0) (at 0) Output "A" Strong ∷ []) }
{}

/// In two loops, answers that are all drops with one word are those to (<,*) and (=,<).
pub fn drops_merge()
    ensures { DropsMerge }
{}
