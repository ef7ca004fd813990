//! The spans of the loops round a statement.
ghost use Rattle.std.specs.Prelude.{◌≡◌, ◌≤◌, [], All, IfOk, length, map};
ghost use Rattle.nest.specs.View.{loop_of};
ghost use Rattle.dependence_graph.specs.nest_graph.Ready.{HasTrip, HaveTrips};
ghost use Rattle.dependence_graph.specs.nest_graph.Spans.{span_of, spans_of};
ghost use Rattle.dependence_graph.specs.loop_spans.Ends.{HasSmallEnd};
ghost use Rattle.dependence_graph.specs.loop_spans.Greatest.{AreSpansOf, IsSpanOf};

use crate::loop_spans::trips::span_after;
use nest::Loop;
use std::alloc::Global;
use subscripts::Span;
use tree::{Memory, Seq};

fn span_of(outer: &[Span], turns: &Loop) -> Span
    requires few { length outer.now ≤ 7 }
    requires ends { All HasSmallEnd outer.now }
    requires trip { HasTrip (length outer.now) (loop_of turns.now) }
    ensures value { result ≡ span_of outer.now turns.now.trip }
    ensures span { IsSpanOf outer.now turns.now.trip result }
    ensures end { HasSmallEnd result }
{
    match turns.trip {
        Some(trip) => span_after(outer, &trip),
        None => unreachable!(),
    }
}

/// The spans of loops from the outside in, each within those before it. That of a constant trip is fixed; a trip that
/// varies with the loops round it alone ends at its greatest value over their iterations; any other isn't known.
pub fn spans_of(alloc: Global, loops: &Seq<Loop>) -> Result<Seq<Span>, Memory>
    requires few { length loops.now ≤ 7 }
    requires trips { HaveTrips 0 (map loop_of loops.now) }
    ensures value { IfOk result (λ spans. spans ≡ spans_of [] (map loop_of loops.now)) }
    ensures greatest { IfOk result (λ spans. AreSpansOf [] (map loop_of loops.now) spans) }
{
    let mut spans = Seq::new(alloc);
    for turns in loops.as_slice() {
        let span = span_of(spans.as_slice(), turns);
        spans.push(span)?;
    }
    Ok(spans)
}
