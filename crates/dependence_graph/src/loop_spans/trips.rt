//! The span of one loop, by those of the loops round it.
ghost use Rattle.std.specs.Prelude.{◌≡◌, ℕ, int_div, ℤ, pos, ◌+◌, ◌*◌, ◌≤◌, ◌≤ℤ◌, ◌^◌, All, length, unsigned_abs};
ghost use Rattle.std.specs.Prelude.{◌+ℤ◌, ◌*ℤ◌, Some, true};
ghost use Rattle.std.specs.List.{list_all, list_any};
ghost use Rattle.std.specs.Ordering.{int_eq};
ghost use Rattle.subscripts.specs.Shapes.{IsForm, IsSmall};
ghost use Rattle.dependence_graph.specs.nest_graph.Ready.{IsTripIn};
ghost use Rattle.dependence_graph.specs.nest_graph.Spans.{capped, corner, greatest_sum, greatest_trip, has_no_symbol};
ghost use Rattle.dependence_graph.specs.nest_graph.Spans.{has_no_turn};
ghost use Rattle.dependence_graph.specs.nest_graph.Spans.{has_constant_top, is_open, last_after, span_after};
ghost use Rattle.dependence_graph.specs.loop_spans.Ends.{HasSmallEnd};
ghost use Rattle.dependence_graph.specs.loop_spans.Greatest.{IsSpan};

use nest::Trip;
use subscripts::Span;

// The size that no end is above.
const LARGEST: i128 = 1 << 40;

fn are_zero(times: &[i64]) -> bool
    ensures { result ≡ list_all (λ a. int_eq a (pos 0)) times.now }
{
    for number in times {
        if *number != 0 {
            return false;
        }
    }
    true
}

fn are_zero_terms(terms: &[(u16, i64)]) -> bool
    ensures { result ≡ list_all (λ (s : ℕ × ℤ). int_eq s.1 (pos 0)) terms.now }
{
    for (_, times) in terms {
        if *times != 0 {
            return false;
        }
    }
    true
}

fn has_no_symbol(trip: &Trip) -> bool
    ensures { result ≡ has_no_symbol trip.now }
{
    are_zero_terms(&trip.top.syms)
}

fn is_constant(trip: &Trip) -> bool
    ensures { result ≡ has_constant_top trip.now }
{
    are_zero(&trip.top.loops) && has_no_symbol(trip)
}

fn is_open(span: &Span) -> bool
    ensures { result ≡ is_open span.now }
{
    span.last.is_none()
}

fn has_no_turn(span: &Span) -> bool
    ensures { result ≡ has_no_turn span.now }
{
    match span.last {
        Some(last) => last < 1,
        None => false,
    }
}

fn are_open(spans: &[Span]) -> bool
    ensures { result ≡ list_any is_open spans.now }
{
    for span in spans {
        if is_open(span) {
            return true;
        }
    }
    false
}

fn have_no_turn(spans: &[Span]) -> bool
    ensures { result ≡ list_any has_no_turn spans.now }
{
    for span in spans {
        if has_no_turn(span) {
            return true;
        }
    }
    false
}

// The iteration at which a term is greatest.
fn corner(times: i64, span: &Span) -> i64
    requires { HasSmallEnd span.now }
    ensures value { result ≡ corner times span.now }
    ensures small { IsSmall result }
{
    if times < 0 {
        return 1;
    }
    span.last.unwrap_or(1)
}

fn product(times: i64, iteration: i64) -> i128
    requires times { IsSmall times }
    requires iteration { IsSmall iteration }
    ensures value { result ≡ times *ℤ iteration }
    ensures size { unsigned_abs result ≤ 2 ^ 80 }
{
    i128::from(times) * i128::from(iteration)
}

fn sum(first: i128, second: i128) -> i128
    requires first { unsigned_abs first ≤ 2 ^ 120 }
    requires second { unsigned_abs second ≤ 2 ^ 120 }
    ensures value { result ≡ first +ℤ second }
    ensures size { unsigned_abs result ≤ unsigned_abs first + unsigned_abs second }
{
    first + second
}

fn quotient(top: i128, by: i64) -> i128
    requires top { unsigned_abs top ≤ 2 ^ 121 }
    requires by { pos 1 ≤ℤ by }
    ensures { result ≡ int_div top by }
{
    top / i128::from(by)
}

// The greatest value of a sum over the iterations of loops that have ends.
fn greatest_sum(times: &[i64], spans: &[Span]) -> i128
    requires times { All IsSmall times.now }
    requires spans { All HasSmallEnd spans.now }
    requires few { length spans.now ≤ 7 }
    ensures value { result ≡ greatest_sum times.now spans.now }
    ensures size { unsigned_abs result ≤ length spans.now * 2 ^ 80 }
{
    let Some((number, times)) = times.split_first() else {
        return 0;
    };
    let Some((span, spans)) = spans.split_first() else {
        return 0;
    };
    let term = product(*number, corner(*number, span));
    sum(term, greatest_sum(times, spans))
}

fn greatest_trip(outer: &[Span], trip: &Trip) -> i128
    requires few { length outer.now ≤ 7 }
    requires ends { All HasSmallEnd outer.now }
    requires trip { IsTripIn (length outer.now) trip.now }
    ensures { result ≡ greatest_trip outer.now trip.now }
{
    let terms = greatest_sum(&trip.top.loops, outer);
    quotient(sum(terms, i128::from(trip.top.constant)), trip.by)
}

fn capped(trip: i128) -> Option<i64>
    ensures { result ≡ capped trip }
{
    if trip < 0 {
        return Some(0);
    }
    if trip > LARGEST {
        return None;
    }
    Some(trip as i64)
}

fn last_after(outer: &[Span], trip: &Trip) -> Option<i64>
    requires few { length outer.now ≤ 7 }
    requires ends { All HasSmallEnd outer.now }
    requires trip { IsTripIn (length outer.now) trip.now }
    ensures { result ≡ last_after outer.now trip.now }
{
    if !has_no_symbol(trip) || are_open(outer) {
        return None;
    }
    if have_no_turn(outer) {
        return Some(0);
    }
    capped(greatest_trip(outer, trip))
}

fn constant_trip(trip: &Trip) -> i64
    requires { (n : ℕ) × IsTripIn n trip.now }
    ensures value { result ≡ int_div trip.now.top.constant trip.now.by }
    ensures small { IsSmall result }
{
    trip.top.constant / trip.by
}

fn fixed_span(trip: &Trip) -> Span
    requires { (n : ℕ) × IsTripIn n trip.now }
    ensures value { result ≡ record { last = Some (int_div trip.now.top.constant trip.now.by); fixed = true } }
    ensures end { HasSmallEnd result }
{
    Span {
        last: Some(constant_trip(trip)),
        fixed: true,
    }
}

/// The span of a loop with this trip, where the loops round it have these.
#[tactic(auto, using(crate::proofs::loop_spans::SpanLaws::is_span_by))]
pub fn span_after(outer: &[Span], trip: &Trip) -> Span
    requires few { length outer.now ≤ 7 }
    requires ends { All HasSmallEnd outer.now }
    requires trip { IsTripIn (length outer.now) trip.now }
    ensures value { result ≡ span_after outer.now trip.now }
    ensures span { IsSpan outer.now trip.now result }
    ensures end { HasSmallEnd result }
{
    if is_constant(trip) {
        return fixed_span(trip);
    }
    Span {
        last: last_after(outer, trip),
        fixed: false,
    }
}
