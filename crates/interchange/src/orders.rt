//! The order in which the loops of a chain are put.
ghost use Rattle.std.specs.Prelude.{◌≡◌, ◌<◌, ◌-◌, ◌+◌, false, Some, IfOk, length};
ghost use Rattle.std.specs.List.{find, range_with_len};
ghost use Rattle.interchange.specs.Arranged.{is_changed};
ghost use Rattle.interchange.specs.Orders.{carries, is_fit, may_move, moved, moved_if_found, order_of};
ghost use Rattle.interchange.specs.Orders.{settled_at_place};

use crate::directions::{carries, keeps_all};
use crate::trips::{all_turn, is_countable, same_trip};
use nest::Trip;
use std::alloc::Global;
use subscripts::{Dirs, Span};
use tree::Memory;

/// What is known of the loops of a chain and of the dependences in it: the trips and the spans of the loops, from the
/// outside in as they stand at first, and the direction vectors.
#[derive(Clone, Copy)]
pub(crate) struct Known<'a> {
    pub trips: &'a [Trip],
    pub spans: &'a [Span],
    pub vectors: &'a [Dirs],
}

// The order with the loop at the place `from` moved outwards to the place `to`.
#[tactic(auto, using(crate::proofs::OrderLaws::orders))]
fn moved(alloc: Global, order: &[usize], to: usize, from: usize) -> Result<Vec<usize>, Memory>
    requires to { to < from }
    requires from { from < length order.now }
    ensures { IfOk result (λ new. new.items ≡ moved to from order.now) }
{
    let mut new = Vec::from_slice(alloc, order)?;
    let place = new.remove(from);
    new.insert(to, place)?;
    Ok(new)
}

// The places from 0 on.
#[tactic(auto, using(crate::proofs::OrderLaws::orders))]
fn places(alloc: Global, count: usize) -> Result<Vec<usize>, Memory>
    ensures { IfOk result (λ order. order.items ≡ range_with_len 0 count) }
{
    let mut order = Vec::new(alloc);
    for place in 0..count {
        order.push(place)?;
    }
    Ok(order)
}

impl Known<'_> {
    // Whether no trip is come to that wouldn't be counted before the loop at the place `from` moves to the place `to`.
    fn may_move(&self, order: &[usize], to: usize, from: usize) -> bool
        requires to { to < from }
        requires from { from < length order.now }
        ensures { result ≡ may_move self.now.trips.now self.now.spans.now order.now to from }
    {
        let (taken, mover) = (order[to], order[from]);
        if is_countable(self.spans.get(mover).copied()) {
            return true;
        }
        if same_trip(
            self.trips.get(taken).copied(),
            self.trips.get(mover).copied(),
        ) {
            return true;
        }
        all_turn(self.spans, &order[to..from])
    }

    // Whether the loop at the place `from` carries a dependence and may move to the place `to`.
    fn is_fit(&self, alloc: Global, order: &[usize], to: usize, from: usize) -> Result<bool, Memory>
        requires to { to < from }
        requires from { from < length order.now }
        ensures { IfOk result (λ fit. fit
            ≡ is_fit self.now.trips.now self.now.spans.now self.now.vectors.now order.now to from) }
    {
        if !carries(self.vectors, order, from) {
            return Ok(false);
        }
        if !self.may_move(order, to, from) {
            return Ok(false);
        }
        let new = moved(alloc, order, to, from)?;
        Ok(keeps_all(self.vectors, new.as_slice()))
    }

    // The first loop behind a place that is fit to move there.
    #[tactic(auto, using(crate::proofs::OrderLaws::orders))]
    fn first_fit(&self, alloc: Global, order: &[usize], to: usize) -> Result<Option<usize>, Memory>
        requires { to < length order.now }
        ensures { IfOk result (λ found. found
            ≡ find (is_fit self.now.trips.now self.now.spans.now self.now.vectors.now order.now to)
            (range_with_len (to + 1) (length order.now - (to + 1)))) }
    {
        for from in to + 1..order.len() {
            if self.is_fit(alloc, order, to, from)? {
                return Ok(Some(from));
            }
        }
        Ok(None)
    }

    // The order after the first fit loop has moved to a place that carries no dependence.
    fn settled(&self, alloc: Global, order: Vec<usize>, to: usize) -> Result<Vec<usize>, Memory>
        requires { to < length order.items }
        ensures { IfOk result (λ new. new.items
            ≡ settled_at_place self.now.trips.now self.now.spans.now self.now.vectors.now order.items to) }
    {
        if carries(self.vectors, order.as_slice(), to) {
            return Ok(order);
        }
        match self.first_fit(alloc, order.as_slice(), to)? {
            Some(from) => moved(alloc, order.as_slice(), to, from),
            None => Ok(order),
        }
    }

    /// The order of so many loops, after each place is settled from the outermost one inwards.
    #[tactic(auto, using(crate::proofs::OrderLaws::orders))]
    pub(crate) fn order(&self, alloc: Global, count: usize) -> Result<Vec<usize>, Memory>
        ensures { IfOk result (λ order. order.items
            ≡ order_of self.now.trips.now self.now.spans.now self.now.vectors.now count) }
    {
        let mut order = places(alloc, count)?;
        for place in 0..count {
            order = self.settled(alloc, order, place)?;
        }
        Ok(order)
    }
}

/// Whether an order is another one than at first.
#[tactic(auto, using(crate::proofs::OrderLaws::orders))]
pub(crate) fn is_changed(order: &[usize]) -> bool
    ensures { result ≡ is_changed order.now }
{
    for place in 0..order.len() {
        if order[place] != place {
            return true;
        }
    }
    false
}
