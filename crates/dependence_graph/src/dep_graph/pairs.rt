//! Two references as they are tested.
ghost use Rattle.std.specs.Prelude.{◌≡◌, ◌++◌, ◌≤◌, IfOk, OnOk, length};
ghost use Rattle.direction_vectors.specs.vector_tests.Refs.{padded};
ghost use Rattle.dependence_graph.specs.dep_graph.Joined.{blank_pairing, common_numbers, dependence_of, pairing_with};
ghost use Rattle.dependence_graph.specs.dep_graph.Joined.{pairings_with, ref_pair_of};

use crate::graphs::Dep;
use crate::nest_references::Occurrence;
use direction_vectors::RefPair;
use linear_forms::ZERO;
use std::alloc::Global;
use subscripts::{Affine, Pairing, Span};
use tree::{Memory, Seq};

// The span of the constant trip 1.
const ONCE: Span = Span {
    last: Some(1),
    fixed: true,
};

// How many loops, given by their numbers, stand round both.
fn common_loops(from: &[u32], to: &[u32]) -> usize
    ensures value { result ≡ common_numbers from.now to.now }
    ensures within { result ≤ length from.now }
{
    let Some((first, from)) = from.split_first() else {
        return 0;
    };
    let Some((other, to)) = to.split_first() else {
        return 0;
    };
    if first == other {
        1 + common_loops(from, to)
    } else {
        0
    }
}

fn padded(spans: &[Span]) -> [Span; 7]
    requires { length spans.now ≤ 7 }
    ensures { result ≡ padded spans.now }
{
    let mut all = [ONCE; 7];
    all[..spans.len()].copy_from_slice(spans);
    all
}

// A pair of subscripts that aren't linear.
fn blank_pairing(from: &Occurrence, to: &Occurrence) -> Pairing
    requires from { length from.now.spans ≤ 7 }
    requires to { length to.now.spans ≤ 7 }
    requires depth { length from.now.loops ≡ length from.now.spans }
    ensures { result ≡ blank_pairing from.now to.now }
{
    Pairing {
        from: ZERO,
        to: ZERO,
        known: false,
        common: common_loops(from.loops.as_slice(), to.loops.as_slice()) as u8,
        from_depth: from.spans.len() as u8,
        to_depth: to.spans.len() as u8,
        from_spans: padded(from.spans.as_slice()),
        to_spans: padded(to.spans.as_slice()),
    }
}

fn pairing_with(blank: &Pairing, from: &Option<Affine>, to: &Option<Affine>) -> Pairing
    ensures { result ≡ pairing_with blank.now from.now to.now }
{
    match from {
        None => *blank,
        Some(first) => match to {
            None => *blank,
            Some(second) => Pairing {
                from: *first,
                to: *second,
                known: true,
                ..*blank
            },
        },
    }
}

fn add_pairings(
    pairings: &mut Seq<Pairing>,
    blank: &Pairing,
    from: &[Option<Affine>],
    to: &[Option<Affine>],
) -> Result<(), Memory>
    ensures { OnOk result (pairings.new ≡ pairings.old ++ pairings_with blank.now from.now to.now) }
{
    let Some((first, from)) = from.split_first() else {
        return Ok(());
    };
    let Some((second, to)) = to.split_first() else {
        return Ok(());
    };
    pairings.push(pairing_with(blank, first, second))?;
    add_pairings(pairings, blank, from, to)
}

fn pairings_with(
    alloc: Global,
    blank: &Pairing,
    from: &Seq<Option<Affine>>,
    to: &Seq<Option<Affine>>,
) -> Result<Seq<Pairing>, Memory>
    ensures { IfOk result (λ ps. ps ≡ pairings_with blank.now from.now to.now) }
{
    let mut pairings = Seq::new(alloc);
    add_pairings(&mut pairings, blank, from.as_slice(), to.as_slice())?;
    Ok(pairings)
}

fn copy_spans(alloc: Global, spans: &Seq<Span>) -> Result<Seq<Span>, Memory>
    ensures { IfOk result (λ copies. copies ≡ spans.now) }
{
    Ok(Seq::from_vec(Vec::from_slice(alloc, spans.as_slice())?))
}

/// Two references to one array or scalar.
pub fn ref_pair(alloc: Global, from: &Occurrence, to: &Occurrence) -> Result<RefPair, Memory>
    requires from { length from.now.spans ≤ 7 }
    requires to { length to.now.spans ≤ 7 }
    requires depth { length from.now.loops ≡ length from.now.spans }
    ensures { IfOk result (λ r. r ≡ ref_pair_of from.now to.now) }
{
    let blank = blank_pairing(from, to);
    Ok(RefPair {
        subs: pairings_with(alloc, &blank, &from.forms, &to.forms)?,
        from_spans: copy_spans(alloc, &from.spans)?,
        to_spans: copy_spans(alloc, &to.spans)?,
        common: blank.common,
        same_turn: from.place.stmt < to.place.stmt,
    })
}

/// The kind of a dependence from one reference to the other, where there may be one.
pub fn dependence_of(from: &Occurrence, to: &Occurrence) -> Option<Dep>
    ensures { result ≡ dependence_of from.now to.now }
{
    if from.name != to.name {
        return None;
    }
    match from.place.at {
        0 => match to.place.at {
            0 => Some(Dep::Output),
            _ => Some(Dep::Flow),
        },
        _ => match to.place.at {
            0 => Some(Dep::Anti),
            _ => None,
        },
    }
}
