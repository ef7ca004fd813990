//! The directions in which two references of a nest may meet.
use crate::pairs::classes;
use crate::texts::{push, push_place};
use crate::words::push_verdict;
use dependence_graph::nest_ready::is_ready;
use dependence_graph::nest_references::{Occurrence, occurrences_of};
use direction_vectors::{RefPair, vectors};
use linear_forms::ZERO;
use nest::Nest;
use std::alloc::Global;
use subscripts::{Affine, Dir, Dirs, Pairing, Span, Verdict};
use tree::{Memory, Seq};

// The span of the constant trip 1.
const ONCE: Span = Span {
    last: Some(1),
    fixed: true,
};

// The kind of a dependence from one reference to the other, where there may be one.
fn kind_word(from: &Occurrence, to: &Occurrence) -> Option<&'static [u8]> {
    if from.name != to.name {
        return None;
    }
    match (from.place.at, to.place.at) {
        (0, 0) => Some(b"OUTPUT "),
        (0, _) => Some(b"FLOW "),
        (_, 0) => Some(b"ANTI "),
        _ => None,
    }
}

fn small(count: usize) -> u8 {
    u8::try_from(count).unwrap_or(u8::MAX)
}

// How many loops stand round both.
fn common_loops(from: &[u32], to: &[u32]) -> u8 {
    let mut count = 0u8;
    for (one, other) in from.iter().zip(to.iter()) {
        if one != other {
            return count;
        }
        count = count.saturating_add(1);
    }
    count
}

fn padded(spans: &[Span]) -> [Span; 7] {
    let mut all = [ONCE; 7];
    for (place, span) in spans.iter().enumerate() {
        if let Some(at) = all.get_mut(place) {
            *at = *span;
        }
    }
    all
}

// A pair of subscripts that aren't linear.
fn blank_pairing(from: &Occurrence, to: &Occurrence) -> Pairing {
    Pairing {
        from: ZERO,
        to: ZERO,
        known: false,
        common: common_loops(from.loops.as_slice(), to.loops.as_slice()),
        from_depth: small(from.spans.len()),
        to_depth: small(to.spans.len()),
        from_spans: padded(from.spans.as_slice()),
        to_spans: padded(to.spans.as_slice()),
    }
}

fn pairing_of(blank: &Pairing, from: &Option<Affine>, to: &Option<Affine>) -> Pairing {
    let mut pairing = *blank;
    if let Some(first) = from {
        if let Some(second) = to {
            pairing.from = *first;
            pairing.to = *second;
            pairing.known = true;
        }
    }
    pairing
}

fn pairings_of(
    alloc: Global,
    blank: &Pairing,
    from: &[Option<Affine>],
    to: &[Option<Affine>],
) -> Result<Vec<Pairing>, Memory> {
    let mut all = Vec::new(alloc);
    for (first, second) in from.iter().zip(to.iter()) {
        all.push(pairing_of(blank, first, second))?;
    }
    Ok(all)
}

fn couple_of(alloc: Global, from: &Occurrence, to: &Occurrence) -> Result<RefPair, Memory> {
    let blank = blank_pairing(from, to);
    let subs = pairings_of(alloc, &blank, from.forms.as_slice(), to.forms.as_slice())?;
    Ok(RefPair {
        subs: Seq::from_vec(subs),
        from_spans: Seq::from_vec(Vec::from_slice(alloc, from.spans.as_slice())?),
        to_spans: Seq::from_vec(Vec::from_slice(alloc, to.spans.as_slice())?),
        common: blank.common,
        same_turn: from.place.stmt < to.place.stmt,
    })
}

fn dir_word(dir: Dir) -> &'static [u8] {
    match dir {
        Dir::Lt => b"<",
        Dir::Eq => b"=",
        Dir::Gt => b">",
        Dir::Any => b"*",
    }
}

fn push_dirs(out: &mut Vec<u8>, dirs: &Dirs) -> Result<(), Memory> {
    for (place, dir) in dirs.at.iter().enumerate() {
        if place < usize::from(dirs.len) {
            push(out, if place > 0 { b"," } else { b"" })?;
            push(out, dir_word(*dir))?;
        }
    }
    Ok(())
}

fn push_vector(
    out: &mut Vec<u8>,
    alloc: Global,
    refs: &RefPair,
    vector: &(Dirs, Verdict),
) -> Result<(), Memory> {
    push(out, b"  (")?;
    push_dirs(out, &vector.0)?;
    push(out, b") ")?;
    let depths = (small(refs.from_spans.len()), small(refs.to_spans.len()));
    let mut text = String::new(alloc);
    push_verdict(&mut text, alloc, &vector.1, depths)?;
    push(out, text.as_str().as_bytes())
}

// Adds the classes of the subscripts, and what the tests say in each vector.
fn push_couple(out: &mut Vec<u8>, alloc: Global, refs: &RefPair) -> Result<(), Memory> {
    if !refs.is_valid() {
        return push(out, b"  not valid\n");
    }
    let dirs = Dirs {
        len: refs.common,
        at: [Dir::Any; 7],
    };
    push(
        out,
        classes(alloc, refs.subs.as_slice(), &dirs)?
            .as_str()
            .as_bytes(),
    )?;
    for vector in vectors(alloc, refs)?.as_slice() {
        push_vector(out, alloc, refs, vector)?;
    }
    Ok(())
}

fn push_couple_of(
    out: &mut Vec<u8>,
    alloc: Global,
    from: &Occurrence,
    to: &Occurrence,
) -> Result<(), Memory> {
    let Some(word) = kind_word(from, to) else {
        return Ok(());
    };
    push(out, word)?;
    push_place(out, from.place)?;
    push(out, b" ")?;
    push_place(out, to.place)?;
    push(out, b" ")?;
    push(out, from.name.text())?;
    push(out, b"\n")?;
    push_couple(out, alloc, &couple_of(alloc, from, to)?)
}

fn push_couples_of(
    out: &mut Vec<u8>,
    alloc: Global,
    from: &Occurrence,
    all: &[Occurrence],
) -> Result<(), Memory> {
    for to in all {
        push_couple_of(out, alloc, from, to)?;
    }
    Ok(())
}

/// Adds for each two references of a nest between which a dependence may be its kind, the classes and groups of their
/// subscripts, and what the tests say in each direction vector.
pub(crate) fn push_vectors(out: &mut Vec<u8>, alloc: Global, nest: &Nest) -> Result<(), Memory> {
    if !is_ready(alloc, nest)? {
        return push(out, b"not ready\n");
    }
    let all = occurrences_of(alloc, nest)?;
    for from in all.as_slice() {
        push_couples_of(out, alloc, from, all.as_slice())?;
    }
    Ok(())
}
