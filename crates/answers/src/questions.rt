//! A question on pairs of subscripts that are given by numbers, which is a line:
//!
//!     <= ; 10 ~5 | ? | ; 2*i+p+N-1, j ; i, 3
//!
//! the directions of the loops round both references, the spans of those, of the loops round the first reference alone
//! and of those round the second alone, and pairs of subscripts. A span is a constant trip, `~` and a last iteration,
//! or `?` without an end. Loops are i to o, p to v and a to g, symbols are capital letters, and a subscript that isn't
//! linear is `?`. What is written for a question is the line, for each pair its class, its group and what the GCD test
//! says, the pairs that Banerjee's test refutes, and the answers of the tests.
use crate::sides::{Letters, affine};
use subscripts::{Affine, Dir, Dirs, Pairing, Span};

/// Pairs of subscripts of the same two references, and directions.
#[derive(Clone, Copy)]
pub struct Question {
    pub dirs: Dirs,
    /// How many pairs there are, which stand first.
    pub count: u8,
    pub pairs: [Pairing; 7],
}

/// Spans in order, and how many there are.
#[derive(Clone, Copy)]
struct Spans {
    count: u8,
    at: [Span; 7],
}

const ONCE: Span = Span {
    last: Some(1),
    fixed: true,
};

const NO_FORM: Affine = Affine {
    loops: [0; 7],
    syms: [(0, 0); 8],
    constant: 0,
};

fn span(word: &str) -> Option<Span> {
    if word == "?" {
        return Some(Span {
            last: None,
            fixed: false,
        });
    }
    match word.strip_prefix("~") {
        Some(last) => Some(Span {
            last: Some(last.parse::<i64>().ok()?),
            fixed: false,
        }),
        None => Some(Span {
            last: Some(word.parse::<i64>().ok()?),
            fixed: true,
        }),
    }
}

/// The spans of a list, behind those that are there.
fn spans_behind(before: Spans, text: &str) -> Option<Spans> {
    let mut all = before;
    for word in text.split_whitespace() {
        let place = usize::from(all.count);
        *all.at.get_mut(place)? = span(word)?;
        all.count = all.count.saturating_add(1);
    }
    Some(all)
}

/// Directions as they are written, `*` for any.
fn directions(text: &str) -> Option<Dirs> {
    let mut dirs = Dirs {
        len: 0,
        at: [Dir::Any; 7],
    };
    for character in text.as_bytes() {
        let dir = match *character {
            b'<' => Dir::Lt,
            b'=' => Dir::Eq,
            b'>' => Dir::Gt,
            b'*' => Dir::Any,
            b' ' | b',' => continue,
            _ => return None,
        };
        let place = usize::from(dirs.len);
        *dirs.at.get_mut(place)? = dir;
        dirs.len = dirs.len.saturating_add(1);
    }
    Some(dirs)
}

/// A pair with these loops and no subscripts.
fn loops(text: &str) -> Option<Pairing> {
    let mut lists = text.split('|');
    let none = Spans {
        count: 0,
        at: [ONCE; 7],
    };
    let common = spans_behind(none, lists.next()?)?;
    let from = spans_behind(common, lists.next().unwrap_or(""))?;
    let to = spans_behind(common, lists.next().unwrap_or(""))?;
    Some(Pairing {
        from: NO_FORM,
        to: NO_FORM,
        known: false,
        common: common.count,
        from_depth: from.count,
        to_depth: to.count,
        from_spans: from.at,
        to_spans: to.at,
    })
}

/// The pair with these subscripts.
fn pair(loops: &Pairing, text: &str) -> Option<Pairing> {
    let (from, to) = text.split_once(',')?;
    let mut pair = *loops;
    if from.trim() == "?" || to.trim() == "?" {
        return Some(pair);
    }
    let from_letters = Letters {
        common: loops.common,
        first_own: b'p',
        own: loops.from_depth.saturating_sub(loops.common),
    };
    let to_letters = Letters {
        common: loops.common,
        first_own: b'a',
        own: loops.to_depth.saturating_sub(loops.common),
    };
    pair.from = affine(from, from_letters)?;
    pair.to = affine(to, to_letters)?;
    pair.known = true;
    Some(pair)
}

/// The question of a line, or None where it is none.
pub fn read_question(line: &str) -> Option<Question> {
    let mut parts = line.split(';');
    let dirs = directions(parts.next()?)?;
    let loops = loops(parts.next()?)?;
    let mut asked = Question {
        dirs,
        count: 0,
        pairs: [loops; 7],
    };
    for part in parts {
        let place = usize::from(asked.count);
        *asked.pairs.get_mut(place)? = pair(&loops, part)?;
        asked.count = asked.count.saturating_add(1);
    }
    Some(asked)
}
