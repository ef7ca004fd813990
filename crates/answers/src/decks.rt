//! Questions on decks. `names` asks for the names that a program reads and writes, and `reasons` for all that keeps its
//! loops from being nests. The others ask of each nest, with a line for each kept loop: `linear` for the right sides of
//! its statements as linear forms, `normal` for the nest once its loops go from 1 by 1, with what runs after it,
//! `references` for the references of that nest, their loops' spans and their subscripts as linear forms, `vectors` for
//! what the tests say of each two references, `components` for the classes of its statements at each level, `forms` for
//! the array forms of its statements at each level, or what forbids them, and `guarded` for these and what is emitted
//! where its IFs are guards. What is asked by `printed` is a text of Fortran 90, which is printed.
use crate::couples::push_vectors;
use crate::forms::push_forms;
use crate::guards::push_guarded;
use crate::levels::push_components;
use crate::linear::push_linear;
use crate::names::push_block_names;
use crate::normal::push_normal;
use crate::printed::push_printed;
use crate::reasons::push_reasons;
use crate::references::push_references;
use crate::texts::{push, push_lines, push_refusal};
use f77_read::read77;
use find_nests::{Found, find_nests};
use listing::programs::kept_loop;
use nest::Nest;
use normal_loops::normalise;
use std::alloc::Global;
use tree::{Memory, Program77, Refused, Width};

/// The most names and symbols.
const MOST_NAMES: usize = 1000;

// The answer on a nest whose loops go from 1 by 1.
fn push_normal_answer(
    out: &mut Vec<u8>,
    alloc: Global,
    words: &str,
    nest: &Nest,
) -> Result<(), Memory> {
    match words {
        "normal" => push_normal(out, alloc, nest),
        "references" => push_references(out, alloc, nest),
        "vectors" => push_vectors(out, alloc, nest),
        "components" => push_components(out, alloc, nest),
        "forms" => push_forms(out, alloc, nest),
        "guarded" => push_guarded(out, alloc, nest),
        _ => push(out, b"no question\n"),
    }
}

// The answer on a nest.
fn push_nest_answer(
    out: &mut Vec<u8>,
    alloc: Global,
    words: &str,
    nest: &Nest,
) -> Result<(), Memory> {
    if nest.symbols.len() > MOST_NAMES {
        return push(out, b"too many symbols\n");
    }
    if words == "linear" {
        return push_linear(out, alloc, nest);
    }
    match normalise(alloc, nest)? {
        Some(normal) => push_normal_answer(out, alloc, words, &normal),
        None => push(out, b"no normal form\n"),
    }
}

// The answer on what was found of a loop.
fn push_found_answer(
    out: &mut Vec<u8>,
    alloc: Global,
    words: &str,
    found: &Found,
) -> Result<(), Memory> {
    match found {
        Found::Nest(nest) => push_nest_answer(out, alloc, words, nest),
        Found::Kept(line, reason) => {
            push_lines(out, kept_loop(alloc, *line, *reason)?.as_slice())
        }
    }
}

// The answers on the nests of a program.
fn push_nest_answers(
    out: &mut Vec<u8>,
    alloc: Global,
    words: &str,
    program: &Program77,
) -> Result<(), Memory> {
    if program.decls.len() > MOST_NAMES {
        return push(out, b"too many names\n");
    }
    for found in find_nests(alloc, program)?.as_slice() {
        push_found_answer(out, alloc, words, found)?;
    }
    Ok(())
}

fn push_answer(
    out: &mut Vec<u8>,
    alloc: Global,
    words: &str,
    program: &Program77,
) -> Result<(), Memory> {
    match words {
        "names" => push_block_names(out, alloc, &program.body),
        "reasons" => push_reasons(out, alloc, program),
        _ => push_nest_answers(out, alloc, words, program),
    }
}

fn push_deck_answer(
    out: &mut Vec<u8>,
    alloc: Global,
    words: &str,
    deck: &[u8],
) -> Result<(), Memory> {
    match read77(alloc, deck, Width::Plain) {
        Ok(program) => push_answer(out, alloc, words, &program),
        Err(Refused::Refusal(refusal)) => push_refusal(out, refusal),
        Err(Refused::Memory) => Err(Memory),
    }
}

/// The answer to a question on a deck, or on a text of Fortran 90.
pub(crate) fn deck_answer(alloc: Global, words: &str, deck: &[u8]) -> Result<Vec<u8>, Memory> {
    let mut out = Vec::new(alloc);
    match words {
        "printed" => push_printed(&mut out, alloc, deck)?,
        _ => push_deck_answer(&mut out, alloc, words, deck)?,
    }
    Ok(out)
}
