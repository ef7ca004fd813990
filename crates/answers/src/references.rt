//! The references of nests.
use crate::texts::{push, push_count, push_form, push_place, push_span};
use dependence_graph::nest_ready::is_ready;
use dependence_graph::nest_references::{Occurrence, occurrences_of};
use nest::Nest;
use std::alloc::Global;
use subscripts::{Affine, Span};
use tree::{Memory, Name};

fn push_loops(out: &mut Vec<u8>, loops: &[u32]) -> Result<(), Memory> {
    for number in loops {
        push(out, b" ")?;
        push_count(out, *number)?;
    }
    Ok(())
}

fn push_spans(out: &mut Vec<u8>, spans: &[Span]) -> Result<(), Memory> {
    for span in spans {
        push(out, b" ")?;
        push_span(out, span)?;
    }
    Ok(())
}

fn push_subscripts(
    out: &mut Vec<u8>,
    forms: &[Option<Affine>],
    depth: usize,
    symbols: &[Name],
) -> Result<(), Memory> {
    for form in forms {
        push(out, b"  ")?;
        match form {
            Some(form) => push_form(out, form, depth, symbols)?,
            None => push(out, b"not linear")?,
        }
        push(out, b"\n")?;
    }
    Ok(())
}

fn push_occurrence(out: &mut Vec<u8>, one: &Occurrence, symbols: &[Name]) -> Result<(), Memory> {
    push_place(out, one.place)?;
    push(out, b" ")?;
    push(out, one.name.text())?;
    push(out, b", loops")?;
    push_loops(out, one.loops.as_slice())?;
    push(out, b", spans")?;
    push_spans(out, one.spans.as_slice())?;
    push(out, b"\n")?;
    push_subscripts(out, one.forms.as_slice(), one.loops.len(), symbols)
}

/// Adds the references of a nest: the place and the name of each, the numbers of the loops round it and their spans,
/// and a line for each subscript.
pub(crate) fn push_references(out: &mut Vec<u8>, alloc: Global, nest: &Nest) -> Result<(), Memory> {
    if !is_ready(alloc, nest)? {
        return push(out, b"not ready\n");
    }
    for one in occurrences_of(alloc, nest)?.as_slice() {
        push_occurrence(out, one, nest.symbols.as_slice())?;
    }
    Ok(())
}
