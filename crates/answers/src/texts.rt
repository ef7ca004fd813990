//! Pieces of text.
use dependence_graph::graphs::Place;
use itoa::Buffer;
use subscripts::{Affine, Span};
use tree::{Line, Memory, Name, Refusal};

/// Adds a text.
pub(crate) fn push(out: &mut Vec<u8>, text: &[u8]) -> Result<(), Memory> {
    out.extend_from_slice(text)?;
    Ok(())
}

/// Adds a number.
pub(crate) fn push_number(out: &mut Vec<u8>, number: i64) -> Result<(), Memory> {
    push(out, Buffer::new().format(number).as_bytes())
}

/// Adds a count.
pub(crate) fn push_count(out: &mut Vec<u8>, count: u32) -> Result<(), Memory> {
    push(out, Buffer::new().format(count).as_bytes())
}

/// Adds the place of a reference: the number of its statement from 1, and its own there.
pub(crate) fn push_place(out: &mut Vec<u8>, place: Place) -> Result<(), Memory> {
    push(out, b"S")?;
    push_count(out, place.stmt.saturating_add(1))?;
    push(out, b".")?;
    push_count(out, place.at)
}

/// Adds names, each behind a blank.
pub(crate) fn push_names(out: &mut Vec<u8>, names: &[Name]) -> Result<(), Memory> {
    for name in names {
        push(out, b" ")?;
        push(out, name.text())?;
    }
    Ok(())
}

/// Adds lines.
pub(crate) fn push_lines(out: &mut Vec<u8>, lines: &[Line]) -> Result<(), Memory> {
    for line in lines {
        push(out, line.text.as_slice())?;
        push(out, b"\n")?;
    }
    Ok(())
}

// Adds the coefficients of so many loops.
fn push_coefficients(out: &mut Vec<u8>, form: &Affine, depth: usize) -> Result<(), Memory> {
    for (place, coefficient) in form.loops.iter().enumerate() {
        if place < depth {
            push(out, if place > 0 { b"," } else { b"" })?;
            push_number(out, *coefficient)?;
        }
    }
    Ok(())
}

// Adds a symbol with its coefficient, unless that is 0.
fn push_symbol(
    out: &mut Vec<u8>,
    term: (u16, i64),
    symbols: &[Name],
    blank: &[u8],
) -> Result<(), Memory> {
    if term.1 == 0 {
        return Ok(());
    }
    push(out, blank)?;
    if let Some(name) = symbols.get(usize::from(term.0)) {
        push(out, name.text())?;
    }
    push(out, b":")?;
    push_number(out, term.1)
}

// Adds the symbols of a form with their coefficients.
fn push_symbols(out: &mut Vec<u8>, form: &Affine, symbols: &[Name]) -> Result<(), Memory> {
    for (place, term) in form.syms.iter().enumerate() {
        push_symbol(out, *term, symbols, if place > 0 { b" " } else { b"" })?;
    }
    Ok(())
}

/// Adds a linear form under so many loops: their coefficients from the outside in, the symbols with theirs, and the
/// constant.
pub(crate) fn push_form(
    out: &mut Vec<u8>,
    form: &Affine,
    depth: usize,
    symbols: &[Name],
) -> Result<(), Memory> {
    push(out, b"loops (")?;
    push_coefficients(out, form, depth)?;
    push(out, b") symbols (")?;
    push_symbols(out, form, symbols)?;
    push(out, b") constant ")?;
    push_number(out, form.constant)
}

/// Adds a span: its last iteration, `none` without one, and `!` where the trip is constant.
pub(crate) fn push_span(out: &mut Vec<u8>, span: &Span) -> Result<(), Memory> {
    match span.last {
        Some(last) => push_number(out, last)?,
        None => push(out, b"none")?,
    }
    push(out, if span.fixed { b"!" } else { b"" })
}

/// Adds the line of a text that is refused: the number of the cause, and the line.
pub(crate) fn push_refusal(out: &mut Vec<u8>, refusal: Refusal) -> Result<(), Memory> {
    push(out, b"refused ")?;
    push_count(out, u32::from(refusal.number))?;
    push(out, b" line ")?;
    push_count(out, refusal.line)?;
    push(out, b"\n")
}
