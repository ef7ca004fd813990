//! The six counts of a translation.
ghost use Rattle.std.specs.Prelude.{◌≡◌, ◌++◌, codes, IfOk, OnOk};
ghost use Rattle.meaning.specs.Deck.{lines_of};
ghost use Rattle.tool.specs.Counts.{is_do, is_counted_line, line_count, count_name, count_line, counts_text};

use crate::marks::{begins, is_array_mark};
use itoa::Buffer;
use meaning::decks::next_line;
use std::alloc::{AllocError, Global};

/// What is counted.
#[derive(Clone, Copy)]
pub(crate) enum LineKind {
    Nests,
    Statements,
    Edges,
    Drops,
    /// Marks of array statements.
    Arrays,
    /// DO statements.
    Loops,
}

fn is_do(line: &[u8]) -> bool
    ensures { result ≡ is_do line.now }
{
    begins(line, b"DO ") && !begins(line, b"DO = ")
}

fn is_counted(counted: LineKind, text: &[u8], line: &[u8]) -> bool
    ensures { result ≡ is_counted_line counted (lines_of text.now) line.now }
{
    match counted {
        LineKind::Nests => begins(line, b"!G NEST "),
        LineKind::Statements => begins(line, b"!G STMT "),
        LineKind::Edges => begins(line, b"!G EDGE "),
        LineKind::Drops => begins(line, b"!G DROP "),
        LineKind::Arrays => is_array_mark(text, line),
        LineKind::Loops => is_do(line),
    }
}

// How many lines of the text count.
#[tactic(auto, using(crate::proofs::MarkLaws::counted_yes, crate::proofs::MarkLaws::counted_no))]
fn count(counted: LineKind, text: &[u8]) -> usize
    ensures { result ≡ line_count counted text.now }
{
    let mut count = 0;
    let mut rest = text;
    while let Some((line, after)) = next_line(rest) {
        if is_counted(counted, text, line) {
            count += 1;
        }
        rest = after;
    }
    count
}

fn name(counted: LineKind) -> &'static str
    ensures { result.now ≡ count_name counted }
{
    match counted {
        LineKind::Nests => "nests ",
        LineKind::Statements => "statements ",
        LineKind::Edges => "edges ",
        LineKind::Drops => "drops ",
        LineKind::Arrays => "arrays ",
        LineKind::Loops => "loops ",
    }
}

#[tactic(auto, unfolding(crate::specs::Counts::count_line))]
fn push_line(lines: &mut Vec<u8>, counted: LineKind, text: &[u8]) -> Result<(), AllocError>
    ensures { OnOk result (lines.new.items ≡ lines.old.items ++ count_line counted text.now) }
{
    lines.extend_from_slice(name(counted).as_bytes())?;
    lines.extend_from_slice(Buffer::new().format(count(counted, text)).as_bytes())?;
    lines.extend_from_slice(b"\n".as_slice())?;
    Ok(())
}

/// The counts of a translation, with a line for each.
#[tactic(auto, unfolding(crate::specs::Counts::counts_text))]
pub(crate) fn counts(alloc: Global, text: &[u8]) -> Result<Vec<u8>, AllocError>
    ensures { IfOk result (λ lines. lines.items ≡ counts_text text.now) }
{
    let mut lines = Vec::new(alloc);
    push_line(&mut lines, LineKind::Nests, text)?;
    push_line(&mut lines, LineKind::Statements, text)?;
    push_line(&mut lines, LineKind::Edges, text)?;
    push_line(&mut lines, LineKind::Drops, text)?;
    push_line(&mut lines, LineKind::Arrays, text)?;
    push_line(&mut lines, LineKind::Loops, text)?;
    Ok(lines)
}
