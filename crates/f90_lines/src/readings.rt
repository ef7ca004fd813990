//! The statements of lines, line by line.
ghost use Rattle.std.specs.Prelude.{◌≡◌, ◌∷◌, ◌++◌, List, ℕ, IfOk, OnOk};
ghost use Rattle.f90_grammar.specs.FreeForm.{FreeStatement};
ghost use Rattle.f90_lines.specs.Parts.{first_chars, further_chars};
ghost use Rattle.f90_lines.specs.Readings.{with_mark, mark_within, statement_with, behind, on_line};
ghost use Rattle.f90_lines.specs.Readings as readings;
ghost use Rattle.f90_lines.specs.Views.{part_seen, statement_seen, statements_seen, reading_seen};
ghost use Rattle.f90_grammar.specs.FreeForm as free;

use crate::lines::Line;
use crate::marks::mark;
use crate::parts::{LinePart, is_comment_line, is_open_behind, part_in};
use std::alloc::Global;
use tree::{Mark, Memory, Seq};

/// A statement as it is written in free form.
#[derive(Drop)]
pub struct Statement {
    /// The number of its first line, from 1.
    pub line: u32,
    /// The marks between it and the statement before.
    pub ahead: Seq<Mark>,
    /// Its characters; a line feed stands for the end of a line between words.
    pub chars: Seq<u8>,
    /// The marks among its lines.
    pub within: Seq<Mark>,
}

/// Marks ahead of the next statement; or a statement so far, which is continued, and whether a constant is open in it.
#[derive(Drop)]
pub(crate) enum Reading {
    Ahead(Seq<Mark>),
    Inside(Statement, bool),
}

// The marks, with that of a comment line.
fn add_mark(mut marks: Seq<Mark>, line: &[u8]) -> Result<Seq<Mark>, Memory>
    ensures { IfOk result (λ more. more ≡ with_mark marks line.now) }
{
    if let Some(mark) = mark(line) {
        marks.push(mark)?;
    }
    Ok(marks)
}

fn mark_within(statement: Statement, line: &[u8]) -> Result<Statement, Memory>
    ensures { IfOk result (λ more. statement_seen more ≡ mark_within (statement_seen statement) line.now) }
{
    let Statement {
        line: number,
        ahead,
        chars,
        within,
    } = statement;
    Ok(Statement {
        line: number,
        ahead,
        chars,
        within: add_mark(within, line)?,
    })
}

fn first_chars(alloc: Global, part: &LinePart<'_>) -> Result<Seq<u8>, Memory>
    ensures { IfOk result (λ chars. chars ≡ first_chars (part_seen part.now)) }
{
    let mut chars = Vec::new(alloc);
    if part.is_pulled {
        chars.push(b'&')?;
    }
    chars.extend_from_slice(part.chars)?;
    Ok(Seq::from_vec(chars))
}

fn add_chars(statement: Statement, part: &LinePart<'_>) -> Result<Statement, Memory>
    ensures { IfOk result (λ more. statement_seen more
        ≡ statement_with (statement_seen statement) (part_seen part.now)) }
{
    let Statement {
        line,
        ahead,
        chars,
        within,
    } = statement;
    let mut chars = chars.into_vec();
    if !part.is_pulled {
        chars.push(b'\n')?;
    }
    chars.extend_from_slice(part.chars)?;
    Ok(Statement {
        line,
        ahead,
        chars: Seq::from_vec(chars),
        within,
    })
}

// Behind a part of the statement.
fn behind(
    alloc: Global,
    in_constant: bool,
    part: &LinePart<'_>,
    statement: Statement,
    statements: &mut Seq<Statement>,
) -> Result<Reading, Memory>
    ensures { IfOk result (λ next. (on : readings.Reading → List FreeStatement) →
        statements_seen statements.old ++ behind in_constant (part_seen part.now) (statement_seen statement) on
        ≡ statements_seen statements.new ++ on (reading_seen next)) }
{
    if part.is_continued {
        return Ok(Reading::Inside(statement, is_open_behind(in_constant, part.chars)));
    }
    statements.push(statement)?;
    Ok(Reading::Ahead(Seq::new(alloc)))
}

// A line where the next statement is to begin.
fn ahead(
    alloc: Global,
    marks: Seq<Mark>,
    line: &Line<'_>,
    statements: &mut Seq<Statement>,
) -> Result<Reading, Memory>
    ensures { IfOk result (λ next. (on : readings.Reading → List FreeStatement) →
        statements_seen statements.old ++ on_line line.now.number (readings.Ahead marks) line.now.text.now on
        ≡ statements_seen statements.new ++ on (reading_seen next)) }
{
    if is_comment_line(line.text) {
        return Ok(Reading::Ahead(add_mark(marks, line.text)?));
    }
    let part = part_in(false, line.text);
    let statement = Statement {
        line: line.number,
        ahead: marks,
        chars: first_chars(alloc, &part)?,
        within: Seq::new(alloc),
    };
    behind(alloc, false, &part, statement, statements)
}

// A line behind one that is continued.
fn inside(
    alloc: Global,
    statement: Statement,
    in_constant: bool,
    line: &Line<'_>,
    statements: &mut Seq<Statement>,
) -> Result<Reading, Memory>
    ensures { IfOk result (λ next. (on : readings.Reading → List FreeStatement) →
        statements_seen statements.old
        ++ on_line line.now.number (readings.Inside (statement_seen statement) in_constant) line.now.text.now on
        ≡ statements_seen statements.new ++ on (reading_seen next)) }
{
    if is_comment_line(line.text) {
        return Ok(Reading::Inside(mark_within(statement, line.text)?, in_constant));
    }
    let part = part_in(in_constant, line.text);
    let statement = add_chars(statement, &part)?;
    behind(alloc, in_constant, &part, statement, statements)
}

/// What is read behind a line; statements that end with it are added.
pub(crate) fn on_line(
    alloc: Global,
    reading: Reading,
    line: &Line<'_>,
    statements: &mut Seq<Statement>,
) -> Result<Reading, Memory>
    ensures { IfOk result (λ next. (on : readings.Reading → List FreeStatement) →
        statements_seen statements.old ++ on_line line.now.number (reading_seen reading) line.now.text.now on
        ≡ statements_seen statements.new ++ on (reading_seen next)) }
{
    match reading {
        Reading::Ahead(marks) => ahead(alloc, marks, line, statements),
        Reading::Inside(statement, in_constant) => {
            inside(alloc, statement, in_constant, line, statements)
        }
    }
}
