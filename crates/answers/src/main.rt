//! Answers questions on decks and on pairs of subscripts, so that what single calls give stands in rows of text, and
//! can be compared with another program that answers them. The first line of the input is the question; a deck follows,
//! or for `pairings` lines of pairs of subscripts. `decks` and `questions` say what may be asked.
//!
//! Proved answers questions on decks (the nest after a pass, holds and array forms by level, what is emitted where IFs
//! are guards, references, vectors, components, linear forms, reasons, names, a text as it is printed again) and on
//! pairs of subscripts: a program for the rows of `rows/`, without contracts but safety.
#![tactic(auto)]

mod couples;
mod decks;
mod forms;
mod guards;
mod levels;
mod linear;
mod names;
mod normal;
mod pairs;
mod printed;
mod questions;
mod reasons;
mod references;
mod sides;
mod texts;
mod words;

use crate::decks::deck_answer;
use crate::pairs::answers;
use crate::questions::read_question;
use std::io::{self, BufRead, BufReader, BufWriter, Read, Write};

// The answers to lines of pairs of subscripts, each behind its line.
fn answer_pairings<R: BufRead + Drop>(rt: &HostRuntime, questions: R) -> io::Result<()> {
    let mut out = BufWriter::new(rt.alloc(), io::writer(rt))?;
    for line in questions.lines(rt.alloc()) {
        let line = line?;
        let text = match read_question(line.as_str()) {
            Some(asked) => answers(rt.alloc(), &asked)?,
            None => format!(in rt.alloc(); "  no question\n")?,
        };
        out.write_all(line.as_str().as_bytes())?;
        out.write_all(b"\n")?;
        out.write_all(text.as_str().as_bytes())?;
    }
    out.flush()
}

// The answer to a question on a deck.
fn answer_deck<R: Read + Drop>(rt: &HostRuntime, words: &str, mut source: R) -> io::Result<()> {
    let mut deck = Vec::new(rt.alloc());
    source.read_to_end(&mut deck)?;
    match deck_answer(rt.alloc(), words, deck.as_slice()) {
        Ok(text) => io::writer(rt).write_all(text.as_slice()),
        Err(_) => Err(io::Error::from(io::ErrorKind::OutOfMemory)),
    }
}

fn main(rt: HostRuntime) -> io::Result<()> {
    let mut input = BufReader::new(rt.alloc(), rt.reader())?;
    let mut words = String::new(rt.alloc());
    input.read_line(&mut words)?;
    match words.as_str().trim() {
        "pairings" => answer_pairings(&rt, input),
        question => answer_deck(&rt, question, input),
    }
}
