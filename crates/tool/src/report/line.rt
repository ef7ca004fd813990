//! A line of text that is made without memory.
ghost use Rattle.std.specs.Prelude.{◌≡◌, ◌+◌, ◌≤◌, ◌<◌, [], ◌++◌, length};
ghost use Rattle.tool.specs.report.Notes.{after_blank};

use std::marker::Model;

// How many bytes a line has at most.
const CAPACITY: usize = 160;

// A line, kept without memory.
#[derive(Drop)]
pub(crate) struct Line {
    bytes: [u8; CAPACITY],
    len: usize,
}

impl Model for Line {
    ghost use Rattle.std.specs.Prelude.{List, ℕ, take, ◌≤◌};
    ghost use Rattle.tool.specs.declared.report.line.TheConstants.{CAPACITY};

    ghost Value = { List ℕ };

    ghost view = { λ s. take s.len s.bytes };

    ghost invariant = { λ s. s.len ≤ CAPACITY };
}

impl Line {
    pub(crate) fn new() -> Line
        ensures { result ≡ [] }
    {
        Line {
            bytes: [0; CAPACITY],
            len: 0,
        }
    }

    pub(crate) fn of(text: &str) -> Line
        requires { length text.now ≤ CAPACITY }
        ensures { result ≡ text.now }
    {
        let mut line = Line::new();
        line.push(text);
        line
    }

    pub(crate) fn push(&mut self, text: &str)
        requires { length self.old + length text.now ≤ CAPACITY }
        ensures text { self.new ≡ self.old ++ text.now }
        ensures len { length self.new ≡ length self.old + length text.now }
    {
        let end = self.len + text.len();
        self.bytes[self.len..end].copy_from_slice(text.as_bytes());
        self.len = end;
    }

    // A blank and the word, or nothing where there is no word.
    pub(crate) fn push_word(&mut self, word: &str)
        requires { length self.old + length word.now < CAPACITY }
        ensures text { self.new ≡ self.old ++ after_blank word.now }
        ensures len { length self.new ≤ length self.old + length word.now + 1 }
    {
        if !word.is_empty() {
            self.push(" ");
            self.push(word);
        }
    }

    pub(crate) fn as_bytes(&self) -> &[u8]
        ensures { result.now ≡ self.now }
    {
        &self.bytes[..self.len]
    }
}
