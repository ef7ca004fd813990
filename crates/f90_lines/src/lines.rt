//! The lines of a text, with their numbers.
ghost use Rattle.std.specs.Prelude.{◌≡◌, ◌+◌, ◌^◌, ◌<◌, ◌∷◌, [], length, IfSome, IfNone};
ghost use Rattle.std.specs.Str.Lines.{lines};

use meaning::decks::next_line;

/// A line without its end: its number, from 1, and its bytes.
#[derive(Clone, Copy, Debug)]
pub(crate) struct Line<'a> {
    pub number: u32,
    pub text: &'a [u8],
}

/// The lines that are left, and how many were taken.
#[derive(Clone, Copy, Debug)]
pub(crate) struct Lines<'a> {
    pub taken: u32,
    pub rest: &'a [u8],
    ghost in_range: { taken + length rest.now < 2 ^ 32 },
}

impl<'a> Lines<'a> {
    pub fn new(text: &'a [u8]) -> Lines<'a>
        requires { length text.now < 2 ^ 32 }
        ensures none { result.taken ≡ 0 }
        ensures all { result.rest.now ≡ text.now }
    {
        Lines {
            taken: 0,
            rest: text,
        }
    }

    /// Takes the first line.
    pub fn next(&mut self) -> Option<Line<'a>>
        ensures line { IfSome result (λ line. lines self.old.rest.now
            ≡ line.text.now ∷ lines self.new.rest.now) }
        ensures number { IfSome result (λ line. line.number ≡ self.old.taken + 1) }
        ensures taken { IfSome result (λ line. self.new.taken ≡ self.old.taken + 1) }
        ensures shorter { IfSome result (λ line. length self.new.rest.now < length self.old.rest.now) }
        ensures none { IfNone result (lines self.old.rest.now ≡ []) }
    {
        let (text, rest) = next_line(self.rest)?;
        let number = self.taken + 1;
        self.taken = number;
        self.rest = rest;
        Some(Line { number, text })
    }
}
