//! How far a run is, and why it goes no further.
ghost use Rattle.std.specs.Prelude.{◌≡◌, ◌≤◌, length, List, ℕ, MatchResult, Ok};
ghost use Rattle.tree.specs.Plain.{Declaration};
ghost use Rattle.meaning.specs.Store.{Store};
ghost use Rattle.meaning.specs.Run.{begins_line, skips_line};
ghost use Rattle.machine.specs.Moments.{seen_at, CountsStep, begun_at};
ghost use Rattle.machine.specs.Endings.{end_at, ended};
ghost use Rattle.machine.specs.Statements.{DoesOver};
ghost use Rattle.machine.specs.Reading.{TakesWord, HasNoWord};

use crate::input::{line_end, value_place, word_end};
use crate::steps::at;
use meaning::End;
use streams::WriteFault;
use tree::Fault;

/// The place in the input, whether the present READ has had a value, and how many steps are left, if there is a limit.
#[derive(Clone, Copy, Debug, PartialEq, Eq)]
pub struct Progress {
    pub(crate) at: usize,
    pub(crate) had_value: bool,
    pub(crate) left: Option<u64>,
}

/// Why the statements of a block aren't done one after the other to its end: a jump to a label, STOP, a fault at a
/// line, or the limit of steps.
#[derive(Clone, Copy, Debug, PartialEq, Eq)]
pub enum Halt {
    Jump(u32),
    Stop,
    Fault(Fault, u32),
    Limit,
}

/// Why a run goes no further: it halts, or its output couldn't be written.
#[derive(Clone, Copy, Debug, PartialEq, Eq)]
pub enum Left {
    Halted(Halt),
    Unwritten,
}

impl From<Halt> for Left {
    ghost use Rattle.std.specs.Prelude.{◌≡◌};
    ghost use Rattle.machine.specs.declared.progress.Left.TheVariants as Left;

    ghost from_gives = { λ halt left. left ≡ Left.Halted halt };

    fn from(halt: Halt) -> Left {
        Left::Halted(halt)
    }
}

impl From<WriteFault> for Left {
    ghost use Rattle.std.specs.Prelude.{◌≡◌};
    ghost use Rattle.machine.specs.declared.progress.Left.TheVariants as Left;

    ghost from_gives = { λ _ left. left ≡ Left.Unwritten };

    fn from(_: WriteFault) -> Left {
        Left::Unwritten
    }
}

fn end_at(halt: Halt) -> End
    ensures { result ≡ end_at halt }
{
    match halt {
        Halt::Jump(_) => End::Done,
        Halt::Stop => End::Done,
        Halt::Fault(fault, line) => End::Fault(fault, line),
        Halt::Limit => End::StepLimit,
    }
}

/// How a run ended whose statements gave this answer.
pub fn ended(answer: Result<(), Left>) -> End
    ensures { result ≡ ended answer }
{
    match answer {
        Ok(()) => End::Done,
        Err(Left::Halted(halt)) => end_at(halt),
        Err(Left::Unwritten) => End::WriteFault,
    }
}

impl Progress {
    /// A run begins, with so many steps at most.
    pub fn begin(limit: Option<u64>) -> Progress
        ensures { result ≡ begun_at limit }
    {
        Progress {
            at: 0,
            had_value: false,
            left: limit,
        }
    }

    /// Counts a step, unless none is left.
    pub fn count_step(&mut self) -> Result<(), Halt>
        ensures { (ds : List Declaration) (s : Store)
            → CountsStep (seen_at ds s self.old) (seen_at ds s self.new) result }
    {
        if let Some(left) = self.left {
            if left == 0 {
                return Err(Halt::Limit);
            }
            self.left = Some(left - 1);
        }
        Ok(())
    }

    /// A READ begins at a line, which has to be there.
    pub fn begin_line(&mut self, line: u32, input: &[u8]) -> Result<(), Halt>
        ensures { (ds : List Declaration) (s : Store)
            → DoesOver input.now (λ limit. begins_line line) (seen_at ds s self.old) (seen_at ds s self.new) result }
    {
        if self.at >= input.len() {
            return Err(Halt::Fault(Fault::InputEnd, line));
        }
        self.had_value = false;
        Ok(())
    }

    /// The next word of the input.
    pub fn take_word<'a>(&mut self, line: u32, input: &'a [u8]) -> Result<&'a [u8], Halt>
        ensures { (ds : List Declaration) (s : Store) → MatchResult result
            (λ word. TakesWord input.now line (seen_at ds s self.old) (seen_at ds s self.new) word.now)
            (λ halt. HasNoWord input.now line (seen_at ds s self.old) (seen_at ds s self.new) halt) }
    {
        let start = at(line, value_place(input, self.at, self.had_value))?;
        let end = word_end(input, start);
        self.at = end;
        self.had_value = true;
        Ok(&input[start..end])
    }

    /// The rest of the line is passed over.
    pub fn skip_line(&mut self, input: &[u8])
        ensures { (ds : List Declaration) (s : Store)
            → DoesOver input.now (λ limit. skips_line) (seen_at ds s self.old) (seen_at ds s self.new) (Ok tt) }
    {
        self.at = line_end(input, self.at);
    }
}
