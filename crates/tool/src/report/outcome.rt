//! How a command ended, its status and its line for the notes.
ghost use Rattle.std.specs.Prelude.{◌≡◌, ◌≤◌, [], OnOk, OnErr};
ghost use Rattle.streams.specs.Causes.{Rose};
ghost use Rattle.streams.specs.Streams.{Gives, GivesPart};
ghost use Rattle.tool.specs.report.Notes.{status_of, note_of, refusal_line, fault_line};

use crate::report::line::Line;
use crate::report::names::{fault_name, fault_number, refusal_name, refusal_word};
use itoa::Buffer;
use streams::{Sink, WriteFault, write_all};
use tree::{Fault, Refusal};

/// How a command ended.
#[derive(Clone, Copy, Debug, PartialEq, Eq)]
pub enum Outcome {
    Done,
    /// The words are no command.
    Usage,
    Refused(Refusal),
    /// The program that was run has this fault at this line.
    Faulted(Fault, u32),
    StepLimit,
    ReadFault,
    WriteFault,
    OutOfMemory,
}

/// The status that tells of an outcome.
pub fn status(outcome: Outcome) -> u8
    ensures { result ≡ status_of outcome }
{
    match outcome {
        Outcome::Done => 0,
        Outcome::Usage => 1,
        Outcome::Refused(_) => 2,
        Outcome::Faulted(_, _) => 3,
        Outcome::StepLimit => 4,
        Outcome::ReadFault => 5,
        Outcome::WriteFault => 6,
        Outcome::OutOfMemory => 7,
    }
}

fn refusal_line(refusal: &Refusal) -> Line
    ensures { result ≡ refusal_line refusal.now }
{
    let mut line = Line::new();
    line.push("fvec: line ");
    line.push(Buffer::new().format(refusal.line));
    line.push(": refused ");
    line.push(Buffer::new().format(refusal.number));
    line.push_word(refusal_name(*refusal));
    line.push_word(refusal_word(*refusal));
    line.push("\n");
    line
}

fn fault_line(fault: Fault, at: u32) -> Line
    ensures { result ≡ fault_line fault at }
{
    let mut line = Line::new();
    line.push("fvec: line ");
    line.push(Buffer::new().format(at));
    line.push(": fault ");
    line.push(Buffer::new().format(fault_number(fault)));
    line.push_word(fault_name(fault));
    line.push("\n");
    line
}

fn usage_line() -> Line
    ensures { result ≡ note_of Outcome.Usage }
{
    let mut line = Line::of(
        "fvec: usage: vectorise [--wide] | graph [--wide] | run77 [--wide] [--final] [--steps N]",
    );
    line.push(" | run90 [--wide] [--final] [--steps N] | make N\n");
    line
}

fn line_of(outcome: Outcome) -> Line
    ensures { result ≡ note_of outcome }
{
    match outcome {
        Outcome::Done => Line::new(),
        Outcome::Usage => usage_line(),
        Outcome::Refused(refusal) => refusal_line(&refusal),
        Outcome::Faulted(fault, line) => fault_line(fault, line),
        Outcome::StepLimit => Line::of("fvec: step limit\n"),
        Outcome::ReadFault => Line::of("fvec: read fault\n"),
        Outcome::WriteFault => Line::of("fvec: write fault\n"),
        Outcome::OutOfMemory => Line::of("fvec: out of memory\n"),
    }
}

/// Writes the line of an outcome, and passes it on.
pub fn note<E: Sink>(notes: &mut E, outcome: Outcome) -> Result<(), WriteFault>
    ensures ok { OnOk result (Gives (E.taken notes.old) (note_of outcome) (E.taken notes.new)) }
    ensures part { OnErr result (GivesPart (E.taken notes.old) (note_of outcome) (E.taken notes.new)) }
    ensures sent { OnOk result (E.held notes.new ≡ []) }
    ensures fault { OnErr result (Rose (E.faults notes.old) (E.faults notes.new)) }
    ensures no_fault { OnOk result (E.faults notes.new ≡ E.faults notes.old) }
    ensures later { E.faults notes.old ≤ E.faults notes.new }
{
    write_all(notes, line_of(outcome).as_bytes())?;
    notes.send()
}
