//! Notes that no deck brings about, and a sink of notes that fails.
use std::alloc::{AllocError, Global};
use std::test::Fail;
use streams::{MemSink, WriteFault};
use tool::report::{Outcome, note, status};
use tree::{Fault, Refusal};

// What `note` answers for the outcome, and whether the sink then holds this text; its call of this number fails.
fn noted(
    alloc: Global,
    outcome: Outcome,
    piece: usize,
    fails: u64,
    text: &str,
) -> Result<(Result<(), WriteFault>, bool), AllocError> {
    let fails = Vec::from_slice(alloc, &[fails])?;
    let Ok(mut notes) = MemSink::new(alloc, 200, piece.max(1), fails) else {
        return Err(AllocError);
    };
    let answer = note(&mut notes, outcome);
    Ok((answer, notes.bytes() == text.as_bytes()))
}

const LAST: u32 = u32::MAX;

// Outcomes, their statuses and their lines.
const OUTCOMES: &[(Outcome, u8, &str)] = &[
    (Outcome::Done, 0, ""),
    (Outcome::ReadFault, 5, "fvec: read fault\n"),
    (Outcome::WriteFault, 6, "fvec: write fault\n"),
    (Outcome::OutOfMemory, 7, "fvec: out of memory\n"),
    (
        Outcome::Faulted(Fault::Shape, 0),
        3,
        "fvec: line 0: fault 8 Shape\n",
    ),
    (
        Outcome::Faulted(Fault::Allocated, LAST),
        3,
        "fvec: line 4294967295: fault 9 Allocated\n",
    ),
];

// Number, line and word of a refusal, and its line. One that is neither OutOfProfile nor Limit has no word, and they
// have none but their own.
const REFUSALS: &[(u8, u32, u8, &str)] = &[
    (5, 5, 0, "fvec: line 5: refused 5 ManyLines\n"),
    (7, 1, 0, "fvec: line 1: refused 7 OutOfProfile\n"),
    (7, 1, 41, "fvec: line 1: refused 7 OutOfProfile\n"),
    (
        7,
        LAST,
        15,
        "fvec: line 4294967295: refused 7 OutOfProfile LOGICALFUNCTION\n",
    ),
    (9, 9, 0, "fvec: line 9: refused 9 Deep\n"),
    (12, LAST, 0, "fvec: line 4294967295: refused 12 NoEnd\n"),
    (13, 5, 5, "fvec: line 5: refused 13 Declared\n"),
    (18, 5, 0, "fvec: line 5: refused 18 Limit\n"),
    (18, 1, 5, "fvec: line 1: refused 18 Limit\n"),
];

#[test]
fn outcomes_have_statuses_and_lines(rt: HostRuntime) -> Result<(), Fail> {
    for &(outcome, number, text) in OUTCOMES {
        let done = noted(rt.alloc(), outcome, 200, 0, text)?;
        assert!(rt;
            status(outcome) == number && done == (Ok(()), true),
            "at {outcome:?}"
        );
    }
    for &(number, line, word, text) in REFUSALS {
        let outcome = Outcome::Refused(Refusal { number, line, word });
        let done = noted(rt.alloc(), outcome, 200, 0, text)?;
        assert!(rt;
            status(outcome) == 2 && done == (Ok(()), true),
            "at {outcome:?}"
        );
    }
    Ok(())
}

// At pieces of ten bytes the line of a read fault takes two calls.
#[test]
fn a_sink_that_fails_has_a_front(rt: HostRuntime) -> Result<(), Fail> {
    for (call, answer, front) in [
        (1, Err(WriteFault), ""),
        (2, Err(WriteFault), "fvec: read"),
        (3, Ok(()), "fvec: read fault\n"),
    ] {
        let done = noted(rt.alloc(), Outcome::ReadFault, 10, call, front)?;
        assert!(rt; done == (answer, true), "at {call}");
    }
    Ok(())
}
