//! The tool over memory, with sources and sinks that fail.
use std::alloc::{AllocError, Global};
use std::test::Fail;
use streams::{MemSink, MemSource};
use tool::run_tool;

// A call with one source and two sinks: the size of the pieces of the deck and of the text, and the numbers of the
// calls that fail; no call has number 0.
#[derive(Clone, Copy)]
struct Call {
    words: &'static [&'static str],
    deck: &'static str,
    piece: usize,
    deck_fails: u64,
    out_fails: u64,
    notes_fails: u64,
}

// Whether the call ends so.
fn is_answered(
    alloc: Global,
    call: &Call,
    status: u8,
    out: &[u8],
    notes: &str,
) -> Result<bool, AllocError> {
    let mut words = Vec::new(alloc);
    for word in call.words {
        words.push(String::from_str(alloc, word)?)?;
    }
    let piece = call.piece.max(1);
    let fails = Vec::from_slice(alloc, &[call.deck_fails])?;
    let deck = Vec::from_slice(alloc, call.deck.as_bytes())?;
    let mut source = MemSource::new(deck, piece, fails);
    let fails = Vec::from_slice(alloc, &[call.out_fails])?;
    let Ok(mut text) = MemSink::new(alloc, 200, piece, fails) else {
        return Err(AllocError);
    };
    let fails = Vec::from_slice(alloc, &[call.notes_fails])?;
    let Ok(mut line) = MemSink::new(alloc, 200, 200, fails) else {
        return Err(AllocError);
    };
    let got = run_tool(alloc, &words, &mut source, &mut text, &mut line);
    Ok(got == status && text.bytes() == out && line.bytes() == notes.as_bytes())
}

const SEVEN: &str = "      PRINT *, 7\n      END\n";

const SEVEN90: &str = "PROGRAM FV_PROGRAM\nIMPLICIT NONE\nPRINT *, 7\nEND\n";

const COUNTING: &str = "      DO 10 I = 1, 2\n   10 K = K + 1\n      PRINT *, K\n      END\n";

// A division in a logical IF, with the input.
const GUARDED: &str =
    "      INTEGER A(5), B(5), C(5)\n      READ *, B, C\n      DO 10 I = 1, 5\n      \
    IF (B(I) .NE. 0) A(I) = C(I) / B(I)\n   10 CONTINUE\n      PRINT *, A\n      END\n\
    *DATA\n2 0 -3 0 5\n9 9 9 9 9\n";

const QUOTIENTS: &str = " 4 0 -3 0 1\n";

const ONE_NEST: &str = "nests 1\nstatements 2\nedges 1\ndrops 4\narrays 2\nloops 0\n 0 0 6\n";

// With pieces of one byte a source is called once for each byte, and once more for the end. It fails at the call behind
// so many, and at none where that would come behind the last.
#[test]
fn each_reading_may_fail(rt: HostRuntime) -> Result<(), Fail> {
    let rows: &[(&'static [&'static str], &'static str, &str)] = &[
        (&["vectorise"], SEVEN, SEVEN90),
        (&["run77"], GUARDED, QUOTIENTS),
    ];
    for &(words, deck, whole) in rows {
        for before in 0..=deck.len().saturating_add(1) {
            let call = Call {
                words,
                deck,
                piece: 1,
                deck_fails: (before as u64).saturating_add(1),
                out_fails: 0,
                notes_fails: 0,
            };
            let (status, out, notes) = if before <= deck.len() {
                (5, "", "fvec: read fault\n")
            } else {
                (0, whole, "")
            };
            let is_so = is_answered(rt.alloc(), &call, status, out.as_bytes(), notes)?;
            assert!(rt; is_so, "{words:?} behind {before}");
        }
    }
    Ok(())
}

// With pieces of one byte, a sink that fails at a call has all bytes before it, and none fails behind the last.
#[test]
fn each_writing_may_fail(rt: HostRuntime) -> Result<(), Fail> {
    let rows: &[(&'static [&'static str], &'static str, &str)] = &[
        (&["vectorise"], SEVEN, SEVEN90),
        (&["run77", "--final"], COUNTING, " 2\nI = 3\nK = 2\n"),
        (&["run77"], GUARDED, QUOTIENTS),
        (&["make", "1"], SEVEN, ONE_NEST),
    ];
    for &(words, deck, whole) in rows {
        for end in 0..=whole.len() {
            let out_fails = (end as u64).saturating_add(1);
            let call = Call {
                words,
                deck,
                piece: 1,
                deck_fails: 0,
                out_fails,
                notes_fails: 0,
            };
            let (status, notes) = if end < whole.len() {
                (6, "fvec: write fault\n")
            } else {
                (0, "")
            };
            let front = whole.as_bytes().get(..end).unwrap_or(&[]);
            assert!(rt;
                is_answered(rt.alloc(), &call, status, front, notes)?,
                "{words:?} at {out_fails}"
            );
        }
    }
    Ok(())
}

// A line before a fault that can't be written: so there is no fault. The note can't be written either, of none of
// these, and changes no status.
#[test]
fn the_first_event_decides(rt: HostRuntime) -> Result<(), Fail> {
    let ten = "      PRINT *, 10\n      I = 1 / J\n      END\n";
    let rows: &[(&'static [&'static str], &'static str, usize, u64, u8, &str)] = &[
        (&["vectorise"], SEVEN, 10, 2, 6, "PROGRAM FV"),
        (&["run77"], ten, 1, 1, 6, ""),
        (&["run77"], ten, 1, 3, 6, " 1"),
        (&["run77"], ten, 1, 4, 6, " 10"),
        (&["run77"], ten, 1, 5, 3, " 10\n"),
        (&["run77"], "      PRINT *, 7\n", 1, 0, 2, ""),
        (
            &["run77"],
            "      EQUIVALENCE (I, J)\n      END\n",
            1,
            0,
            2,
            "",
        ),
        (&["run77"], "", 1, 0, 2, ""),
        (&["vectorize"], SEVEN, 1, 0, 1, ""),
        (&[], SEVEN, 1, 0, 1, ""),
    ];
    for &(words, deck, piece, out_fails, status, out) in rows {
        let call = Call {
            words,
            deck,
            piece,
            deck_fails: 0,
            out_fails,
            notes_fails: 1,
        };
        assert!(rt;
            is_answered(rt.alloc(), &call, status, out.as_bytes(), "")?,
            "{status} at {out_fails}"
        );
    }
    Ok(())
}

const USAGE: &str =
    "fvec: usage: vectorise [--wide] | graph [--wide] | run77 [--wide] [--final] [--steps N] | \
    run90 [--wide] [--final] [--steps N] | make N\n";

// Words of each kind that are no command.
const NO_COMMANDS: &[&[&str]] = &[
    &[],
    &[""],
    &["graph", "--final"],
    &["run"],
    &["RUN77"],
    &["run77 "],
    &["--help"],
    &["--final", "run77"],
    &["run77", "run77"],
    &["run77", "deck.f"],
    &["run77", ""],
    &["run77", "--"],
    &["run77", "-h"],
    &["run77", "--help"],
    &["run77", "--Final"],
    &["run77", "--final="],
    &["run77", "--final", "--final"],
    &["run77", "--steps"],
    &["run77", "--steps="],
    &["run77", "--steps", ""],
    &["run77", "--steps", "--final"],
    &["run77", "--steps", "-1"],
    &["run77", "--steps", "+1"],
    &["run77", "--steps=1x"],
    &["run77", "--steps", "=3"],
    &["run77", "--steps:3"],
    &["run77", "--steps", "3", "4"],
    &["run77", "--steps", "3", "--steps=4"],
    &["run77", "--steps=3", "--final", "--steps=3"],
    &["run77", "--steps", "18446744073709551616"],
    &["run77", "--steps=99999999999999999999"],
    &["run77", "--steps", "000000000000000000007"],
    &["vectorise", "--final"],
    &["make"],
    &["make", "0"],
    &["make", "501"],
    &["make", "1", "2"],
];

// The source would fail at its first call, so it isn't called.
#[test]
fn other_words_read_nothing(rt: HostRuntime) -> Result<(), Fail> {
    for words in NO_COMMANDS {
        let call = Call {
            words,
            deck: SEVEN,
            piece: 1,
            deck_fails: 1,
            out_fails: 0,
            notes_fails: 0,
        };
        assert!(rt;
            is_answered(rt.alloc(), &call, 1, b"", USAGE)?,
            "at {words:?}"
        );
    }
    Ok(())
}
