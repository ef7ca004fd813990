//! The program `fvec`: the real words, stdin for the deck, stdout for the text and stderr for the notes.
//!
//! Proved: `main` joins these to the real words, stdin, stdout and stderr. The words are those of the system but the
//! first, the program's name (`words`). Where there are no words to be had its status is 7 or 8.
#![tactic(auto)]

ghost use Rattle.std.specs.Prelude.{◌≡◌, ◌⊎◌, IfErr, IfOk, drop};
ghost use Rattle.std.specs.Vec.Iter.{into_iter_items};

use std::alloc::{AllocError, Global};
use std::env;
use std::io::ErrorKind;
use std::process::ExitCode;
use streams::{BufferedSink, StdSink, StdSource};
use tool::run_tool;

/// There was no memory for the words.
const NO_MEMORY: u8 = 7;

/// The system refused the words for another cause.
const NO_WORDS: u8 = 8;

// The words after the program's name.
fn after_name(alloc: Global, args: env::Args) -> Result<Vec<String>, AllocError>
    ensures words { IfOk result (λ words. words.items ≡ drop 1 (into_iter_items args)) }
{
    args.skip(1).collect(alloc)
}

// The words, or the status that says why there are none.
fn words(rt: &HostRuntime) -> Result<Vec<String>, u8>
    ensures { IfErr result (λ status. (status ≡ 7) ⊎ (status ≡ 8)) }
{
    match env::args(rt) {
        Ok(args) => after_name(rt.alloc(), args).map_err(|_| NO_MEMORY),
        Err(error) if error.kind() == ErrorKind::OutOfMemory => Err(NO_MEMORY),
        Err(_) => Err(NO_WORDS),
    }
}

fn main(rt: HostRuntime) -> ExitCode {
    match words(&rt) {
        Ok(words) => {
            let mut deck = StdSource::new(rt.stdin());
            let mut out = BufferedSink::new(StdSink::new(rt.stdout()));
            let mut notes = StdSink::new(rt.stderr());
            ExitCode::from(run_tool(rt.alloc(), &words, &mut deck, &mut out, &mut notes))
        }
        Err(status) => ExitCode::from(status),
    }
}
