//! The outside: sources and sinks of bytes, over memory and over std's readers and writers.
//!
//! A call takes or gives some bytes, and may fail. Each source and sink counts its failures, so that a
//! contract can say that an answer came only because of one.
//!
//! Proved (`read_all`, `write_all`, and the laws of `Source` and `Sink`): all bytes up to the end or the limit, all
//! bytes given or a front of them, and a count of faults that rises with each failure; where nothing is written the
//! sink is untouched (`untouched`), and without a failure the count stays (`no_fault`); proved for each source and
//! sink, those over memory, those over std, and a sink with a buffer before it (`BufferedSink`). What is passed on
//! (`Sink::send`) was taken before, nothing is held back where that didn't fail, and what another sink didn't take
//! stays in the buffer. When the buffer gives what it holds, but for `send`, is tested.
//!
//! **A count of faults stands still at 2^64 - 1.** "It rose" is said as "at least the next count", which also holds for
//! a failure there.
//!
//! **An object's count changes at a failure alone.** So an answer other than a failure says that nothing failed, and a
//! `write_all` that tries again after a failure doesn't meet its contract.
#![tactic(auto)]

mod buffered;
mod errors;
mod memory;
mod schedule;
mod sink;
mod source;
mod standard;
mod transfer;

pub use buffered::BufferedSink;
pub use errors::{Memory, ReadEnd, WriteFault};
pub use memory::{MemSink, MemSource, NullSink, PlainSource};
pub use sink::{Gave, Sink};
pub use source::{Source, Took};
pub use standard::{StdSink, StdSource};
pub use transfer::{read_all, write_all};
