// The edge to the system: std's readers and writers. No clause can say which bytes a file or a terminal gives or takes.
ghost use Rattle.std.specs.Prelude.{◌≡◌, ◌≢◌, ◌<◌, [], None, Ok, length};
ghost use Rattle.std.proofs.Common.{rules};
ghost use Rattle.streams.specs.Causes.{shown_count, next_count};
ghost use Rattle.streams.specs.Standard.{took_of, gave_of, ReadsFront, WritesFront};
ghost use Rattle.streams.specs.Turns.{TakesCount, GivesCount};

use crate::{Gave, Sink, Source, Took, WriteFault};
use std::io;
use std::io::{Read, Write};
use std::marker::Model;

/// Takes from a reader. A read of zero bytes is the end, and an error, also an interrupt, is a counted failure.
#[derive(Debug, Drop)]
pub struct StdSource<R> {
    inner: R,
    faults: u64,
}

impl<R> Model for StdSource<R> {
    ghost use Rattle.streams.specs.Standard.{ReaderState};

    ghost Value = { ReaderState R };

    ghost view = { λ s. record { reader = s.inner; faults = s.faults } };
}

impl<R> StdSource<R> {
    pub fn new(inner: R) -> StdSource<R>
        ensures { result ≡ record { reader = inner; faults = 0 } }
    {
        StdSource { inner, faults: 0 }
    }
}

impl<R: Read> Source for StdSource<R> {
    ghost left = { λ _. None };

    ghost faults = { λ s. shown_count s.faults };

    ghost faults_fit = { Prim.search rules };

    fn take(&mut self, buffer: &mut [u8]) -> Took
        requires { 0 < length buffer.old }
        ensures reads { ReadsFront (R.remaining self.old.reader) result buffer.new (R.remaining self.new.reader) }
        ensures count { TakesCount result buffer.new }
        ensures failed { result ≡ Took.Failed → self.new.faults ≡ next_count self.old.faults }
        ensures not_failed { result ≢ Took.Failed → self.new.faults ≡ self.old.faults }
    {
        let took = took(self.inner.read(buffer));
        if took == Took::Failed {
            self.faults = self.faults.saturating_add(1);
        }
        took
    }
}

// What the answer of a read means.
fn took(answer: io::Result<usize>) -> Took
    ensures { result ≡ took_of answer }
{
    match answer {
        Ok(0) => Took::End,
        Ok(n) => Took::Bytes(n),
        Err(_) => Took::Failed,
    }
}

/// Gives to a writer, and never flushes it: each piece is a write of its own. A write of zero bytes and an error, also
/// an interrupt, are counted failures.
#[derive(Debug, Drop)]
pub struct StdSink<W> {
    inner: W,
    faults: u64,
}

impl<W> Model for StdSink<W> {
    ghost use Rattle.streams.specs.Standard.{WriterState};

    ghost Value = { WriterState W };

    ghost view = { λ s. record { writer = s.inner; faults = s.faults } };
}

impl<W> StdSink<W> {
    pub fn new(inner: W) -> StdSink<W>
        ensures { result ≡ record { writer = inner; faults = 0 } }
    {
        StdSink { inner, faults: 0 }
    }
}

impl<W: Write> Sink for StdSink<W> {
    ghost taken = { λ _. None };

    ghost held = { λ _. [] };

    ghost faults = { λ s. shown_count s.faults };

    ghost faults_fit = { Prim.search rules };

    fn give(&mut self, piece: &[u8]) -> Gave
        requires { 0 < length piece.now }
        ensures writes { WritesFront (W.contents self.old.writer) result piece.now (W.contents self.new.writer) }
        ensures count { GivesCount result piece.now }
        ensures failed { result ≡ Gave.Failed → self.new.faults ≡ next_count self.old.faults }
        ensures not_failed { result ≢ Gave.Failed → self.new.faults ≡ self.old.faults }
    {
        let gave = gave(self.inner.write(piece));
        if gave == Gave::Failed {
            self.faults = self.faults.saturating_add(1);
        }
        gave
    }

    fn send(&mut self) -> Result<(), WriteFault>
        ensures { (result ≡ Ok tt) × (self.new ≡ self.old) }
    {
        Ok(())
    }
}

// What the answer of a write means.
fn gave(answer: io::Result<usize>) -> Gave
    ensures { result ≡ gave_of answer }
{
    match answer {
        Ok(0) | Err(_) => Gave::Failed,
        Ok(n) => Gave::Bytes(n),
    }
}
