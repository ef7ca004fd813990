// Sources and sinks over memory.
ghost use Rattle.std.specs.Prelude.{◌≡◌, ◌≢◌, ◌-◌, ◌<◌, ◌↔◌, ◌⊎◌, [], Some, None, Ok, length, min, IfOk, Contains};
ghost use Rattle.std.proofs.Common.{rules};
ghost use Rattle.streams.specs.Causes.{shown_count, next_count};
ghost use Rattle.streams.specs.Turns.{TakesFront, TakesCount, TakesExactly, GivesFront, GivesCount, GivesExactly};

use crate::schedule::Schedule;
use crate::{Gave, Memory, Sink, Source, Took, WriteFault};
use std::alloc::Global;
use std::marker::Model;

/// Gives its bytes, as many as the buffer holds, and never fails.
#[derive(Debug, Drop)]
pub struct PlainSource {
    bytes: Vec<u8>,
    at: usize,
}

impl Model for PlainSource {
    ghost use Rattle.std.specs.Prelude.{ℕ, List, ◌≤◌, drop, vec_len};

    // The bytes left.
    ghost Value = { List ℕ };

    ghost view = { λ s. drop s.at s.bytes.items };

    ghost invariant = { λ s. s.at ≤ vec_len s.bytes };
}

impl PlainSource {
    pub fn new(bytes: Vec<u8>) -> PlainSource
        ensures { result ≡ bytes.items }
    {
        PlainSource { bytes, at: 0 }
    }
}

impl Source for PlainSource {
    ghost left = { λ s. Some s };

    ghost faults = { λ _. 0 };

    ghost faults_fit = { Prim.search rules };

    fn take(&mut self, buffer: &mut [u8]) -> Took
        requires { 0 < length buffer.old }
        ensures bytes { TakesFront (Some self.old) result buffer.new (Some self.new) }
        ensures count { TakesCount result buffer.new }
        ensures size { TakesExactly (min (length buffer.old) (length self.old)) result }
        ensures never { result ≢ Took.Failed }
    {
        let left = &self.bytes[self.at..];
        let n = buffer.len().min(left.len());
        if n == 0 {
            return Took::End;
        }
        buffer[..n].copy_from_slice(&left[..n]);
        self.at += n;
        Took::Bytes(n)
    }
}

/// Gives its bytes in pieces, and fails at chosen calls.
#[derive(Debug, Drop)]
pub struct MemSource {
    bytes: PlainSource,
    piece: usize,
    schedule: Schedule,
}

impl Model for MemSource {
    ghost use Rattle.std.specs.Prelude.{◌<◌};
    ghost use Rattle.streams.specs.Memory.{SourceState};

    ghost Value = { SourceState };

    ghost view = { λ s. record {
      left = s.bytes;
      piece = s.piece;
      fails = s.schedule.fails.items;
      calls = s.schedule.calls;
      faults = s.schedule.faults;
    } };

    ghost invariant = { λ s. 0 < s.piece };
}

impl MemSource {
    /// A call takes at most `piece` bytes. The calls whose numbers, from 1, are in `fails` fail.
    pub fn new(bytes: Vec<u8>, piece: usize, fails: Vec<u64>) -> MemSource
        requires { 0 < piece }
        ensures { result ≡ record { left = bytes.items; piece = piece; fails = fails.items; calls = 0; faults = 0 } }
    {
        MemSource {
            bytes: PlainSource::new(bytes),
            piece,
            schedule: Schedule::new(fails),
        }
    }
}

impl Source for MemSource {
    ghost left = { λ s. Some s.left };

    ghost faults = { λ s. shown_count s.faults };

    ghost faults_fit = { Prim.search rules };

    fn take(&mut self, buffer: &mut [u8]) -> Took
        requires { 0 < length buffer.old }
        ensures bytes { TakesFront (Some self.old.left) result buffer.new (Some self.new.left) }
        ensures count { TakesCount result buffer.new }
        ensures size { TakesExactly (min self.old.piece (min (length buffer.old) (length self.old.left))) result }

        // It fails at the listed calls and at no other, and the count changes there alone.
        ensures listed { result ≡ Took.Failed ↔ Contains self.old.fails self.new.calls }
        ensures failed { result ≡ Took.Failed → self.new.faults ≡ next_count self.old.faults }
        ensures not_failed { result ≢ Took.Failed → self.new.faults ≡ self.old.faults }
        ensures calls { self.new.calls ≡ next_count self.old.calls }
        ensures same { (self.new.piece ≡ self.old.piece) × (self.new.fails ≡ self.old.fails) }
    {
        if self.schedule.begin() {
            self.schedule.fail();
            return Took::Failed;
        }
        let size = self.piece.min(buffer.len());
        self.bytes.take(&mut buffer[..size])
    }
}

/// Keeps what it is given, in room that it reserves first, and fails at chosen calls.
#[derive(Debug, Drop)]
pub struct MemSink {
    bytes: Vec<u8>,
    room: usize,
    piece: usize,
    schedule: Schedule,
}

impl Model for MemSink {
    ghost use Rattle.std.specs.Prelude.{◌<◌, ◌≤◌, vec_len, vec_capacity};
    ghost use Rattle.streams.specs.Memory.{SinkState};

    ghost Value = { SinkState };

    ghost view = { λ s. record {
      taken = s.bytes.items;
      room = s.room;
      piece = s.piece;
      fails = s.schedule.fails.items;
      calls = s.schedule.calls;
      faults = s.schedule.faults;
    } };

    ghost invariant = { λ s. (0 < s.piece) × (vec_len s.bytes ≤ s.room) × (s.room ≤ vec_capacity s.bytes) };
}

impl MemSink {
    /// A call gives at most `piece` bytes, and all calls together `room`. The calls whose numbers, from 1,
    /// are in `fails` fail, and so do those that find no room left.
    pub fn new(alloc: Global, room: usize, piece: usize, fails: Vec<u64>) -> Result<MemSink, Memory>
        requires { 0 < piece }
        ensures { IfOk result (λ sink.
            sink ≡ record { taken = []; room = room; piece = piece; fails = fails.items; calls = 0; faults = 0 }) }
    {
        Ok(MemSink {
            bytes: Vec::with_capacity(alloc, room)?,
            room,
            piece,
            schedule: Schedule::new(fails),
        })
    }

    /// What was taken.
    pub fn bytes(&self) -> &[u8]
        ensures { result.now ≡ self.now.taken }
    {
        self.bytes.as_slice()
    }
}

impl Sink for MemSink {
    ghost taken = { λ s. Some s.taken };

    ghost held = { λ _. [] };

    ghost faults = { λ s. shown_count s.faults };

    ghost faults_fit = { Prim.search rules };

    fn give(&mut self, piece: &[u8]) -> Gave
        requires { 0 < length piece.now }
        ensures bytes { GivesFront (Some self.old.taken) result piece.now (Some self.new.taken) }
        ensures count { GivesCount result piece.now }
        ensures size { GivesExactly
            (min self.old.piece (min (self.old.room - length self.old.taken) (length piece.now)))
            result }

        // It fails at the listed calls and where no room is left, and at no other, and the count changes there alone.
        ensures listed { result ≡ Gave.Failed ↔ (Contains self.old.fails self.new.calls
            ⊎ (self.old.room ≡ length self.old.taken)) }
        ensures failed { result ≡ Gave.Failed → self.new.faults ≡ next_count self.old.faults }
        ensures not_failed { result ≢ Gave.Failed → self.new.faults ≡ self.old.faults }
        ensures calls { self.new.calls ≡ next_count self.old.calls }
        ensures same { (self.new.room ≡ self.old.room) × (self.new.piece ≡ self.old.piece)
            × (self.new.fails ≡ self.old.fails) }
    {
        let listed = self.schedule.begin();
        let room_left = self.room - self.bytes.len();
        if listed || room_left == 0 {
            self.schedule.fail();
            return Gave::Failed;
        }
        let n = self.piece.min(room_left).min(piece.len());
        self.bytes.extend_from_slice(&piece[..n]).unwrap();
        Gave::Bytes(n)
    }

    fn send(&mut self) -> Result<(), WriteFault>
        ensures { (result ≡ Ok tt) × (self.new ≡ self.old) }
    {
        Ok(())
    }
}

/// Takes everything, tells no bytes and never fails.
#[derive(Clone, Copy, Debug, PartialEq, Eq)]
pub struct NullSink;

impl Sink for NullSink {
    ghost taken = { λ _. None };

    ghost held = { λ _. [] };

    ghost faults = { λ _. 0 };

    ghost faults_fit = { Prim.search rules };

    fn give(&mut self, piece: &[u8]) -> Gave
        requires { 0 < length piece.now }
        ensures { result ≡ Gave.Bytes (length piece.now) }
    {
        Gave::Bytes(piece.len())
    }

    fn send(&mut self) -> Result<(), WriteFault>
        ensures { (result ≡ Ok tt) × (self.new ≡ self.old) }
    {
        Ok(())
    }
}
