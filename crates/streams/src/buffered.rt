// A sink with a buffer before it.
ghost use Rattle.std.specs.Prelude.{◌≡◌, ◌++◌, ◌≤◌, [], Ok, OnOk, OnErr};
ghost use Rattle.streams.specs.Buffers.{all_taken};
ghost use Rattle.streams.specs.Causes.{Rose};

use crate::transfer::give_front;
use crate::{Gave, Sink, WriteFault};
use arrayvec::ArrayVec;
use std::marker::Model;

// How many bytes are held back at most.
const ROOM: usize = 4096;

/// Gathers what it is given, without memory, and gives it to another sink when 4096 bytes are full, and when they are
/// to be sent. What the other sink didn't take stays here.
#[derive(Drop)]
pub struct BufferedSink<K> {
    inner: K,
    bytes: ArrayVec<u8, ROOM>,
}

impl<K> Model for BufferedSink<K> {
    ghost use Rattle.streams.specs.Buffers.{BufferState};

    ghost Value = { BufferState K };

    ghost view = { λ s. record { sink = s.inner; held = s.bytes.items } };
}

impl<K> BufferedSink<K> {
    pub fn new(inner: K) -> BufferedSink<K>
        ensures { result ≡ record { sink = inner; held = [] } }
    {
        BufferedSink {
            inner,
            bytes: ArrayVec::new(),
        }
    }

    /// The sink behind the buffer.
    pub fn inner(&self) -> &K
        ensures { result.now ≡ self.now.sink }
    {
        &self.inner
    }
}

impl<K: Sink> BufferedSink<K> {
    // Gives all that is held here.
    fn empty(&mut self) -> Result<(), WriteFault>
        ensures taken { all_taken K.taken self.new ≡ all_taken K.taken self.old }
        ensures held { OnOk result (self.new.held ≡ []) }
        ensures untouched { self.old.held ≡ [] → (result ≡ Ok tt) × (self.new ≡ self.old) }
        ensures later { K.faults self.old.sink ≤ K.faults self.new.sink }
        ensures fault { OnErr result (Rose (K.faults self.old.sink) (K.faults self.new.sink)) }
        ensures no_fault { OnOk result (K.faults self.new.sink ≡ K.faults self.old.sink) }
    {
        let given = give_front(&mut self.inner, self.bytes.as_slice());
        if given < self.bytes.len() {
            let mut rest = ArrayVec::new();
            rest.try_extend_from_slice(&self.bytes.as_slice()[given..])
                .unwrap();
            self.bytes = rest;
            return Err(WriteFault);
        }
        self.bytes.clear();
        Ok(())
    }
}

impl<K: Sink> Sink for BufferedSink<K> {
    ghost taken = { all_taken K.taken };

    ghost held = { λ s. K.held s.sink ++ s.held };

    ghost faults = { λ s. K.faults s.sink };

    ghost faults_fit = { λ s. K.faults_fit s.sink };

    fn give(&mut self, piece: &[u8]) -> Gave {
        if self.bytes.is_full() && self.empty().is_err() {
            return Gave::Failed;
        }
        let n = piece.len().min(self.bytes.remaining_capacity());
        self.bytes.try_extend_from_slice(&piece[..n]).unwrap();
        Gave::Bytes(n)
    }

    fn send(&mut self) -> Result<(), WriteFault> {
        self.empty()?;
        self.inner.send()
    }
}
