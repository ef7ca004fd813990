// All bytes of a source, and a whole text to a sink.
ghost use Rattle.std.specs.Prelude.{◌≡◌, [], ◌-◌, ◌^◌, ◌≤◌, ◌<◌, length, take, IfOk, OnOk, OnErr, IsErrOf};
ghost use Rattle.std.specs.Io.KnownBytes.{IsAtEnd};
ghost use Rattle.streams.specs.Causes.{Rose};
ghost use Rattle.streams.specs.Streams.{Takes, TakesMoreThan, Gives, GivesPart};
ghost use Rattle.streams.specs.Turns.{TakesAtMost};

use crate::{Gave, ReadEnd, Sink, Source, Took, WriteFault};
use std::alloc::Global;

// How many bytes a call takes at most.
const PIECE: usize = 4096;

/// All bytes up to the source's end, of which there may be at most `limit`.
pub fn read_all<S: Source>(alloc: Global, from: &mut S, limit: usize) -> Result<Vec<u8>, ReadEnd>
    // Ok has all bytes up to the end.
    ensures ok { IfOk result (λ bytes. Takes (S.left from.old) bytes.items (S.left from.new)) }
    ensures end { OnOk result (IsAtEnd (S.left from.new)) }
    ensures within { IfOk result (λ bytes. length bytes.items ≤ limit) }

    // It is too long exactly where more than the limit was taken.
    ensures too_long { IsErrOf result ReadEnd.TooLong → TakesMoreThan limit (S.left from.old) (S.left from.new) }
    ensures not_too_long { (IsErrOf result ReadEnd.TooLong → ⊥)
        → TakesAtMost limit (S.left from.old) (S.left from.new) }

    // A fault was counted, and nothing else is.
    ensures fault { IsErrOf result ReadEnd.Fault → Rose (S.faults from.old) (S.faults from.new) }
    ensures no_fault { (IsErrOf result ReadEnd.Fault → ⊥) → S.faults from.new ≡ S.faults from.old }
    ensures later { S.faults from.old ≤ S.faults from.new }
    ensures counted { S.faults from.new ≤ 2 ^ 64 - 1 }
{
    let mut bytes = Vec::new(alloc);
    let mut buffer = [0; PIECE];
    loop {
        match from.take(&mut buffer) {
            Took::Bytes(n) => {
                if n > limit - bytes.len() {
                    return Err(ReadEnd::TooLong);
                }
                bytes.extend_from_slice(&buffer[..n])?;
            }
            Took::End => return Ok(bytes),
            Took::Failed => return Err(ReadEnd::Fault),
        }
    }
}

// Gives the front of the text, all of it unless the sink fails, and answers how many bytes the sink took.
pub(crate) fn give_front<K: Sink>(to: &mut K, text: &[u8]) -> usize
    ensures front { Gives (K.taken to.old) (take result text.now) (K.taken to.new) }
    ensures within { result ≤ length text.now }

    // Without a text there is no call.
    ensures untouched { text.now ≡ [] → to.new ≡ to.old }

    // A fault was counted where the sink didn't take all, and nothing else is.
    ensures fault { result < length text.now → Rose (K.faults to.old) (K.faults to.new) }
    ensures no_fault { length text.now ≤ result → K.faults to.new ≡ K.faults to.old }
    ensures later { K.faults to.old ≤ K.faults to.new }
    ensures counted { K.faults to.new ≤ 2 ^ 64 - 1 }
{
    let mut given = 0;
    while given < text.len() {
        match to.give(&text[given..]) {
            Gave::Bytes(n) => given += n,
            Gave::Failed => return given,
        }
    }
    given
}

/// Gives the whole text, or the front of it that the sink took before it failed.
pub fn write_all<K: Sink>(to: &mut K, text: &[u8]) -> Result<(), WriteFault>
    ensures ok { OnOk result (Gives (K.taken to.old) text.now (K.taken to.new)) }
    ensures part { OnErr result (GivesPart (K.taken to.old) text.now (K.taken to.new)) }

    // Without a text there is no call.
    ensures untouched { text.now ≡ [] → to.new ≡ to.old }

    // A fault was counted, and nothing else is.
    ensures fault { OnErr result (Rose (K.faults to.old) (K.faults to.new)) }
    ensures no_fault { OnOk result (K.faults to.new ≡ K.faults to.old) }
    ensures later { K.faults to.old ≤ K.faults to.new }
    ensures counted { K.faults to.new ≤ 2 ^ 64 - 1 }
{
    if give_front(to, text) < text.len() {
        return Err(WriteFault);
    }
    Ok(())
}
