//! The bytes of a deck.
ghost use Rattle.std.specs.Prelude.{◌≡◌, ◌≤◌, length, IfOk, IfErr, OnOk, IsErrOf};
ghost use Rattle.std.specs.Io.KnownBytes.{IsAtEnd};
ghost use Rattle.streams.specs.Streams.{Takes};
ghost use Rattle.tool.specs.Decks.{most_bytes};
ghost use Rattle.tool.specs.Unread.{IsUnread, outcome_for};

use crate::commands::Command;
use crate::report::Outcome;
use std::alloc::Global;
use streams::{ReadEnd, Source, read_all};
use tree::{Cause, Refused};

const DECK_BYTES_77: usize = 1 << 24;

const DECK_BYTES_90: usize = 1 << 28;

/// How many bytes a deck of the command may have.
pub(crate) fn most_bytes(command: Command) -> usize
    ensures { result ≡ most_bytes command }
{
    match command {
        Command::Vectorise(_) => DECK_BYTES_77,
        Command::Graph(_) => DECK_BYTES_77,
        Command::Run77(_) => DECK_BYTES_77,
        Command::Run90(_) => DECK_BYTES_90,
    }
}

/// All bytes of the deck, of which there may be so many, or how the call ends without them.
pub(crate) fn read_deck<S: Source>(
    alloc: Global,
    deck: &mut S,
    most: usize,
) -> Result<Vec<u8>, Outcome>
    ensures whole { IfOk result (λ bytes. Takes (S.left deck.old) bytes.items (S.left deck.new)) }
    ensures end { OnOk result (IsAtEnd (S.left deck.new)) }
    ensures within { IfOk result (λ bytes. length bytes.items ≤ most) }
    ensures unread { IfErr result
        (IsUnread most (S.left deck.old) (S.left deck.new) (S.faults deck.old) (S.faults deck.new)) }
    ensures no_fault { (IsErrOf result Outcome.ReadFault → ⊥) → S.faults deck.new ≡ S.faults deck.old }
    ensures later { S.faults deck.old ≤ S.faults deck.new }
{
    match read_all(alloc, deck, most) {
        Ok(bytes) => Ok(bytes),
        Err(ReadEnd::Fault) => Err(Outcome::ReadFault),
        Err(ReadEnd::TooLong) => Err(Outcome::Refused(Cause::TooLong.at(0))),
        Err(ReadEnd::Memory) => Err(Outcome::OutOfMemory),
    }
}

/// How the call ends where the deck isn't read.
pub(crate) fn unread(refused: Refused) -> Outcome
    ensures { result ≡ outcome_for refused }
{
    match refused {
        Refused::Refusal(refusal) => Outcome::Refused(refusal),
        Refused::Memory => Outcome::OutOfMemory,
    }
}
