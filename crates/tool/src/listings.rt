//! `graph`: the listing of a deck.
ghost use Rattle.std.specs.Prelude.{◌≡◌, ◌≢◌, ◌≤◌, true, length, Some};
ghost use Rattle.tree.specs.Limits.{deck_bytes};
ghost use Rattle.tool.specs.declared.commands.commands.Command.TheVariants.{Graph};
ghost use Rattle.tool.specs.declared.commands.commands.Request.TheVariants.{OnDeck};
ghost use Rattle.tool.specs.Endings.{is_silent};
ghost use Rattle.tool.specs.Works.{Works};

use crate::deck::unread;
use crate::report::Outcome;
use f77_read::read77;
use listing::programs::listing_text;
use meaning::decks::{DataLine, source_and_input};
use std::alloc::Global;
use streams::{Sink, write_all};
use tree::Width;

/// Lists the dependences of the deck, which has at most 2^24 bytes. Nothing is written before the whole text is there.
pub(crate) fn graph<K: Sink>(alloc: Global, width: Width, deck: &[u8], out: &mut K) -> Outcome
    requires { length deck.now ≤ deck_bytes }
    ensures works { Works (Graph width) deck.now (record {
      before = K.taken out.old;
      now = K.taken out.new;
      faults_before = K.faults out.old;
      faults_now = K.faults out.new;
    }) result }
    ensures untouched { is_silent (Some (OnDeck (Graph width))) result ≡ true → out.new ≡ out.old }
    ensures no_fault { result ≢ Outcome.WriteFault → K.faults out.new ≡ K.faults out.old }
    ensures later { K.faults out.old ≤ K.faults out.new }
{
    let (source, _) = source_and_input(deck, DataLine::Fortran77);
    let program = match read77(alloc, source, width) {
        Ok(program) => program,
        Err(refused) => return unread(refused),
    };
    let Ok(text) = listing_text(alloc, &program) else {
        return Outcome::OutOfMemory;
    };
    match write_all(out, text.as_slice()) {
        Ok(()) => Outcome::Done,
        Err(_) => Outcome::WriteFault,
    }
}
