//! `make`: a deck is made, and a summary of its translation is given.
ghost use Rattle.std.specs.Prelude.{◌≡◌, ◌≢◌, ◌≤◌, [], false, true, List, ℕ, Some};
ghost use Rattle.generator.specs.Decks.{most_nests, deck_of};
ghost use Rattle.tool.specs.declared.commands.commands.Request.TheVariants.{Make};
ghost use Rattle.tool.specs.Counts.{counts_text};
ghost use Rattle.tool.specs.Endings.{gives_all, is_silent};
ghost use Rattle.tool.specs.Making.{IsTranslated, Summarises};
ghost use Rattle.tree.specs.declared.width.Width.TheVariants.{Plain};

use crate::commands::{Command, Options};
use crate::counts::counts;
use crate::deck::most_bytes;
use crate::passed_on;
use crate::report::Outcome;
use crate::running::run90;
use crate::translations::translation_of;
use generator::generated;
use std::alloc::Global;
use streams::{Sink, write_all};
use tree::Width;

// Gives the counts of a translation, and then the lines of its run. Of a translation with more bytes or names than the
// machine takes it says that there is no memory.
fn summarise<K: Sink>(alloc: Global, counts: &[u8], translation: &[u8], out: &mut K) -> Outcome
    ensures summarises { (deck : List ℕ) → IsTranslated Plain deck translation.now
        → counts.now ≡ counts_text translation.now
        → Summarises deck (K.taken out.old) (K.taken out.new) (K.faults out.old) (K.faults out.new) result }
    ensures spoken { (nests : ℕ) → is_silent (Some (Make nests)) result ≡ false }
    ensures no_fault { result ≢ Outcome.WriteFault → K.faults out.new ≡ K.faults out.old }
    ensures later { K.faults out.old ≤ K.faults out.new }
{
    let options = Options {
        width: Width::Plain,
        final_store: false,
        steps: None,
    };
    if translation.len() > most_bytes(Command::Run90(options)) {
        return Outcome::OutOfMemory;
    }
    let Ok(()) = write_all(out, counts) else {
        return Outcome::WriteFault;
    };
    match run90(alloc, options, translation, out) {
        Outcome::Refused(_) => Outcome::OutOfMemory,
        outcome => outcome,
    }
}

/// Makes a deck of so many nests, and gives the summary of its translation.
pub(crate) fn make<K: Sink>(alloc: Global, nests: u32, out: &mut K) -> Outcome
    requires { nests ≤ most_nests }
    ensures summarises { Summarises (deck_of nests) (K.taken out.old) (K.taken out.new)
        (K.faults out.old) (K.faults out.new) result }
    ensures untouched { is_silent (Some (Make nests)) result ≡ true → out.new ≡ out.old }
    ensures passed { gives_all result ≡ true → K.held out.new ≡ [] }
    ensures no_fault { result ≢ Outcome.WriteFault → K.faults out.new ≡ K.faults out.old }
    ensures later { K.faults out.old ≤ K.faults out.new }
{
    let Ok(deck) = generated(alloc, nests) else {
        return Outcome::OutOfMemory;
    };
    let translation = match translation_of(alloc, Width::Plain, deck.as_slice()) {
        Ok(translation) => translation,
        Err(outcome) => return outcome,
    };
    let Ok(counts) = counts(alloc, translation.as_slice()) else {
        return Outcome::OutOfMemory;
    };
    let outcome = summarise(alloc, counts.as_slice(), translation.as_slice(), out);
    passed_on(outcome, out)
}
