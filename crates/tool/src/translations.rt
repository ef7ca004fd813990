//! `vectorise`: the translation of a deck.
ghost use Rattle.std.specs.Prelude.{◌≡◌, ◌≢◌, ◌≤◌, ◌++◌, true, length, Some, IfErr, IfOk, OnOk};
ghost use Rattle.std.specs.Option.{option_copied};
ghost use Rattle.tree.specs.Limits.{deck_bytes};
ghost use Rattle.tree.specs.View.{program_of};
ghost use Rattle.meaning.specs.Dialect.{fortran77};
ghost use Rattle.tree.specs.declared.width.Width.TheVariants.{Wide};
ghost use Rattle.meaning.specs.Profile77.{IsProgram77};
ghost use Rattle.tool.specs.declared.commands.commands.Command.TheVariants.{Vectorise};
ghost use Rattle.tool.specs.declared.commands.commands.Request.TheVariants.{OnDeck};
ghost use Rattle.meaning.specs.decks.Parts.{is_there, bytes_in};
ghost use Rattle.tool.specs.Translation.{data_part, IsTranslationText, IsTranslationOf, IsUntranslated};
ghost use Rattle.tool.specs.Endings.{is_silent};
ghost use Rattle.tool.specs.Works.{Works};

use crate::deck::unread;
use crate::report::Outcome;
use f77_read::read77;
use f90_print::print90;
use meaning::decks::{DataLine, source_and_input};
use std::alloc::Global;
use streams::{Sink, write_all};
use translation::{Translation, translate};
use tree::{Memory, Program77, Width};

// Adds the data line and the input, where there is one.
fn push_data(text: &mut Vec<u8>, input: Option<&[u8]>) -> Result<(), Memory>
    ensures { OnOk result
        (text.new.items ≡ text.old.items
        ++ data_part (is_there (option_copied input.entry)) (bytes_in (option_copied input.entry))) }
{
    match input {
        None => Ok(()),
        Some(input) => {
            text.extend_from_slice(b"!DATA\n".as_slice())?;
            text.extend_from_slice(input)?;
            Ok(())
        }
    }
}

// The listing of the program, the text of what it is translated to, and the input behind it.
fn translation(alloc: Global, program: Program77, input: Option<&[u8]>) -> Result<Vec<u8>, Memory>
    requires { IsProgram77 (fortran77 Wide) (program_of program) }
    ensures { IfOk result (λ text. IsTranslationText (program_of program)
        (is_there (option_copied input.entry)) (bytes_in (option_copied input.entry)) text.items) }
{
    let Translation { listing, program } = translate(alloc, program)?;
    let mut text = print90(alloc, &program, &listing)?;
    push_data(&mut text, input)?;
    Ok(text)
}

/// The translation of the deck, which has at most 2^24 bytes, or how the call ends without it.
pub(crate) fn translation_of(alloc: Global, width: Width, deck: &[u8]) -> Result<Vec<u8>, Outcome>
    requires { length deck.now ≤ deck_bytes }
    ensures translation { IfOk result (λ text. IsTranslationOf width deck.now text.items) }
    ensures untranslated { IfErr result (IsUntranslated width deck.now) }
{
    let (source, input) = source_and_input(deck, DataLine::Fortran77);
    let program = match read77(alloc, source, width) {
        Ok(program) => program,
        Err(refused) => return Err(unread(refused)),
    };
    match translation(alloc, program, input) {
        Ok(text) => Ok(text),
        Err(_) => Err(Outcome::OutOfMemory),
    }
}

/// Translates the deck, which has at most 2^24 bytes. Nothing is written before the whole text is there.
pub(crate) fn vectorise<K: Sink>(alloc: Global, width: Width, deck: &[u8], out: &mut K) -> Outcome
    requires { length deck.now ≤ deck_bytes }
    ensures works { Works (Vectorise width) deck.now (record {
      before = K.taken out.old;
      now = K.taken out.new;
      faults_before = K.faults out.old;
      faults_now = K.faults out.new;
    }) result }
    ensures untouched { is_silent (Some (OnDeck (Vectorise width))) result ≡ true → out.new ≡ out.old }
    ensures no_fault { result ≢ Outcome.WriteFault → K.faults out.new ≡ K.faults out.old }
    ensures later { K.faults out.old ≤ K.faults out.new }
{
    let text = match translation_of(alloc, width, deck) {
        Ok(text) => text,
        Err(outcome) => return outcome,
    };
    match write_all(out, text.as_slice()) {
        Ok(()) => Outcome::Done,
        Err(_) => Outcome::WriteFault,
    }
}
