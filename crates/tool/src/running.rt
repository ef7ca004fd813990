//! `run77` and `run90`: the run of a deck.
ghost use Rattle.std.specs.Prelude.{◌≡◌, ◌≢◌, ◌≤◌, [], true, length, Some};
ghost use Rattle.tree.specs.Limits.{deck_bytes, deck_bytes90};
ghost use Rattle.tree.specs.Plain.{Program};
ghost use Rattle.meaning.specs.Run.{run as run_at};
ghost use Rattle.meaning.specs.Sequential.{ending};
ghost use Rattle.meaning.specs.Dialect.{fortran77, fortran90};
ghost use Rattle.meaning.specs.Profile77.{IsProgram77};
ghost use Rattle.meaning.specs.Profile90.{IsProgram90};
ghost use Rattle.tool.specs.declared.commands.commands.Command.TheVariants.{Run77, Run90};
ghost use Rattle.tool.specs.declared.commands.commands.Request.TheVariants.{OnDeck};
ghost use Rattle.run77.specs.Machine.{IsMachineOf as IsMachine77Of};
ghost use Rattle.run90.specs.Machine.{IsMachineOf as IsMachine90Of};
ghost use Rattle.tool.specs.Decks.{Reads};
ghost use Rattle.tool.specs.Running.{run_text, text_of_run};
ghost use Rattle.tool.specs.Endings.{is_silent};
ghost use Rattle.tool.specs.Works.{Comes, ComesOrStops, Works};

use crate::commands::Options;
use crate::deck::unread;
use crate::report::Outcome;
use f77_read::read77;
use f90_read::read90;
use meaning::End;
use meaning::decks::{DataLine, bytes_of, source_and_input};
use run77::Machine77;
use run90::Machine90;
use std::alloc::Global;
use streams::Sink;

// Runs the machine's program over the input, and writes its final store where that is asked for.
fn run_machine77<K: Sink>(
    machine: &mut Machine77,
    options: Options,
    input: &[u8],
    out: &mut K,
) -> Outcome
    ensures comes { (p : Program) → IsProgram77 (fortran77 options.width) p → IsMachine77Of options.width p machine.old
        → let run = run_at (fortran77 options.width) options.steps p input.now in Comes (ending run)
        (run_text options p run) (record {
          before = K.taken out.old;
          now = K.taken out.new;
          faults_before = K.faults out.old;
          faults_now = K.faults out.new;
        }) result }
    ensures untouched { is_silent (Some (OnDeck (Run77 options))) result ≡ true → out.new ≡ out.old }
    ensures textless { (p : Program) → IsProgram77 (fortran77 options.width) p
        → IsMachine77Of options.width p machine.old
        → run_text options p (run_at (fortran77 options.width) options.steps p input.now) ≡ [] → out.new ≡ out.old }
    ensures no_fault { result ≢ Outcome.WriteFault → K.faults out.new ≡ K.faults out.old }
    ensures later { K.faults out.old ≤ K.faults out.new }
{
    match machine.run(input, out, options.steps) {
        End::Done => {}
        End::Fault(fault, line) => return Outcome::Faulted(fault, line),
        End::StepLimit => return Outcome::StepLimit,
        End::WriteFault => return Outcome::WriteFault,
    }
    if !options.final_store {
        return Outcome::Done;
    }
    match machine.show(out) {
        Ok(()) => Outcome::Done,
        Err(_) => Outcome::WriteFault,
    }
}

// The same of a program of Fortran 90, whose machine may find no memory while it runs.
fn run_machine90<K: Sink>(
    machine: &mut Machine90,
    options: Options,
    input: &[u8],
    out: &mut K,
) -> Outcome
    ensures comes { (p : Program) → IsProgram90 p → IsMachine90Of options.width p machine.old
        → let run = run_at (fortran90 options.width) options.steps p input.now in ComesOrStops (ending run)
        (run_text options p run)
        (record {
          before = K.taken out.old;
          now = K.taken out.new;
          faults_before = K.faults out.old;
          faults_now = K.faults out.new;
        }) result }
    ensures untouched { is_silent (Some (OnDeck (Run90 options))) result ≡ true → out.new ≡ out.old }
    ensures textless { (p : Program) → IsProgram90 p → IsMachine90Of options.width p machine.old
        → run_text options p (run_at (fortran90 options.width) options.steps p input.now) ≡ [] → out.new ≡ out.old }
    ensures no_fault { result ≢ Outcome.WriteFault → K.faults out.new ≡ K.faults out.old }
    ensures later { K.faults out.old ≤ K.faults out.new }
{
    let Ok(end) = machine.run(input, out, options.steps) else {
        return Outcome::OutOfMemory;
    };
    match end {
        End::Done => {}
        End::Fault(kind, line) => return Outcome::Faulted(kind, line),
        End::StepLimit => return Outcome::StepLimit,
        End::WriteFault => return Outcome::WriteFault,
    }
    if !options.final_store {
        return Outcome::Done;
    }
    match machine.show(out) {
        Ok(()) => Outcome::Done,
        Err(_) => Outcome::WriteFault,
    }
}

/// Runs the deck of FORTRAN 77, which has at most 2^24 bytes. The output goes out as it comes.
pub(crate) fn run77<K: Sink>(alloc: Global, options: Options, deck: &[u8], out: &mut K) -> Outcome
    requires { length deck.now ≤ deck_bytes }
    ensures works { Works (Run77 options) deck.now (record {
      before = K.taken out.old;
      now = K.taken out.new;
      faults_before = K.faults out.old;
      faults_now = K.faults out.new;
    }) result }
    ensures untouched { is_silent (Some (OnDeck (Run77 options))) result ≡ true → out.new ≡ out.old }
    ensures textless { (p : Program) → Reads (Run77 options) deck.now p → text_of_run (Run77 options) deck.now p ≡ []
        → out.new ≡ out.old }
    ensures no_fault { result ≢ Outcome.WriteFault → K.faults out.new ≡ K.faults out.old }
    ensures later { K.faults out.old ≤ K.faults out.new }
{
    let (source, input) = source_and_input(deck, DataLine::Fortran77);
    let program = match read77(alloc, source, options.width) {
        Ok(program) => program,
        Err(refused) => return unread(refused),
    };
    match Machine77::new(alloc, program, options.width) {
        Ok(mut machine) => run_machine77(&mut machine, options, bytes_of(input), out),
        Err(_) => Outcome::OutOfMemory,
    }
}

/// Runs the deck of Fortran 90, which has at most 2^28 bytes. The output goes out as it comes; where the machine finds
/// no memory, a front of it may have gone out.
pub(crate) fn run90<K: Sink>(alloc: Global, options: Options, deck: &[u8], out: &mut K) -> Outcome
    requires { length deck.now ≤ deck_bytes90 }
    ensures works { Works (Run90 options) deck.now (record {
      before = K.taken out.old;
      now = K.taken out.new;
      faults_before = K.faults out.old;
      faults_now = K.faults out.new;
    }) result }
    ensures untouched { is_silent (Some (OnDeck (Run90 options))) result ≡ true → out.new ≡ out.old }
    ensures textless { (p : Program) → Reads (Run90 options) deck.now p → text_of_run (Run90 options) deck.now p ≡ []
        → out.new ≡ out.old }
    ensures no_fault { result ≢ Outcome.WriteFault → K.faults out.new ≡ K.faults out.old }
    ensures later { K.faults out.old ≤ K.faults out.new }
{
    let (source, input) = source_and_input(deck, DataLine::Fortran90);
    let program = match read90(alloc, source) {
        Ok(program) => program,
        Err(refused) => return unread(refused),
    };
    match Machine90::new(alloc, program, options.width) {
        Ok(mut machine) => run_machine90(&mut machine, options, bytes_of(input), out),
        Err(_) => Outcome::OutOfMemory,
    }
}
