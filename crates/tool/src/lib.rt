//! The top call: words, the deck, the text and the notes.
//!
//! Proved (`run_tool`, the call that the program makes): `docs/PROOFS.md` says what is proved of it, clause by clause.
//!
//! **The translation's text is made whole before any of it is written.** So is the input behind it; want of memory
//! leaves nothing written.
//!
//! **The whole text is made before any of it is written.** A refusal can't leave a front of a text in the output, and a
//! fault of the sink leaves a front of the one text. It costs memory for the text, which the limit of 2^20 bytes of
//! source bounds.
//!
//! **At a refusal for a limit of bytes the deck may be unread.** Where more than 2^24 bytes come the rest isn't read,
//! since such a deck may have no end. All other refusals come after the end was seen.
//!
//! **A command's work is stated over the bytes of the deck, the call's over the objects.** `Works` says what a command
//! does with bytes that were read; `Ends` says what a call did with source, sink and counts. So reading the deck is
//! proved once for all commands, and a new command brings its cases of `Reads`, `IsRefused`, `ending_of` and `HasText`,
//! and the proof that its body `Works`.
//!
//! **What a command may write is a relation.** A translation and the text of a run are one text; `graph` writes the
//! text of some listing of the program (`HasText`).
//!
//! **That a deck is read as one program, and not refused, comes from the reader's answer.** `read77` says that a source
//! that is read, or refused, has no other answer; `IsReadAs` and `IsRefusedFor` carry this to the clauses. So the top
//! call doesn't rest on the law that no source is both (`f77_read::one_answer`), which stands at the edge.
//!
//! **Clauses of the top call stand in groups.** What is asked of the words, what an object tells, and that it didn't
//! fail have a name each (`Asks`, `IfTold`, `HasNotFailed`).
//!
//! **The counts of `make` are read from the text.** They are counts of lines, so whoever has the text can count again;
//! which marks are those of array statements follows from the numbers of loops that the listing has. A mark is looked
//! up from the first line on, which is quadratic in the nests, of which there are at most 500.
#![tactic(auto)]

ghost use Rattle.std.specs.Prelude.{◌≡◌, ◌≢◌, ◌≤◌, ◌↔◌, ◌⊎◌, [], ◌∷◌, List, length, None, Some, true, false, ℕ};
ghost use Rattle.std.specs.Io.KnownBytes.{IsAtEnd};
ghost use Rattle.tree.specs.Plain.{Program};
ghost use Rattle.tree.specs.declared.ops.Fault.{Fault as Kind};
ghost use Rattle.tree.specs.declared.refusals.Refusal.{Refusal};
ghost use Rattle.tree.specs.declared.width.Width.{Width};
ghost use Rattle.tree.specs.declared.width.Width.TheVariants.{Plain};
ghost use Rattle.generator.specs.Decks.{deck_of};
ghost use Rattle.streams.specs.Causes.{Rose};
ghost use Rattle.streams.specs.Streams.{Gives, GivesPart};
ghost use Rattle.meaning.specs.Sequential.{ending};
ghost use Rattle.meaning.specs.declared.End.TheVariants.{Done, Fault, StepLimit};
ghost use Rattle.tool.specs.commands.Command.{texts, request_of};
ghost use Rattle.tool.specs.declared.commands.commands.Command.{Command as Asked};
ghost use Rattle.tool.specs.declared.commands.commands.Command.TheVariants.{Vectorise, Graph};
ghost use Rattle.tool.specs.declared.commands.commands.Request.TheVariants.{OnDeck, Make};
ghost use Rattle.tool.specs.declared.report.outcome.Outcome.TheVariants.{ReadFault, WriteFault};
ghost use Rattle.tool.specs.Answers.{IsOneOf, NoteFor};
ghost use Rattle.tool.specs.Asked.{Asks, AsksToMake, HasNotFailed, IfTold};
ghost use Rattle.tool.specs.Decks.{Reads, IsRefused, IsRefusedFor, most_bytes};
ghost use Rattle.tool.specs.Endings.{Ends, Ended, IsReadOrPassed, IsRefusedAfter, ending_of, is_silent};
ghost use Rattle.tool.specs.Endings.{writes_early, gives_all};
ghost use Rattle.tool.specs.Given.{GivesWhere, GivesPartWhere};
ghost use Rattle.tool.specs.Listings.{IsListedBeside, IsListingOf};
ghost use Rattle.tool.specs.Making.{IsTranslated, IsSummary, IsSummaryTo, IsFaultedSummary, GivesAtMostSummary};
ghost use Rattle.tool.specs.Making.{RunsWell, RunsIntoFault};
ghost use Rattle.tool.specs.Marked.{IsMarked};
ghost use Rattle.tool.specs.Printed.{IsPrinted};
ghost use Rattle.tool.specs.Running.{IsRun, GivesRun, GivesFaultedRun, GivesRunPart, GivesAtMostPart};
ghost use Rattle.tool.specs.Running.{IsExceeded, run_of, text_of_run};
ghost use Rattle.tool.specs.Translates.{Translates};
ghost use Rattle.tool.specs.Vectorises.{VectorisesDeck};
ghost use Rattle.tool.specs.Works.{Works};

pub mod commands;
mod counts;
mod deck;
mod listings;
mod making;
mod marks;
pub mod report;
mod running;
mod translations;

use crate::commands::{Command, Request, request};
use crate::report::{Outcome, note, status};
use deck::{most_bytes, read_deck};
use listings::graph;
use making::make;
use running::{run77, run90};
use std::alloc::Global;
use streams::{Sink, Source};
use translations::vectorise;

// Does what the command asks for with the bytes of the deck.
fn run_on_bytes<K: Sink>(alloc: Global, command: Command, deck: &[u8], out: &mut K) -> Outcome
    requires { length deck.now ≤ most_bytes command }
    ensures works { Works command deck.now (record {
      before = K.taken out.old;
      now = K.taken out.new;
      faults_before = K.faults out.old;
      faults_now = K.faults out.new;
    }) result }
    ensures untouched { is_silent (Some (OnDeck command)) result ≡ true → out.new ≡ out.old }
    ensures textless { IsRun command → (p : Program) → Reads command deck.now p → text_of_run command deck.now p ≡ []
        → out.new ≡ out.old }
    ensures no_fault { result ≢ WriteFault → K.faults out.new ≡ K.faults out.old }
    ensures later { K.faults out.old ≤ K.faults out.new }
{
    match command {
        Command::Vectorise(width) => vectorise(alloc, width, deck, out),
        Command::Graph(width) => graph(alloc, width, deck, out),
        Command::Run77(options) => run77(alloc, options, deck, out),
        Command::Run90(options) => run90(alloc, options, deck, out),
    }
}

// Passes on what `out` holds back of a text that was given whole. Where that fails, so does the call.
fn passed_on<K: Sink>(outcome: Outcome, out: &mut K) -> Outcome
    ensures taken { K.taken out.new ≡ K.taken out.old }
    ensures outcome { (result ≡ outcome) ⊎ ((result ≡ WriteFault) × (gives_all outcome ≡ true)) }
    ensures passed { gives_all result ≡ true → K.held out.new ≡ [] }
    ensures unasked { gives_all outcome ≡ false → (result ≡ outcome) × (out.new ≡ out.old) }
    ensures untouched { K.held out.old ≡ [] → (result ≡ outcome) × (out.new ≡ out.old) }
    ensures fault { gives_all outcome ≡ true → result ≡ WriteFault → Rose (K.faults out.old) (K.faults out.new) }
    ensures no_fault { result ≢ WriteFault → K.faults out.new ≡ K.faults out.old }
    ensures later { K.faults out.old ≤ K.faults out.new }
{
    match outcome {
        Outcome::Done | Outcome::Faulted(_, _) | Outcome::StepLimit => match out.send() {
            Ok(()) => outcome,
            Err(_) => Outcome::WriteFault,
        },
        Outcome::Usage | Outcome::Refused(_) | Outcome::ReadFault => outcome,
        Outcome::WriteFault | Outcome::OutOfMemory => outcome,
    }
}

// Does what the command asks for.
fn run_on_deck<S: Source, K: Sink>(
    alloc: Global,
    command: Command,
    deck: &mut S,
    out: &mut K,
) -> Outcome
    ensures ends { Ends command (record {
      left_before = S.left deck.old;
      left_now = S.left deck.new;
      taken_before = K.taken out.old;
      taken_now = K.taken out.new;
      deck_faults_before = S.faults deck.old;
      deck_faults_now = S.faults deck.new;
      out_faults_before = K.faults out.old;
      out_faults_now = K.faults out.new;
    }) result }
    ensures untouched { is_silent (Some (OnDeck command)) result ≡ true → out.new ≡ out.old }
    ensures textless { IsRun command → K.held out.old ≡ []
        → IfTold (S.left deck.old) (λ bytes. (p : Program) → Reads command bytes p → text_of_run command bytes p ≡ []
        → out.new ≡ out.old) }
    ensures passed { gives_all result ≡ true → K.held out.new ≡ [] }
    ensures no_deck_fault { result ≢ ReadFault → S.faults deck.new ≡ S.faults deck.old }
    ensures no_out_fault { result ≢ WriteFault → K.faults out.new ≡ K.faults out.old }
    ensures deck_later { S.faults deck.old ≤ S.faults deck.new }
    ensures out_later { K.faults out.old ≤ K.faults out.new }
{
    let bytes = match read_deck(alloc, deck, most_bytes(command)) {
        Ok(bytes) => bytes,
        Err(outcome) => return outcome,
    };
    let outcome = run_on_bytes(alloc, command, bytes.as_slice(), out);
    passed_on(outcome, out)
}

// Does what the words ask for.
fn run_request<S: Source, K: Sink>(
    alloc: Global,
    words: &[String],
    deck: &mut S,
    out: &mut K,
) -> Outcome
    ensures ended { Ended (request_of (texts words.now)) (record {
      left_before = S.left deck.old;
      left_now = S.left deck.new;
      taken_before = K.taken out.old;
      taken_now = K.taken out.new;
      deck_faults_before = S.faults deck.old;
      deck_faults_now = S.faults deck.new;
      out_faults_before = K.faults out.old;
      out_faults_now = K.faults out.new;
    }) result }
    ensures unread { request_of (texts words.now) ≡ None → deck.new ≡ deck.old }
    ensures apart { (n : ℕ) → request_of (texts words.now) ≡ Some (Make n) → deck.new ≡ deck.old }
    ensures untouched { is_silent (request_of (texts words.now)) result ≡ true → out.new ≡ out.old }
    ensures textless { (c : Asked) → IsRun c → request_of (texts words.now) ≡ Some (OnDeck c) → K.held out.old ≡ []
        → IfTold (S.left deck.old) (λ bytes. (p : Program) → Reads c bytes p → text_of_run c bytes p ≡ []
        → out.new ≡ out.old) }
    ensures passed { gives_all result ≡ true → K.held out.new ≡ [] }
    ensures no_deck_fault { result ≢ ReadFault → S.faults deck.new ≡ S.faults deck.old }
    ensures no_out_fault { result ≢ WriteFault → K.faults out.new ≡ K.faults out.old }
    ensures deck_later { S.faults deck.old ≤ S.faults deck.new }
    ensures out_later { K.faults out.old ≤ K.faults out.new }
{
    match request(words) {
        Some(Request::OnDeck(command)) => run_on_deck(alloc, command, deck, out),
        Some(Request::Make(nests)) => make(alloc, nests, out),
        None => Outcome::Usage,
    }
}

/// Does what the words ask for: reads the deck, writes to `out`, tells of its end in `notes`, and answers the status.
pub fn run_tool<S: Source, K: Sink, E: Sink>(
    alloc: Global,
    words: &Vec<String>,
    deck: &mut S,
    out: &mut K,
    notes: &mut E,
) -> u8
    ensures answers { IsOneOf (0 ∷ 1 ∷ 2 ∷ 3 ∷ 4 ∷ 5 ∷ 6 ∷ 7 ∷ []) result }

    // The words: 1 comes exactly where they aren't a command, and then nothing is read.
    ensures usage { (result ≡ 1) ↔ (request_of (texts words.now.items) ≡ None) }
    ensures unread { result ≡ 1 → deck.new ≡ deck.old }

    // Reading: the deck was read to its end, but where a limit of bytes is passed.
    ensures whole { (c : Asked) → Asks words.now.items c → IsOneOf (0 ∷ 3 ∷ 4 ∷ 6 ∷ []) result
        → IsAtEnd (S.left deck.new) }
    ensures whole_refused { (c : Asked) → Asks words.now.items c → result ≡ 2
        → IsReadOrPassed (most_bytes c) (S.left deck.old) (S.left deck.new) }

    // Refusals: 2 comes only where the deck is refused for the command. Where it is and reading didn't fail, there is
    // nothing but 2, or 7.
    ensures refused { (c : Asked) → Asks words.now.items c → result ≡ 2
        → IfTold (S.left deck.old) (IsRefusedAfter c (S.left deck.old) (S.left deck.new)) }
    ensures accepted { (c : Asked) → Asks words.now.items c
        → IfTold (S.left deck.old) (λ bytes. (p : Program) → Reads c bytes p → result ≡ 2 → ⊥) }
    ensures never_done { (c : Asked) → Asks words.now.items c
        → IfTold (S.left deck.old) (λ bytes. (r : Refusal) → IsRefused c bytes r
        → HasNotFailed (S.faults deck.old) (S.faults deck.new) → IsOneOf (2 ∷ 7 ∷ []) result) }

    // Faults of the objects: 5 and 6 come only where that object failed in this call.
    ensures read_fault { result ≡ 5 → Rose (S.faults deck.old) (S.faults deck.new) }
    ensures write_fault { result ≡ 6 → Rose (K.faults out.old) (K.faults out.new) }
    ensures no_read_fault { result ≢ 5 → S.faults deck.new ≡ S.faults deck.old }
    ensures no_write_fault { result ≢ 6 → K.faults out.new ≡ K.faults out.old }

    // `vectorise` gives one text at 0, and a front of one at 6. It is all that a translation of the deck's program has
    // to be (`vectorised`). So it is a translation of the deck (`translated`); those of its lines that are notes list
    // the deck's program (`listed_beside`); the statements of the nests that they list with a graph are marked as that
    // has them (`marked`). And it is laid out as a translation is printed (`printed`).
    ensures vectorised { (w : Width) → Asks words.now.items (Vectorise w) → result ≡ 0
        → IfTold (S.left deck.old) (λ bytes. GivesWhere (K.taken out.old) (K.taken out.new) (VectorisesDeck w bytes)) }
    ensures translated { (w : Width) → Asks words.now.items (Vectorise w) → result ≡ 0
        → IfTold (S.left deck.old) (λ bytes. GivesWhere (K.taken out.old) (K.taken out.new) (Translates w bytes)) }
    ensures listed_beside { (w : Width) → Asks words.now.items (Vectorise w) → result ≡ 0
        → IfTold (S.left deck.old) (λ bytes. GivesWhere (K.taken out.old) (K.taken out.new) (IsListedBeside w bytes)) }
    ensures marked { (w : Width) → Asks words.now.items (Vectorise w) → result ≡ 0
        → IfTold (S.left deck.old) (λ bytes. GivesWhere (K.taken out.old) (K.taken out.new) (IsMarked w bytes)) }
    ensures printed { (w : Width) → Asks words.now.items (Vectorise w) → result ≡ 0
        → IfTold (S.left deck.old) (λ bytes. GivesWhere (K.taken out.old) (K.taken out.new) (IsPrinted w bytes)) }
    ensures part { (w : Width) → Asks words.now.items (Vectorise w) → result ≡ 6
        → IfTold (S.left deck.old) (λ bytes. GivesPartWhere (K.taken out.old) (K.taken out.new)
        (IsTranslated w bytes)) }

    // `graph` gives a listing of the deck's program at 0, and a front of one at 6.
    ensures listed { (w : Width) → Asks words.now.items (Graph w) → result ≡ 0
        → IfTold (S.left deck.old) (λ bytes. GivesWhere (K.taken out.old) (K.taken out.new) (IsListingOf w bytes)) }
    ensures listed_part { (w : Width) → Asks words.now.items (Graph w) → result ≡ 6
        → IfTold (S.left deck.old) (λ bytes. GivesPartWhere (K.taken out.old) (K.taken out.new) (IsListingOf w bytes)) }

    // `run77` and `run90` give all of the run's text: at 0 the run ended without fault, at 3 by a fault, at 4 since its
    // steps exceed the limit. At 6 they give a front.
    ensures ran { (c : Asked) → IsRun c → Asks words.now.items c → result ≡ 0
        → IfTold (S.left deck.old) (GivesRun c Done (K.taken out.old) (K.taken out.new)) }
    ensures faulted { (c : Asked) → Asks words.now.items c → result ≡ 3
        → IsRun c × IfTold (S.left deck.old) (GivesFaultedRun c (K.taken out.old) (K.taken out.new)) }
    ensures limited { result ≡ 4 → (c : Asked) × IsRun c × Asks words.now.items c
        × IfTold (S.left deck.old) (GivesRun c StepLimit (K.taken out.old) (K.taken out.new)) }
    ensures run_part { (c : Asked) → IsRun c → Asks words.now.items c → result ≡ 6
        → IfTold (S.left deck.old) (GivesRunPart c (K.taken out.old) (K.taken out.new)) }

    // All that was given has been passed on at 0, 3 and 4. Where a run has no text, `out` is as it was.
    ensures passed_on { IsOneOf (0 ∷ 3 ∷ 4 ∷ []) result → K.held out.new ≡ [] }
    ensures textless { (c : Asked) → IsRun c → Asks words.now.items c → K.held out.old ≡ []
        → IfTold (S.left deck.old) (λ bytes. (p : Program) → Reads c bytes p → text_of_run c bytes p ≡ []
        → out.new ≡ out.old) }

    // `make N` leaves the deck alone, and makes one. It gives a summary of that one: all of it at 0, where the run of
    // the translation ended without fault, and at 3, where it ended by one; a front at 6, and at most that at 7.
    ensures apart { (n : ℕ) → AsksToMake words.now.items n → deck.new ≡ deck.old }
    ensures made_answers { (n : ℕ) → AsksToMake words.now.items n → IsOneOf (0 ∷ 2 ∷ 3 ∷ 6 ∷ 7 ∷ []) result }
    ensures made { (n : ℕ) → AsksToMake words.now.items n → result ≡ 0
        → GivesWhere (K.taken out.old) (K.taken out.new) (IsSummaryTo Done (deck_of n)) }
    ensures made_faulted { (n : ℕ) → AsksToMake words.now.items n → result ≡ 3 → (fault : Kind) × (line : ℕ)
        × GivesWhere (K.taken out.old) (K.taken out.new) (IsFaultedSummary fault line (deck_of n)) }
    ensures made_part { (n : ℕ) → AsksToMake words.now.items n → result ≡ 6
        → GivesPartWhere (K.taken out.old) (K.taken out.new) (IsSummary (deck_of n)) }
    ensures made_little { (n : ℕ) → AsksToMake words.now.items n → result ≡ 7
        → GivesAtMostSummary (deck_of n) (K.taken out.old) (K.taken out.new) }

    // The deck that it makes: 2 comes only where that is refused, and then there is nothing but 2, or 7. 3 comes only
    // where its run ends by a fault. Where that ends without fault and `out` didn't fail, there is nothing but 0, or 7.
    ensures made_refused { (n : ℕ) → AsksToMake words.now.items n → result ≡ 2
        → (r : Refusal) × IsRefusedFor (Vectorise Plain) r (deck_of n) }
    ensures made_never_done { (n : ℕ) → AsksToMake words.now.items n → (r : Refusal)
        → IsRefused (Vectorise Plain) (deck_of n) r → IsOneOf (2 ∷ 7 ∷ []) result }
    ensures made_runs { (n : ℕ) → AsksToMake words.now.items n → result ≡ 3 → RunsIntoFault (deck_of n) }
    ensures made_done { (n : ℕ) → AsksToMake words.now.items n → RunsWell (deck_of n)
        → HasNotFailed (K.faults out.old) (K.faults out.new) → IsOneOf (0 ∷ 7 ∷ []) result }

    // Otherwise nothing is given, but that `run90` and `make` may have given a front where there is no memory.
    ensures nothing { IsOneOf (1 ∷ 2 ∷ 5 ∷ []) result → out.new ≡ out.old }
    ensures nothing_without_memory { writes_early (request_of (texts words.now.items)) ≡ false → result ≡ 7
        → out.new ≡ out.old }
    ensures part_without_memory { (c : Asked) → IsRun c → Asks words.now.items c → result ≡ 7
        → IfTold (S.left deck.old) (GivesAtMostPart c (K.taken out.old) (K.taken out.new)) }

    // Completeness: where nothing failed, a deck that is read gets 3 where its run faults within the limit, 4 where
    // its steps exceed the limit, and 0 otherwise, unless memory runs out.
    ensures faults { (c : Asked) → IsRun c → Asks words.now.items c
        → IfTold (S.left deck.old) (λ bytes. (p : Program) → Reads c bytes p
        → (fault : Kind) (line : ℕ) → ending (run_of c bytes p) ≡ Some (Fault fault line)
        → HasNotFailed (S.faults deck.old) (S.faults deck.new) → HasNotFailed (K.faults out.old) (K.faults out.new)
        → IsOneOf (3 ∷ 7 ∷ []) result) }
    ensures limits { (c : Asked) → IsRun c → Asks words.now.items c
        → IfTold (S.left deck.old) (λ bytes. (p : Program) → Reads c bytes p
        → IsExceeded c bytes p
        → HasNotFailed (S.faults deck.old) (S.faults deck.new) → HasNotFailed (K.faults out.old) (K.faults out.new)
        → IsOneOf (4 ∷ 7 ∷ []) result) }
    ensures exceeded { (c : Asked) → IsRun c → Asks words.now.items c → result ≡ 4
        → IfTold (S.left deck.old) (λ bytes. (p : Program) → Reads c bytes p → IsExceeded c bytes p) }
    ensures done { (c : Asked) → Asks words.now.items c
        → IfTold (S.left deck.old) (λ bytes. (p : Program) → Reads c bytes p → ending_of c bytes p ≡ Some Done
        → HasNotFailed (S.faults deck.old) (S.faults deck.new) → HasNotFailed (K.faults out.old) (K.faults out.new)
        → IsOneOf (0 ∷ 7 ∷ []) result) }

    // The notes have the status's line, or a front of it where they failed.
    ensures note { HasNotFailed (E.faults notes.old) (E.faults notes.new)
        → (line : List ℕ) × NoteFor (request_of (texts words.now.items)) (S.left deck.old) result line
        × Gives (E.taken notes.old) line (E.taken notes.new) }
    ensures note_part { (line : List ℕ) × NoteFor (request_of (texts words.now.items)) (S.left deck.old) result line
        × GivesPart (E.taken notes.old) line (E.taken notes.new) }

    // Counts of faults never fall.
    ensures deck_later { S.faults deck.old ≤ S.faults deck.new }
    ensures out_later { K.faults out.old ≤ K.faults out.new }
    ensures notes_later { E.faults notes.old ≤ E.faults notes.new }
{
    let outcome = run_request(alloc, words.as_slice(), deck, out);
    // A fault of the notes changes no status.
    let _ = note(notes, outcome);
    status(outcome)
}
