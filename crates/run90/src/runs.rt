//! Runs of a program, and its final store.
ghost use Rattle.std.specs.Prelude.{◌≡◌, ◌≢◌, ◌≤◌, [], Ok, IfOk, OnOk, OnErr, MatchResult, map};
ghost use Rattle.streams.specs.Causes.{Rose};
ghost use Rattle.tree.specs.Plain.{Program};
ghost use Rattle.tree.specs.View.{program_of_90, declaration_of, block_of};
ghost use Rattle.meaning.specs.Store.{opening_store};
ghost use Rattle.meaning.specs.Profile90.{IsProgram90};
ghost use Rattle.meaning.specs.Dialect.{fortran90};
ghost use Rattle.tree.specs.declared.width.Width.{Width as Width'};
ghost use Rattle.meaning.specs.Run.{run};
ghost use Rattle.meaning.specs.Steps.{final_lines};
ghost use Rattle.machine.specs.Endings.{Ends, IsLeftAt};
ghost use Rattle.machine.specs.Storage.{AreDistinct, opening_of};
ghost use Rattle.machine.specs.Texts.{WritesText};
ghost use Rattle.array_expressions.specs.assignments.Moments.{seen};
ghost use Rattle.run90.specs.Opening.{opening_moment};
ghost use Rattle.run90.specs.Machine.{IsMachineOf, store_left, HasFrontOf, ending_of};

use crate::programs::Machine90;
use crate::statements::block;
use array_expressions::assignments::Moment;
use array_expressions::transfers::Unfinished;
use array_values::storage::Storage;
use machine::{Progress, ended};
use meaning::End;
use std::alloc::Global;
use streams::{Sink, WriteFault};
use tree::{Block, Decl, Memory, Program90, Seq, Width, copy_decls};

// The first moment of a run.
fn opened(alloc: Global, decls: &Seq<Decl>, limit: Option<u64>) -> Result<Moment, Memory>
    requires { AreDistinct (map declaration_of decls.now) }
    ensures { IfOk result (λ m. seen m ≡ opening_moment limit (map declaration_of decls.now)) }
{
    let own = copy_decls(decls, alloc)?;
    let storage = Storage::new(alloc, own.as_slice())?;
    Ok(Moment {
        alloc,
        decls: own,
        storage,
        progress: Progress::begin(limit),
    })
}

// How a run ended, unless there was no memory.
fn finished(answer: Result<(), Unfinished>) -> Result<End, Memory>
    ensures { result ≡ ending_of answer }
{
    match answer {
        Ok(()) => Ok(ended(Ok(()))),
        Err(Unfinished::Left(left)) => Ok(ended(Err(left))),
        Err(Unfinished::Memory) => Err(Memory),
    }
}

impl Machine90 {
    /// The machine of a program, which has the opening store.
    #[tactic(auto, using(crate::proofs::ProgramLaws::are_distinct))]
    pub fn new(alloc: Global, program: Program90, width: Width) -> Result<Machine90, Memory>
        requires { IsProgram90 (program_of_90 program) }
        ensures machine { IfOk result (IsMachineOf width (program_of_90 program)) }
        ensures opened { IfOk result (λ m. store_left m ≡ opening_store (program_of_90 program)) }
    {
        let Program90 { decls, body, .. } = program;
        Machine90::of_parts(alloc, decls, body, width)
    }

    /// The machine of a program with these declarations and statements.
    pub(crate) fn of_parts(
        alloc: Global,
        decls: Seq<Decl>,
        body: Block,
        width: Width,
    ) -> Result<Machine90, Memory>
        requires { AreDistinct (map declaration_of decls) }
        ensures names { IfOk result (λ m. map declaration_of m.decls ≡ map declaration_of decls) }
        ensures opened { IfOk result (λ m. store_left m ≡ opening_of (map declaration_of decls)) }
        ensures body { IfOk result (λ m. block_of m.body ≡ block_of body) }
        ensures width { IfOk result (λ m. m.width ≡ width) }
    {
        let moment = opened(alloc, &decls, None)?;
        Ok(Machine90 {
            alloc,
            decls,
            body,
            moment,
            width,
        })
    }

    /// Runs the program over the input, from its opening store on. The output goes out as it comes. Where there is no
    /// memory, a front of the text went out.
    pub fn run<K: Sink>(
        &mut self,
        input: &[u8],
        out: &mut K,
        limit: Option<u64>,
    ) -> Result<End, Memory>
        ensures run { (w : Width') (p : Program) → IsProgram90 p → IsMachineOf w p self.old → MatchResult result
            (λ end. Ends p.declarations (run (fortran90 w) limit p input.now)
            (seen self.new.moment) (K.taken out.old) (K.taken out.new) end)
            (λ _. HasFrontOf (run (fortran90 w) limit p input.now).written (K.taken out.old) (K.taken out.new)) }
        ensures unwritten { (w : Width') (p : Program) → IsProgram90 p → IsMachineOf w p self.old
            → result ≡ Ok End.WriteFault
            → IsLeftAt (fortran90 w) limit p input.now (store_left self.new) (K.taken out.old) (K.taken out.new) }
        ensures machine { (w : Width') (p : Program) → IsProgram90 p → IsMachineOf w p self.old
            → IsMachineOf w p self.new }

        // Where the run writes nothing, the sink is as it was, whether it tells its bytes or not.
        ensures untouched { (w : Width') (p : Program) → IsProgram90 p → IsMachineOf w p self.old
            → (run (fortran90 w) limit p input.now).written ≡ [] → out.new ≡ out.old }
        ensures fault { result ≡ Ok End.WriteFault → Rose (K.faults out.old) (K.faults out.new) }
        ensures no_fault { result ≢ Ok End.WriteFault → K.faults out.new ≡ K.faults out.old }
        ensures later { K.faults out.old ≤ K.faults out.new }
    {
        let moment = opened(self.alloc, &self.decls, limit)?;
        self.moment = moment;
        finished(block(&mut self.moment, self.width, &self.body, input, out))
    }

    /// Writes a line for each variable and array element, in byte order of names, and column-major order. An array that
    /// isn't allocated has no lines.
    pub fn show<K: Sink>(&self, out: &mut K) -> Result<(), WriteFault>
        ensures text { (w : Width') (p : Program) → IsMachineOf w p self.now
            → WritesText (K.taken out.old) (final_lines p (store_left self.now)) (K.taken out.new) result }
        ensures untouched { (w : Width') (p : Program) → IsMachineOf w p self.now
            → final_lines p (store_left self.now) ≡ []
            → out.new ≡ out.old }
        ensures fault { OnErr result (Rose (K.faults out.old) (K.faults out.new)) }
        ensures no_fault { OnOk result (K.faults out.new ≡ K.faults out.old) }
        ensures later { K.faults out.old ≤ K.faults out.new }
    {
        for decl in self.decls.as_slice() {
            self.moment.storage.show_name(decl.name, out)?;
        }
        Ok(())
    }
}
