//! A program that can be run, and its final store.
ghost use Rattle.std.specs.Prelude.{◌≡◌, ◌≢◌, ◌≤◌, [], IfOk, OnOk, OnErr, map};
ghost use Rattle.streams.specs.Causes.{Rose};
ghost use Rattle.tree.specs.Plain.{Program};
ghost use Rattle.tree.specs.View.{program_of, declaration_of, block_of};
ghost use Rattle.meaning.specs.Store.{opening_store};
ghost use Rattle.meaning.specs.Profile77.{IsProgram77};
ghost use Rattle.meaning.specs.Dialect.{fortran77};
ghost use Rattle.tree.specs.declared.width.Width.{Width as Width'};
ghost use Rattle.meaning.specs.Run.{run};
ghost use Rattle.meaning.specs.Steps.{final_lines};
ghost use Rattle.machine.specs.Endings.{IsOpening, Ends, IsLeftAt};
ghost use Rattle.machine.specs.Storage.{AreArrays, AreDistinct, opening_of};
ghost use Rattle.machine.specs.Stored.{names_in};
ghost use Rattle.machine.specs.Texts.{WritesText};
ghost use Rattle.run77.specs.Moments.{seen};
ghost use Rattle.run77.specs.Machine.{IsMachineOf, store_left};

use crate::moment::Moment;
use machine::{Progress, Storage, ended};
use meaning::End;
use std::alloc::Global;
use streams::{Sink, WriteFault};
use tree::{Block, Decl, Memory, Program77, Seq, Width};

/// A FORTRAN 77 program with the storage of its names.
#[derive(Drop)]
pub struct Machine77 {
    body: Block,
    moment: Moment,
    width: Width,
}

impl Moment {
    // The first moment of a run.
    fn begin(&mut self, limit: Option<u64>)
        ensures opening { IsOpening limit (seen self.new) }
        ensures names { names_in self.new.storage ≡ names_in self.old.storage }
    {
        self.storage.reset();
        self.progress = Progress::begin(limit);
    }
}

impl Machine77 {
    /// Takes all the memory that runs need.
    pub fn new(alloc: Global, program: Program77, width: Width) -> Result<Machine77, Memory>
        requires { IsProgram77 (fortran77 width) (program_of program) }
        ensures machine { IfOk result (IsMachineOf width (program_of program)) }
        ensures opened { IfOk result (λ m. store_left m ≡ opening_store (program_of program)) }
    {
        let Program77 { decls, body, .. } = program;
        Machine77::of_parts(alloc, decls, body, width)
    }

    /// The machine of a program with these declarations and statements.
    fn of_parts(
        alloc: Global,
        decls: Seq<Decl>,
        body: Block,
        width: Width,
    ) -> Result<Machine77, Memory>
        requires sound { AreArrays (map declaration_of decls) }
        requires distinct { AreDistinct (map declaration_of decls) }
        ensures names { IfOk result (λ m. names_in m.moment.storage ≡ map declaration_of decls) }
        ensures opened { IfOk result (λ m. store_left m ≡ opening_of (map declaration_of decls)) }
        ensures body { IfOk result (λ m. block_of m.body ≡ block_of body) }
        ensures width { IfOk result (λ m. m.width ≡ width) }
    {
        Ok(Machine77 {
            body,
            moment: Moment {
                storage: Storage::new(alloc, decls)?,
                progress: Progress::begin(None),
            },
            width,
        })
    }

    /// Runs the program over the input, from its opening store on. The output goes out as it comes.
    pub fn run<K: Sink>(&mut self, input: &[u8], out: &mut K, limit: Option<u64>) -> End
        ensures run { (w : Width') (p : Program) → IsProgram77 (fortran77 w) p → IsMachineOf w p self.old
            → Ends p.declarations (run (fortran77 w) limit p input.now)
            (seen self.new.moment) (K.taken out.old) (K.taken out.new) result }
        ensures unwritten { (w : Width') (p : Program) → IsProgram77 (fortran77 w) p → IsMachineOf w p self.old
            → result ≡ End.WriteFault
            → IsLeftAt (fortran77 w) limit p input.now (store_left self.new) (K.taken out.old) (K.taken out.new) }
        ensures machine { (w : Width') (p : Program) → IsProgram77 (fortran77 w) p → IsMachineOf w p self.old
            → IsMachineOf w p self.new }

        // Where the run writes nothing, the sink is as it was, whether it tells its bytes or not.
        ensures untouched { (w : Width') (p : Program) → IsProgram77 (fortran77 w) p → IsMachineOf w p self.old
            → (run (fortran77 w) limit p input.now).written ≡ [] → out.new ≡ out.old }
        ensures fault { result ≡ End.WriteFault → Rose (K.faults out.old) (K.faults out.new) }
        ensures no_fault { result ≢ End.WriteFault → K.faults out.new ≡ K.faults out.old }
        ensures later { K.faults out.old ≤ K.faults out.new }
    {
        self.moment.begin(limit);
        ended(self.moment.block(self.width, &self.body, input, out))
    }

    /// Writes a line for each variable and array element, in byte order of names, and column-major order.
    pub fn show<K: Sink>(&self, out: &mut K) -> Result<(), WriteFault>
        ensures text { (w : Width') (p : Program) → IsMachineOf w p self.now
            → WritesText (K.taken out.old) (final_lines p (store_left self.now)) (K.taken out.new) result }
        ensures untouched { (w : Width') (p : Program) → IsMachineOf w p self.now
            → final_lines p (store_left self.now) ≡ []
            → out.new ≡ out.old }
        ensures fault { OnErr result (Rose (K.faults out.old) (K.faults out.new)) }
        ensures no_fault { OnOk result (K.faults out.new ≡ K.faults out.old) }
        ensures later { K.faults out.old ≤ K.faults out.new }
    {
        self.moment.storage.show(out)
    }
}
