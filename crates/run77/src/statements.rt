//! Statements, block IFs, loops and jumps (ANSI X3.9-1978, sections 10 and 11).
ghost use Rattle.std.specs.Prelude.{◌≡◌, ◌≢◌, ◌≤◌, Err, map, IsTrue, Option, List, ℕ};
ghost use Rattle.streams.specs.Causes.{Rose};
ghost use Rattle.tree.specs.View.{expression_of, reference_of, statement_of, block_of};
ghost use Rattle.meaning.specs.Dialect.{fortran77};
ghost use Rattle.tree.specs.declared.width.Width.{Width as Width'};
ghost use Rattle.tree.specs.declared.width.Width.TheVariants.{Plain};
ghost use Rattle.meaning.specs.Value.{truth_of};
ghost use Rattle.meaning.specs.Run.{does, does_all, counts_step, assigns, goes, loops, Jumping, Stopped};
ghost use Rattle.machine.specs.Acts.{Does, Runs, left_of};
ghost use Rattle.machine.specs.Stored.{store_in};
ghost use Rattle.machine.specs.Printing.{plain_items, prints};
ghost use Rattle.machine.specs.Statements.{HasArms, ArmsHaveArms, BlockHasArms, plain_arms, Chooses, DoesOver, reads};
ghost use Rattle.run77.specs.Moments.{seen};
ghost use Rattle.machine.specs.Told.{IsTold};
ghost use Rattle.machine.specs.Jumps.{caught, landed};

use crate::moment::Moment;
use machine::{Halt, Left, at, passed};
use streams::Sink;
use tree::{Arm, Block, Expr, Fault, Item, Ref, Seq, Stmt, Width};

fn left(answer: Result<(), Halt>) -> Result<(), Left>
    ensures { result ≡ left_of answer }
{
    match answer {
        Ok(()) => Ok(()),
        Err(halt) => Err(Left::Halted(halt)),
    }
}

// A jump goes on to its label.
fn caught(halt: Halt) -> Result<Option<u32>, Left>
    ensures { result ≡ caught halt }
{
    match halt {
        Halt::Jump(label) => Ok(Some(label)),
        Halt::Stop => Err(Left::Halted(Halt::Stop)),
        Halt::Fault(fault, line) => Err(Left::Halted(Halt::Fault(fault, line))),
        Halt::Limit => Err(Left::Halted(Halt::Limit)),
    }
}

// The label that has to be reached before statements are done again, or why no more are.
fn landed(answer: Result<(), Left>) -> Result<Option<u32>, Left>
    ensures { result ≡ landed answer }
{
    match answer {
        Ok(()) => Ok(None),
        Err(Left::Halted(halt)) => caught(halt),
        Err(Left::Unwritten) => Err(Left::Unwritten),
    }
}

impl Moment {
    fn truth(&self, test: &Expr) -> Result<bool, Fault>
        ensures { result ≡ truth_of (fortran77 Plain) (expression_of test.now) (store_in self.now.storage) }
    {
        self.value(test)?.as_truth()
    }

    fn assignment(&mut self, width: Width, line: u32, left: &Ref, right: &Expr) -> Result<(), Halt>
        ensures { Does (λ limit. counts_step (fortran77 width) limit
            (assigns (fortran77 width) limit line (reference_of left.now) (expression_of right.now)))
            (seen self.old) (seen self.new) result }
    {
        self.count_step()?;
        self.assign(width, line, left, right)
    }

    fn go(&mut self, label: u32) -> Result<(), Halt>
        ensures { (w : Width') → Does (λ limit. counts_step (fortran77 w) limit (goes (Jumping label)))
            (seen self.old) (seen self.new) result }
    {
        self.count_step()?;
        Err(Halt::Jump(label))
    }

    fn stop(&mut self) -> Result<(), Halt>
        ensures { (w : Width') → Does (λ limit. counts_step (fortran77 w) limit (goes Stopped)) (seen self.old)
            (seen self.new) result }
    {
        self.count_step()?;
        Err(Halt::Stop)
    }

    fn read_statement(
        &mut self,
        width: Width,
        line: u32,
        items: &Seq<Item>,
        input: &[u8],
    ) -> Result<(), Halt>
        ensures { DoesOver input.now (λ limit. counts_step (fortran77 width) limit
            (reads (fortran77 width) limit line (plain_items items.now)))
            (seen self.old) (seen self.new) result }
    {
        self.count_step()?;
        self.read(width, line, items, input)
    }

    fn print_statement<K: Sink>(
        &mut self,
        width: Width,
        line: u32,
        items: &Seq<Item>,
        out: &mut K,
    ) -> Result<(), Left>
        ensures run { (input : List ℕ)
            → Runs (λ limit. counts_step (fortran77 width) limit (prints (fortran77 width) limit line
            (plain_items items.now))) input
            (seen self.old) (K.taken out.old) (seen self.new) (K.taken out.new) result }
        ensures told { (input bytes : List ℕ) → IsTold (λ before now.
            Runs (λ limit. counts_step (fortran77 width) limit (prints (fortran77 width) limit line
            (plain_items items.now))) input
            (seen self.old) before (seen self.new) now result) (out.new ≡ out.old) bytes }
        ensures fault { result ≡ Err Left.Unwritten → Rose (K.faults out.old) (K.faults out.new) }
        ensures no_fault { result ≢ Err Left.Unwritten → K.faults out.new ≡ K.faults out.old }
        ensures later { K.faults out.old ≤ K.faults out.new }
    {
        self.count_step()?;
        self.print(width, line, items, out)
    }

    #[cycle(statements)]
    fn statement<K: Sink>(
        &mut self,
        width: Width,
        stmt: &Stmt,
        input: &[u8],
        out: &mut K,
    ) -> Result<(), Left>
        ensures run { HasArms (statement_of stmt.now)
            → Runs (λ limit. does (fortran77 width) limit (statement_of stmt.now)) input.now
            (seen self.old) (K.taken out.old) (seen self.new) (K.taken out.new) result }
        ensures told { HasArms (statement_of stmt.now) → (bytes : List ℕ) → IsTold (λ before now.
            Runs (λ limit. does (fortran77 width) limit (statement_of stmt.now)) input.now
            (seen self.old) before (seen self.new) now result) (out.new ≡ out.old) bytes }
        ensures fault { result ≡ Err Left.Unwritten → Rose (K.faults out.old) (K.faults out.new) }
        ensures no_fault { result ≢ Err Left.Unwritten → K.faults out.new ≡ K.faults out.old }
        ensures later { K.faults out.old ≤ K.faults out.new }
    {
        match stmt {
            Stmt::Assign {
                line,
                left: target,
                right,
                ..
            } => left(self.assignment(width, *line, target, right)),
            Stmt::Masked { .. } => Ok(()),
            Stmt::If { line, arms, other } => {
                let done = self.branch(width, *line, arms, input, out)?;
                if done {
                    return Ok(());
                }
                self.block(width, other, input, out)
            }
            Stmt::Do {
                line,
                var,
                first,
                last,
                step,
                body,
            } => {
                let turns = self.begin_loop(width, *line, *var, first, last, step)?;
                for _ in 0..turns.count {
                    self.count_step()?;
                    self.block(width, body, input, out)?;
                    self.increase(width, *line, *var, turns.step)?;
                }
                Ok(())
            }
            Stmt::Label { .. } => Ok(()),
            Stmt::Go { number, .. } => left(self.go(*number)),
            Stmt::Stop { .. } => left(self.stop()),
            Stmt::Read { line, items } => left(self.read_statement(width, *line, items, input)),
            Stmt::Print { line, items } => self.print_statement(width, *line, items, out),
            Stmt::Allocate { .. } => Ok(()),
            Stmt::Deallocate { .. } => Ok(()),
        }
    }

    // Does the first arm whose condition is true, and says whether there is one.
    #[cycle(statements)]
    fn branch<K: Sink>(
        &mut self,
        width: Width,
        line: u32,
        arms: &Seq<Arm>,
        input: &[u8],
        out: &mut K,
    ) -> Result<bool, Left>
        ensures run { ArmsHaveArms (plain_arms arms.now)
            → Chooses (fortran77 width) line (plain_arms arms.now) input.now
            (seen self.old) (K.taken out.old) (seen self.new) (K.taken out.new) result }
        ensures told { ArmsHaveArms (plain_arms arms.now) → (bytes : List ℕ) → IsTold (λ before now.
            Chooses (fortran77 width) line (plain_arms arms.now) input.now
            (seen self.old) before (seen self.new) now result) (out.new ≡ out.old) bytes }
        ensures fault { result ≡ Err Left.Unwritten → Rose (K.faults out.old) (K.faults out.new) }
        ensures no_fault { result ≢ Err Left.Unwritten → K.faults out.new ≡ K.faults out.old }
        ensures later { K.faults out.old ≤ K.faults out.new }
    {
        for arm in arms.as_slice() {
            self.count_step()?;
            let holds = at(line, self.truth(&arm.test))?;
            if holds {
                self.block(width, &arm.body, input, out)?;
                return Ok(true);
            }
        }
        Ok(false)
    }

    /// One statement after the other. A jump passes over those up to its label, and leaves a block that hasn't it.
    #[cycle(statements)]
    pub fn block<K: Sink>(
        &mut self,
        width: Width,
        block: &Block,
        input: &[u8],
        out: &mut K,
    ) -> Result<(), Left>
        ensures run { BlockHasArms (block_of block.now)
            → Runs (λ limit. does_all (fortran77 width) limit (block_of block.now)) input.now
            (seen self.old) (K.taken out.old) (seen self.new) (K.taken out.new) result }
        ensures told { BlockHasArms (block_of block.now) → (bytes : List ℕ) → IsTold (λ before now.
            Runs (λ limit. does_all (fortran77 width) limit (block_of block.now)) input.now
            (seen self.old) before (seen self.new) now result) (out.new ≡ out.old) bytes }
        ensures fault { result ≡ Err Left.Unwritten → Rose (K.faults out.old) (K.faults out.new) }
        ensures no_fault { result ≢ Err Left.Unwritten → K.faults out.new ≡ K.faults out.old }
        ensures later { K.faults out.old ≤ K.faults out.new }
    {
        let mut jump = None;
        for stmt in block.stmts.as_slice() {
            if let Some(label) = jump {
                jump = passed(stmt, label);
                continue;
            }
            jump = landed(self.statement(width, stmt, input, out))?;
        }
        match jump {
            None => Ok(()),
            Some(label) => Err(Left::Halted(Halt::Jump(label))),
        }
    }
}
