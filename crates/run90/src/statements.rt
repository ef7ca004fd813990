//! Statements, block IFs, loops and jumps (ANSI X3.9-1978, sections 10 and 11; ISO/IEC 1539:1991, section 8.1).
ghost use Rattle.std.specs.Prelude.{◌≡◌, ◌≢◌, ◌≤◌, Err, List, ℕ, Bool};
ghost use Rattle.streams.specs.Causes.{Rose};
ghost use Rattle.tree.specs.Plain.{Program};
ghost use Rattle.tree.specs.View.{expression_of, statement_of, block_of};
ghost use Rattle.machine.specs.declared.progress.Left.TheVariants.{Unwritten};
ghost use Rattle.meaning.specs.Blocks.{Surroundings};
ghost use Rattle.meaning.specs.Dialect.{fortran90};
ghost use Rattle.tree.specs.declared.width.Width.{Width as Width'};
ghost use Rattle.meaning.specs.Profile90.{IsStatement, AreArms, IsBlock};
ghost use Rattle.meaning.specs.Run.{does, does_all, counts_step, goes, Jumping, Stopped};
ghost use Rattle.meaning.specs.Value.{truth_of};
ghost use Rattle.machine.specs.Acts.{Runs};
ghost use Rattle.machine.specs.Statements.{plain_arms};
ghost use Rattle.machine.specs.Told.{IsTold};
ghost use Rattle.array_values.specs.storage.Stored.{store_in};
ghost use Rattle.array_expressions.specs.assignments.Causes.{AnswersAt, Does};
ghost use Rattle.array_expressions.specs.assignments.Moments.{seen};
ghost use Rattle.array_expressions.specs.transfers.Unfinished.{ended_by};
ghost use Rattle.run90.specs.Statements.{unfinished, caught, landed, Chooses};
ghost use Rattle.run90.specs.Suiting.{Suits};

use crate::allocation::{allocate, deallocate};
use array_expressions::assignments::{Moment, Stuck, at};
use array_expressions::transfers::{Unfinished, print_statement, read_statement};
use machine::{Halt, Left, at as located, passed};
use streams::Sink;
use tree::{Arm, Block, Expr, Seq, Stmt, Width};

fn left(answer: Result<(), Stuck>) -> Result<(), Unfinished>
    ensures { result ≡ unfinished answer }
{
    Ok(answer?)
}

// A jump goes on to its label.
fn caught(halt: Halt) -> Result<Option<u32>, Unfinished>
    ensures { result ≡ caught halt }
{
    match halt {
        Halt::Jump(label) => Ok(Some(label)),
        Halt::Stop => Err(Unfinished::Left(Left::Halted(Halt::Stop))),
        Halt::Fault(fault, line) => {
            Err(Unfinished::Left(Left::Halted(Halt::Fault(fault, line))))
        }
        Halt::Limit => Err(Unfinished::Left(Left::Halted(Halt::Limit))),
    }
}

// The label that has to be reached before statements are done again, or why no more are.
fn landed(answer: Result<(), Unfinished>) -> Result<Option<u32>, Unfinished>
    ensures { result ≡ landed answer }
{
    match answer {
        Ok(()) => Ok(None),
        Err(Unfinished::Left(Left::Halted(halt))) => caught(halt),
        Err(Unfinished::Left(Left::Unwritten)) => Err(Unfinished::Left(Left::Unwritten)),
        Err(Unfinished::Memory) => Err(Unfinished::Memory),
    }
}

fn truth(moment: &Moment, width: Width, line: u32, test: &Expr) -> Result<bool, Stuck>
    ensures { AnswersAt line (λ (b : Bool). b)
        (truth_of (fortran90 width) (expression_of test.now) (store_in moment.now.storage)) result }
{
    let value = at(line, moment.scope().value(width, test, &[]))?;
    let truth = located(line, value.as_truth())?;
    Ok(truth)
}

fn go(moment: &mut Moment, label: u32) -> Result<(), Stuck>
    ensures { (w : Width') → Does (λ limit. counts_step (fortran90 w) limit (goes (Jumping label)))
        (seen moment.old) (seen moment.new) result }
{
    moment.count_step()?;
    Err(Stuck::Halted(Halt::Jump(label)))
}

fn stop(moment: &mut Moment) -> Result<(), Stuck>
    ensures { (w : Width') → Does (λ limit. counts_step (fortran90 w) limit (goes Stopped)) (seen moment.old)
        (seen moment.new) result }
{
    moment.count_step()?;
    Err(Stuck::Halted(Halt::Stop))
}

#[cycle(statements)]
fn statement<K: Sink>(
    moment: &mut Moment,
    width: Width,
    stmt: &Stmt,
    input: &[u8],
    out: &mut K,
) -> Result<(), Unfinished>
    ensures run { (p : Program) (w : Surroundings) → IsStatement p.declarations (statement_of stmt.now) w
        → Suits width p (seen moment.old)
        → Runs (λ limit. does (fortran90 width) limit (statement_of stmt.now)) input.now
        (seen moment.old) (K.taken out.old) (seen moment.new) (K.taken out.new) (ended_by result) }
    ensures told { (p : Program) (w : Surroundings) → IsStatement p.declarations (statement_of stmt.now) w
        → Suits width p (seen moment.old) → (bytes : List ℕ) → IsTold (λ before now.
        Runs (λ limit. does (fortran90 width) limit (statement_of stmt.now)) input.now
        (seen moment.old) before (seen moment.new) now (ended_by result)) (out.new ≡ out.old) bytes }
    ensures fault { result ≡ Err (Unfinished.Left Unwritten) → Rose (K.faults out.old) (K.faults out.new) }
    ensures no_fault { result ≢ Err (Unfinished.Left Unwritten) → K.faults out.new ≡ K.faults out.old }
    ensures later { K.faults out.old ≤ K.faults out.new }
{
    match stmt {
        Stmt::Assign {
            line,
            left: target,
            right,
            ..
        } => left(moment.assignment(width, *line, target, right)),
        Stmt::Masked {
            line,
            mask,
            left: target,
            right,
            ..
        } => left(moment.masked_assignment(width, *line, mask, target, right)),
        Stmt::If { line, arms, other } => {
            let done = choose(moment, width, *line, arms, input, out)?;
            if done {
                return Ok(());
            }
            block(moment, width, other, input, out)
        }
        Stmt::Do {
            line,
            var,
            first,
            last,
            step,
            body,
        } => {
            let turns = moment.begin_loop(width, *line, *var, first, last, step)?;
            for _ in 0..turns.count {
                moment.count_step()?;
                block(moment, width, body, input, out)?;
                moment.increase(width, *line, *var, turns.step)?;
            }
            Ok(())
        }
        Stmt::Label { .. } => Ok(()),
        Stmt::Go { number, .. } => left(go(moment, *number)),
        Stmt::Stop { .. } => left(stop(moment)),
        Stmt::Read { line, items } => left(read_statement(moment, width, *line, items, input)),
        Stmt::Print { line, items } => print_statement(moment, width, *line, items, out),
        Stmt::Allocate {
            line,
            name,
            extents,
        } => left(allocate(moment, width, *line, *name, extents)),
        Stmt::Deallocate { line, name } => left(deallocate(moment, *line, *name)),
    }
}

// Does the first arm whose condition is true, and says whether there is one.
#[cycle(statements)]
fn choose<K: Sink>(
    moment: &mut Moment,
    width: Width,
    line: u32,
    arms: &Seq<Arm>,
    input: &[u8],
    out: &mut K,
) -> Result<bool, Unfinished>
    ensures run { (p : Program) (w : Surroundings) → AreArms p.declarations (plain_arms arms.now) w
        → Suits width p (seen moment.old) → Chooses width line (plain_arms arms.now) input.now
        (seen moment.old) (K.taken out.old) (seen moment.new) (K.taken out.new) result }
    ensures told { (p : Program) (w : Surroundings) → AreArms p.declarations (plain_arms arms.now) w
        → Suits width p (seen moment.old) → (bytes : List ℕ) → IsTold (λ before now.
        Chooses width line (plain_arms arms.now) input.now
        (seen moment.old) before (seen moment.new) now result) (out.new ≡ out.old) bytes }
    ensures fault { result ≡ Err (Unfinished.Left Unwritten) → Rose (K.faults out.old) (K.faults out.new) }
    ensures no_fault { result ≢ Err (Unfinished.Left Unwritten) → K.faults out.new ≡ K.faults out.old }
    ensures later { K.faults out.old ≤ K.faults out.new }
{
    for arm in arms.as_slice() {
        moment.count_step()?;
        let holds = truth(moment, width, line, &arm.test)?;
        if holds {
            block(moment, width, &arm.body, input, out)?;
            return Ok(true);
        }
    }
    Ok(false)
}

/// One statement after the other. A jump passes over those up to its label, and leaves a block that hasn't it.
#[cycle(statements)]
pub fn block<K: Sink>(
    moment: &mut Moment,
    width: Width,
    block: &Block,
    input: &[u8],
    out: &mut K,
) -> Result<(), Unfinished>
    ensures run { (p : Program) (w : Surroundings) → IsBlock p.declarations (block_of block.now) w
        → Suits width p (seen moment.old)
        → Runs (λ limit. does_all (fortran90 width) limit (block_of block.now)) input.now
        (seen moment.old) (K.taken out.old) (seen moment.new) (K.taken out.new) (ended_by result) }
    ensures told { (p : Program) (w : Surroundings) → IsBlock p.declarations (block_of block.now) w
        → Suits width p (seen moment.old) → (bytes : List ℕ) → IsTold (λ before now.
        Runs (λ limit. does_all (fortran90 width) limit (block_of block.now)) input.now
        (seen moment.old) before (seen moment.new) now (ended_by result)) (out.new ≡ out.old) bytes }
    ensures fault { result ≡ Err (Unfinished.Left Unwritten) → Rose (K.faults out.old) (K.faults out.new) }
    ensures no_fault { result ≢ Err (Unfinished.Left Unwritten) → K.faults out.new ≡ K.faults out.old }
    ensures later { K.faults out.old ≤ K.faults out.new }
{
    let mut jump = None;
    for stmt in block.stmts.as_slice() {
        if let Some(label) = jump {
            jump = passed(stmt, label);
            continue;
        }
        jump = landed(statement(moment, width, stmt, input, out))?;
    }
    match jump {
        None => Ok(()),
        Some(label) => Err(Unfinished::Left(Left::Halted(Halt::Jump(label)))),
    }
}
