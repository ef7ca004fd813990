//! PRINT (ANSI X3.9-1978, sections 12 and 13.6; ISO/IEC 1539:1991, section 9.4.2).
ghost use Rattle.std.specs.Prelude.{◌≡◌, ◌≢◌, ◌≤◌, Err, List, ℕ};
ghost use Rattle.streams.specs.Causes.{Rose};
ghost use Rattle.tree.specs.Plain.{Print};
ghost use Rattle.tree.specs.View.{expression_of, item_of};
ghost use Rattle.machine.specs.declared.progress.Left.TheVariants.{Unwritten};
ghost use Rattle.meaning.specs.Dialect.{fortran90};
ghost use Rattle.meaning.specs.Run.{does, prints_item, prints_items, first_blank};
ghost use Rattle.machine.specs.Acts.{Runs};
ghost use Rattle.machine.specs.Printing.{prints_value, prints, plain_items};
ghost use Rattle.array_expressions.specs.assignments.Moments.{seen};
ghost use Rattle.machine.specs.Told.{IsTold};
ghost use Rattle.array_expressions.specs.transfers.Printing.{prints_scalar, prints_array};
ghost use Rattle.array_expressions.specs.transfers.Unfinished.{ended_by};

use crate::assignments::{Moment, at};
use crate::transfers::unfinished::Unfinished;
use machine::{write_output, write_outputs};
use streams::{Sink, write_all};
use tree::{Expr, Item, Seq, Width};

// One value.
fn print_scalar<K: Sink>(
    moment: &Moment,
    width: Width,
    line: u32,
    expr: &Expr,
    out: &mut K,
) -> Result<(), Unfinished>
    ensures run { (input : List ℕ) → Runs (λ limit. prints_scalar width line (expression_of expr.now)) input
        (seen moment.now) (K.taken out.old) (seen moment.now) (K.taken out.new) (ended_by result) }
    ensures told { (input bytes : List ℕ) → IsTold (λ before now.
        Runs (λ limit. prints_scalar width line (expression_of expr.now)) input
        (seen moment.now) before (seen moment.now) now (ended_by result)) (out.new ≡ out.old) bytes }
    ensures fault { result ≡ Err (Unfinished.Left Unwritten) → Rose (K.faults out.old) (K.faults out.new) }
    ensures no_fault { result ≢ Err (Unfinished.Left Unwritten) → K.faults out.new ≡ K.faults out.old }
    ensures later { K.faults out.old ≤ K.faults out.new }
{
    let value = at(line, moment.scope().value(width, expr, &[]))?;
    write_output(value, out)?;
    Ok(())
}

// All elements of an array.
fn print_array<K: Sink>(
    moment: &Moment,
    width: Width,
    line: u32,
    expr: &Expr,
    out: &mut K,
) -> Result<(), Unfinished>
    ensures run { (input : List ℕ) → Runs (λ limit. prints_array width line (expression_of expr.now)) input
        (seen moment.now) (K.taken out.old) (seen moment.now) (K.taken out.new) (ended_by result) }
    ensures told { (input bytes : List ℕ) → IsTold (λ before now.
        Runs (λ limit. prints_array width line (expression_of expr.now)) input
        (seen moment.now) before (seen moment.now) now (ended_by result)) (out.new ≡ out.old) bytes }
    ensures fault { result ≡ Err (Unfinished.Left Unwritten) → Rose (K.faults out.old) (K.faults out.new) }
    ensures no_fault { result ≢ Err (Unfinished.Left Unwritten) → K.faults out.new ≡ K.faults out.old }
    ensures later { K.faults out.old ≤ K.faults out.new }
{
    let known = at(line, moment.scope().in_whole(width, expr, &[]))?;
    let values = known.values.as_slice();
    if values.is_empty() {
        return Ok(());
    }
    write_outputs(values, out)?;
    Ok(())
}

// A value, or all elements of an array.
fn print_value<K: Sink>(
    moment: &Moment,
    width: Width,
    line: u32,
    expr: &Expr,
    out: &mut K,
) -> Result<(), Unfinished>
    ensures run { (input : List ℕ) → Runs (λ limit. prints_value (fortran90 width) line (expression_of expr.now)) input
        (seen moment.now) (K.taken out.old) (seen moment.now) (K.taken out.new) (ended_by result) }
    ensures told { (input bytes : List ℕ) → IsTold (λ before now.
        Runs (λ limit. prints_value (fortran90 width) line (expression_of expr.now)) input
        (seen moment.now) before (seen moment.now) now (ended_by result)) (out.new ≡ out.old) bytes }
    ensures fault { result ≡ Err (Unfinished.Left Unwritten) → Rose (K.faults out.old) (K.faults out.new) }
    ensures no_fault { result ≢ Err (Unfinished.Left Unwritten) → K.faults out.new ≡ K.faults out.old }
    ensures later { K.faults out.old ≤ K.faults out.new }
{
    if moment.scope().is_scalar(expr) {
        return print_scalar(moment, width, line, expr, out);
    }
    print_array(moment, width, line, expr, out)
}

#[cycle(printing)]
fn print_item<K: Sink>(
    moment: &mut Moment,
    width: Width,
    line: u32,
    item: &Item,
    out: &mut K,
) -> Result<(), Unfinished>
    ensures run { (input : List ℕ) → Runs (λ limit. prints_item (fortran90 width) limit (item_of item.now) line) input
        (seen moment.old) (K.taken out.old) (seen moment.new) (K.taken out.new) (ended_by result) }
    ensures told { (input bytes : List ℕ) → IsTold (λ before now.
        Runs (λ limit. prints_item (fortran90 width) limit (item_of item.now) line) input
        (seen moment.old) before (seen moment.new) now (ended_by result)) (out.new ≡ out.old) bytes }
    ensures fault { result ≡ Err (Unfinished.Left Unwritten) → Rose (K.faults out.old) (K.faults out.new) }
    ensures no_fault { result ≢ Err (Unfinished.Left Unwritten) → K.faults out.new ≡ K.faults out.old }
    ensures later { K.faults out.old ≤ K.faults out.new }
{
    match item {
        Item::One(expr) => print_value(moment, width, line, expr, out),
        Item::Text(text) => Ok(write_all(out, text.as_slice())?),
        Item::Turns(items, name, first, last, step) => {
            let turns = moment.begin_loop(width, line, *name, first, last, step)?;
            for _ in 0..turns.count {
                moment.count_step()?;
                print_items(moment, width, line, items, out)?;
                moment.increase(width, line, *name, turns.step)?;
            }
            Ok(())
        }
    }
}

#[cycle(printing)]
fn print_items<K: Sink>(
    moment: &mut Moment,
    width: Width,
    line: u32,
    items: &Seq<Item>,
    out: &mut K,
) -> Result<(), Unfinished>
    ensures run { (input : List ℕ)
        → Runs (λ limit. prints_items (fortran90 width) limit (plain_items items.now) line) input
        (seen moment.old) (K.taken out.old) (seen moment.new) (K.taken out.new) (ended_by result) }
    ensures told { (input bytes : List ℕ) → IsTold (λ before now.
        Runs (λ limit. prints_items (fortran90 width) limit (plain_items items.now) line) input
        (seen moment.old) before (seen moment.new) now (ended_by result)) (out.new ≡ out.old) bytes }
    ensures fault { result ≡ Err (Unfinished.Left Unwritten) → Rose (K.faults out.old) (K.faults out.new) }
    ensures no_fault { result ≢ Err (Unfinished.Left Unwritten) → K.faults out.new ≡ K.faults out.old }
    ensures later { K.faults out.old ≤ K.faults out.new }
{
    for item in items.as_slice() {
        print_item(moment, width, line, item, out)?;
    }
    Ok(())
}

fn first_blank(items: &Seq<Item>) -> &'static [u8]
    ensures { result.now ≡ first_blank (plain_items items.now) }
{
    match items.as_slice().first() {
        None => b" ",
        Some(Item::Text(_)) => b" ",
        Some(Item::One(_)) => b"",
        Some(Item::Turns(..)) => b"",
    }
}

// A line of output, sent at its end. A blank stands before it where it begins with a constant, or is empty.
fn print<K: Sink>(
    moment: &mut Moment,
    width: Width,
    line: u32,
    items: &Seq<Item>,
    out: &mut K,
) -> Result<(), Unfinished>
    ensures run { (input : List ℕ) → Runs (λ limit. prints (fortran90 width) limit line (plain_items items.now)) input
        (seen moment.old) (K.taken out.old) (seen moment.new) (K.taken out.new) (ended_by result) }
    ensures told { (input bytes : List ℕ) → IsTold (λ before now.
        Runs (λ limit. prints (fortran90 width) limit line (plain_items items.now)) input
        (seen moment.old) before (seen moment.new) now (ended_by result)) (out.new ≡ out.old) bytes }
    ensures fault { result ≡ Err (Unfinished.Left Unwritten) → Rose (K.faults out.old) (K.faults out.new) }
    ensures no_fault { result ≢ Err (Unfinished.Left Unwritten) → K.faults out.new ≡ K.faults out.old }
    ensures later { K.faults out.old ≤ K.faults out.new }
{
    write_all(out, first_blank(items))?;
    print_items(moment, width, line, items, out)?;
    write_all(out, b"\n")?;
    out.send()?;
    Ok(())
}

/// A PRINT.
pub fn print_statement<K: Sink>(
    moment: &mut Moment,
    width: Width,
    line: u32,
    items: &Seq<Item>,
    out: &mut K,
) -> Result<(), Unfinished>
    ensures run { (input : List ℕ)
        → Runs (λ limit. does (fortran90 width) limit (Print line (plain_items items.now))) input
        (seen moment.old) (K.taken out.old) (seen moment.new) (K.taken out.new) (ended_by result) }
    ensures told { (input bytes : List ℕ) → IsTold (λ before now.
        Runs (λ limit. does (fortran90 width) limit (Print line (plain_items items.now))) input
        (seen moment.old) before (seen moment.new) now (ended_by result)) (out.new ≡ out.old) bytes }
    ensures fault { result ≡ Err (Unfinished.Left Unwritten) → Rose (K.faults out.old) (K.faults out.new) }
    ensures no_fault { result ≢ Err (Unfinished.Left Unwritten) → K.faults out.new ≡ K.faults out.old }
    ensures later { K.faults out.old ≤ K.faults out.new }
{
    moment.count_step()?;
    print(moment, width, line, items, out)
}
