//! READ (ANSI X3.9-1978, section 12.3; ISO/IEC 1539:1991, section 9.4.2).
ghost use Rattle.std.specs.Prelude.{◌≡◌, List};
ghost use Rattle.tree.specs.Plain.{Single, Read};
ghost use Rattle.tree.specs.View.{expression_of, reference_of, item_of};
ghost use Rattle.meaning.specs.Dialect.{fortran90};
ghost use Rattle.meaning.specs.Store.{Cell};
ghost use Rattle.meaning.specs.Run.{does, reads_item, reads_items, for_each, reads_into};
ghost use Rattle.machine.specs.Printing.{plain_items};
ghost use Rattle.machine.specs.Reading.{reads_all, reads_cells};
ghost use Rattle.machine.specs.Statements.{reads, DoesOver as DoesAll};
ghost use Rattle.array_values.specs.storage.Slots.{IsWithin, SamePlaces};
ghost use Rattle.array_expressions.specs.assignments.Causes.{DoesOver};
ghost use Rattle.array_expressions.specs.assignments.Moments.{seen, slots_of};
ghost use Rattle.array_expressions.specs.transfers.Reading.{ReadsAt, StandAt, AreWithin};

use crate::assignments::{Moment, Stuck, at};
use array_values::storage::{Place, Target};
use machine::{Halt, at as located, name_in, read_value};
use tree::{Expr, Item, Name, Ref, Seq, Width};

// The value that the place has from now on, as the input says.
fn read_into(
    moment: &mut Moment,
    width: Width,
    line: u32,
    place: Place,
    input: &[u8],
) -> Result<(), Halt>
    requires { IsWithin (slots_of moment.old) place }
    ensures read { ReadsAt width input.now line place moment.old moment.new result }
    ensures kept { SamePlaces (slots_of moment.old) (slots_of moment.new) }
{
    let word = moment.progress.take_word(line, input)?;
    let value = located(line, read_value(moment.storage.value(place), word))?;
    moment.store(width, line, place, value)
}

// All that is selected of a name, one element after the other.
fn read_all(
    moment: &mut Moment,
    width: Width,
    line: u32,
    target: &Target,
    input: &[u8],
) -> Result<(), Halt>
    requires { AreWithin (slots_of moment.old) target.now }
    ensures { (cs : List Cell) → StandAt (slots_of moment.old) target.now.slot cs target.now.selected.places
        → DoesAll input.now (λ limit. for_each cs (reads_into (fortran90 width) limit line)) (seen moment.old)
        (seen moment.new)
        result }
{
    let places = target.selected.places.as_slice();
    for k in 0..places.len() {
        let place = Place {
            slot: target.slot,
            at: places[k],
        };
        read_into(moment, width, line, place, input)?;
    }
    Ok(())
}

// All elements of an array, or a scalar.
fn read_whole(
    moment: &mut Moment,
    width: Width,
    line: u32,
    name: Name,
    input: &[u8],
) -> Result<(), Stuck>
    ensures { DoesOver input.now
        (λ limit. reads_all (fortran90 width) limit line name) (seen moment.old) (seen moment.new)
        result }
{
    let target = at(line, moment.storage.target(moment.alloc, name))?;
    read_all(moment, width, line, &target, input)?;
    Ok(())
}

// All elements, or one.
fn read_cells(
    moment: &mut Moment,
    width: Width,
    line: u32,
    item: &Ref,
    input: &[u8],
) -> Result<(), Stuck>
    ensures { DoesOver input.now (λ limit. reads_cells (fortran90 width) limit line (reference_of item.now))
        (seen moment.old) (seen moment.new) result }
{
    if item.subs.is_empty() {
        return read_whole(moment, width, line, item.name, input);
    }
    let place = moment.place(width, line, item)?;
    read_into(moment, width, line, place, input)?;
    Ok(())
}

fn read_expression(
    moment: &mut Moment,
    width: Width,
    line: u32,
    expr: &Expr,
    input: &[u8],
) -> Result<(), Stuck>
    ensures { DoesOver input.now (λ limit. reads_item (fortran90 width) limit (Single (expression_of expr.now)) line)
        (seen moment.old) (seen moment.new) result }
{
    match name_in(expr) {
        Some(item) => read_cells(moment, width, line, item, input),
        None => Ok(()),
    }
}

#[cycle(reading)]
fn read_item(
    moment: &mut Moment,
    width: Width,
    line: u32,
    item: &Item,
    input: &[u8],
) -> Result<(), Stuck>
    ensures { DoesOver input.now (λ limit. reads_item (fortran90 width) limit (item_of item.now) line)
        (seen moment.old) (seen moment.new) result }
{
    match item {
        Item::One(expr) => read_expression(moment, width, line, expr, input),
        Item::Text(_) => Ok(()),
        Item::Turns(items, name, first, last, step) => {
            let turns = moment.begin_loop(width, line, *name, first, last, step)?;
            for _ in 0..turns.count {
                moment.count_step()?;
                read_items(moment, width, line, items, input)?;
                moment.increase(width, line, *name, turns.step)?;
            }
            Ok(())
        }
    }
}

#[cycle(reading)]
fn read_items(
    moment: &mut Moment,
    width: Width,
    line: u32,
    items: &Seq<Item>,
    input: &[u8],
) -> Result<(), Stuck>
    ensures { DoesOver input.now (λ limit. reads_items (fortran90 width) limit (plain_items items.now) line)
        (seen moment.old) (seen moment.new) result }
{
    for item in items.as_slice() {
        read_item(moment, width, line, item, input)?;
    }
    Ok(())
}

// The items of a list get the values of the input. The rest of the last line is passed over.
fn read(
    moment: &mut Moment,
    width: Width,
    line: u32,
    items: &Seq<Item>,
    input: &[u8],
) -> Result<(), Stuck>
    ensures { DoesOver input.now (λ limit. reads (fortran90 width) limit line (plain_items items.now))
        (seen moment.old) (seen moment.new) result }
{
    moment.progress.begin_line(line, input)?;
    read_items(moment, width, line, items, input)?;
    moment.progress.skip_line(input);
    Ok(())
}

/// A READ.
pub fn read_statement(
    moment: &mut Moment,
    width: Width,
    line: u32,
    items: &Seq<Item>,
    input: &[u8],
) -> Result<(), Stuck>
    ensures { DoesOver input.now (λ limit. does (fortran90 width) limit (Read line (plain_items items.now)))
        (seen moment.old) (seen moment.new) result }
{
    moment.count_step()?;
    read(moment, width, line, items, input)
}
