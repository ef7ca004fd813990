//! READ (ANSI X3.9-1978, section 12.3).
ghost use Rattle.std.specs.Prelude.{◌≡◌, ◌<◌};
ghost use Rattle.tree.specs.Plain.{Single};
ghost use Rattle.tree.specs.View.{expression_of, reference_of, item_of};
ghost use Rattle.meaning.specs.Dialect.{fortran77};
ghost use Rattle.meaning.specs.Run.{reads_item, reads_items};
ghost use Rattle.machine.specs.Storage.{total};
ghost use Rattle.machine.specs.Stored.{names_in};
ghost use Rattle.machine.specs.Printing.{plain_items};
ghost use Rattle.machine.specs.Statements.{DoesOver, reads};
ghost use Rattle.machine.specs.Reading.{ReadsAt, reads_all, reads_cells};
ghost use Rattle.run77.specs.Moments.{seen};

use crate::moment::Moment;
use machine::{Halt, at, dims_of, elements, name_in, read_value};
use tree::{Expr, Fault, Item, Name, Ref, Seq, Width};

impl Moment {
    // The value that the place has from now on, as the input says.
    fn read_into(&mut self, width: Width, line: u32, place: usize, input: &[u8]) -> Result<(), Halt>
        requires { place < total (names_in self.old.storage) }
        ensures read { ReadsAt (fortran77 width) input.now line place (seen self.old) (seen self.new) result }
        ensures names { names_in self.new.storage ≡ names_in self.old.storage }
    {
        let word = self.progress.take_word(line, input)?;
        let value = at(line, read_value(self.storage.value(place), word))?;
        self.store(width, line, place, value)
    }

    // All elements of an array, or a scalar.
    fn read_all(&mut self, width: Width, line: u32, name: Name, input: &[u8]) -> Result<(), Halt>
        ensures { DoesOver input.now (λ limit. reads_all (fortran77 width) limit line name)
            (seen self.old) (seen self.new) result }
    {
        let Some(variable) = self.storage.find(name) else {
            return Err(Halt::Fault(Fault::Allocated, line));
        };
        let start = variable.start;
        let count = elements(dims_of(&variable.decl.extent));
        for k in 0..count {
            self.read_into(width, line, start + k, input)?;
        }
        Ok(())
    }

    // All elements, or one.
    fn read_cells(&mut self, width: Width, line: u32, item: &Ref, input: &[u8]) -> Result<(), Halt>
        ensures { DoesOver input.now (λ limit. reads_cells (fortran77 width) limit line (reference_of item.now))
            (seen self.old) (seen self.new) result }
    {
        if item.subs.is_empty() {
            return self.read_all(width, line, item.name, input);
        }
        let place = at(line, self.place(item))?;
        self.read_into(width, line, place, input)
    }

    fn read_expression(
        &mut self,
        width: Width,
        line: u32,
        expr: &Expr,
        input: &[u8],
    ) -> Result<(), Halt>
        ensures { DoesOver input.now
            (λ limit. reads_item (fortran77 width) limit (Single (expression_of expr.now)) line)
            (seen self.old) (seen self.new) result }
    {
        match name_in(expr) {
            Some(item) => self.read_cells(width, line, item, input),
            None => Ok(()),
        }
    }

    #[cycle(reading)]
    fn read_item(&mut self, width: Width, line: u32, item: &Item, input: &[u8]) -> Result<(), Halt>
        ensures { DoesOver input.now (λ limit. reads_item (fortran77 width) limit (item_of item.now) line)
            (seen self.old) (seen self.new) result }
    {
        match item {
            Item::One(expr) => self.read_expression(width, line, expr, input),
            Item::Text(_) => Ok(()),
            Item::Turns(items, name, first, last, step) => {
                let turns = self.begin_loop(width, line, *name, first, last, step)?;
                for _ in 0..turns.count {
                    self.count_step()?;
                    self.read_items(width, line, items, input)?;
                    self.increase(width, line, *name, turns.step)?;
                }
                Ok(())
            }
        }
    }

    #[cycle(reading)]
    fn read_items(
        &mut self,
        width: Width,
        line: u32,
        items: &Seq<Item>,
        input: &[u8],
    ) -> Result<(), Halt>
        ensures { DoesOver input.now (λ limit. reads_items (fortran77 width) limit (plain_items items.now) line)
            (seen self.old) (seen self.new) result }
    {
        for item in items.as_slice() {
            self.read_item(width, line, item, input)?;
        }
        Ok(())
    }

    /// The items of a list get the values of the input. The rest of the last line is passed over.
    pub fn read(
        &mut self,
        width: Width,
        line: u32,
        items: &Seq<Item>,
        input: &[u8],
    ) -> Result<(), Halt>
        ensures { DoesOver input.now (λ limit. reads (fortran77 width) limit line (plain_items items.now))
            (seen self.old) (seen self.new) result }
    {
        self.progress.begin_line(line, input)?;
        self.read_items(width, line, items, input)?;
        self.progress.skip_line(input);
        Ok(())
    }
}
