//! PRINT (ANSI X3.9-1978, sections 12 and 13.6).
ghost use Rattle.std.specs.Prelude.{◌≡◌, ◌≢◌, ◌≤◌, Err, List, ℕ, MatchOption};
ghost use Rattle.streams.specs.Causes.{Rose};
ghost use Rattle.tree.specs.View.{expression_of, item_of};
ghost use Rattle.meaning.specs.Dialect.{fortran77};
ghost use Rattle.tree.specs.declared.width.Width.{Width as Width'};
ghost use Rattle.meaning.specs.Run.{prints_item, prints_items, first_blank};
ghost use Rattle.machine.specs.Acts.{Runs};
ghost use Rattle.machine.specs.Printing.{prints_value, prints, plain_items};
ghost use Rattle.run77.specs.Moments.{seen};
ghost use Rattle.run77.specs.Printing.{IsOneValue, AreAllValues};
ghost use Rattle.machine.specs.Told.{IsTold};

use crate::moment::Moment;
use machine::{Left, at, write_output, write_outputs};
use streams::{Sink, write_all};
use tree::{Expr, Item, Name, Seq, Width};

// The name of a scalar or a whole array.
#[tactic(auto, using(crate::proofs::ItemLaws::item_laws))]
fn whole_name(expr: &Expr) -> Option<Name>
    ensures { MatchOption result (IsOneValue (expression_of expr.now))
        (λ name. AreAllValues (expression_of expr.now) name) }
{
    match expr {
        Expr::Item(item) => match item.subs.as_slice().first() {
            None => Some(item.name),
            Some(_) => None,
        },
        Expr::Int(_) => None,
        Expr::Truth(_) => None,
        Expr::Un(..) => None,
        Expr::Bin(..) => None,
        Expr::Call(..) => None,
        Expr::List(..) => None,
        Expr::Spread(..) => None,
        Expr::Transpose(_) => None,
        Expr::Reshape(..) => None,
        Expr::Reduce(..) => None,
    }
}

impl Moment {
    fn print_value<K: Sink>(&self, line: u32, expr: &Expr, out: &mut K) -> Result<(), Left>
        ensures run { (w : Width') (input : List ℕ)
            → Runs (λ limit. prints_value (fortran77 w) line (expression_of expr.now)) input
            (seen self.now) (K.taken out.old) (seen self.now) (K.taken out.new) result }
        ensures told { (w : Width') (input bytes : List ℕ) → IsTold (λ before now.
            Runs (λ limit. prints_value (fortran77 w) line (expression_of expr.now)) input
            (seen self.now) before (seen self.now) now result) (out.new ≡ out.old) bytes }
        ensures fault { result ≡ Err Left.Unwritten → Rose (K.faults out.old) (K.faults out.new) }
        ensures no_fault { result ≢ Err Left.Unwritten → K.faults out.new ≡ K.faults out.old }
        ensures later { K.faults out.old ≤ K.faults out.new }
    {
        match whole_name(expr) {
            Some(name) => {
                let values = at(line, self.storage.all(name))?;
                if values.is_empty() {
                    return Ok(());
                }
                write_outputs(values, out)?;
                Ok(())
            }
            None => {
                let value = at(line, self.value(expr))?;
                write_output(value, out)?;
                Ok(())
            }
        }
    }

    #[cycle(printing)]
    fn print_item<K: Sink>(
        &mut self,
        width: Width,
        line: u32,
        item: &Item,
        out: &mut K,
    ) -> Result<(), Left>
        ensures run { (input : List ℕ)
            → Runs (λ limit. prints_item (fortran77 width) limit (item_of item.now) line) input
            (seen self.old) (K.taken out.old) (seen self.new) (K.taken out.new) result }
        ensures told { (input bytes : List ℕ) → IsTold (λ before now.
            Runs (λ limit. prints_item (fortran77 width) limit (item_of item.now) line) input
            (seen self.old) before (seen self.new) now result) (out.new ≡ out.old) bytes }
        ensures fault { result ≡ Err Left.Unwritten → Rose (K.faults out.old) (K.faults out.new) }
        ensures no_fault { result ≢ Err Left.Unwritten → K.faults out.new ≡ K.faults out.old }
        ensures later { K.faults out.old ≤ K.faults out.new }
    {
        match item {
            Item::One(expr) => self.print_value(line, expr, out),
            Item::Text(text) => Ok(write_all(out, text.as_slice())?),
            Item::Turns(items, name, first, last, step) => {
                let turns = self.begin_loop(width, line, *name, first, last, step)?;
                for _ in 0..turns.count {
                    self.count_step()?;
                    self.print_items(width, line, items, out)?;
                    self.increase(width, line, *name, turns.step)?;
                }
                Ok(())
            }
        }
    }

    #[cycle(printing)]
    fn print_items<K: Sink>(
        &mut self,
        width: Width,
        line: u32,
        items: &Seq<Item>,
        out: &mut K,
    ) -> Result<(), Left>
        ensures run { (input : List ℕ)
            → Runs (λ limit. prints_items (fortran77 width) limit (plain_items items.now) line) input
            (seen self.old) (K.taken out.old) (seen self.new) (K.taken out.new) result }
        ensures told { (input bytes : List ℕ) → IsTold (λ before now.
            Runs (λ limit. prints_items (fortran77 width) limit (plain_items items.now) line) input
            (seen self.old) before (seen self.new) now result) (out.new ≡ out.old) bytes }
        ensures fault { result ≡ Err Left.Unwritten → Rose (K.faults out.old) (K.faults out.new) }
        ensures no_fault { result ≢ Err Left.Unwritten → K.faults out.new ≡ K.faults out.old }
        ensures later { K.faults out.old ≤ K.faults out.new }
    {
        for item in items.as_slice() {
            self.print_item(width, line, item, out)?;
        }
        Ok(())
    }

    /// A line of output, sent at its end. A blank stands before it where it begins with a constant, or is empty.
    pub fn print<K: Sink>(
        &mut self,
        width: Width,
        line: u32,
        items: &Seq<Item>,
        out: &mut K,
    ) -> Result<(), Left>
        ensures run { (input : List ℕ)
            → Runs (λ limit. prints (fortran77 width) limit line (plain_items items.now)) input
            (seen self.old) (K.taken out.old) (seen self.new) (K.taken out.new) result }
        ensures told { (input bytes : List ℕ) → IsTold (λ before now.
            Runs (λ limit. prints (fortran77 width) limit line (plain_items items.now)) input
            (seen self.old) before (seen self.new) now result) (out.new ≡ out.old) bytes }
        ensures fault { result ≡ Err Left.Unwritten → Rose (K.faults out.old) (K.faults out.new) }
        ensures no_fault { result ≢ Err Left.Unwritten → K.faults out.new ≡ K.faults out.old }
        ensures later { K.faults out.old ≤ K.faults out.new }
    {
        write_all(out, first_blank(items))?;
        self.print_items(width, line, items, out)?;
        write_all(out, b"\n")?;
        out.send()?;
        Ok(())
    }
}

fn first_blank(items: &Seq<Item>) -> &'static [u8]
    ensures { result.now ≡ first_blank (plain_items items.now) }
{
    match items.as_slice().first() {
        None => b" ",
        Some(Item::Text(_)) => b" ",
        Some(Item::One(_)) => b"",
        Some(Item::Turns(..)) => b"",
    }
}
