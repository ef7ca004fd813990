//! Steps, and what is stored.
ghost use Rattle.std.specs.Prelude.{◌≡◌, ◌<◌};
ghost use Rattle.meaning.specs.Dialect.{fortran77};
ghost use Rattle.machine.specs.Storage.{total};
ghost use Rattle.machine.specs.Stored.{names_in};
ghost use Rattle.machine.specs.Moments.{CountsStep};
ghost use Rattle.machine.specs.Acts.{StoresAt};
ghost use Rattle.run77.specs.Moments.{seen};

use crate::moment::Moment;
use machine::{Halt, at, check_range};
use tree::{Value, Width};

impl Moment {
    /// Counts a step, unless none is left.
    pub fn count_step(&mut self) -> Result<(), Halt>
        ensures counted { CountsStep (seen self.old) (seen self.new) result }
        ensures storage { self.new.storage ≡ self.old.storage }
    {
        self.progress.count_step()
    }

    /// Stores the value of an element or a scalar, which is a step. The range comes before it.
    pub fn store(&mut self, width: Width, line: u32, place: usize, value: Value) -> Result<(), Halt>
        requires { place < total (names_in self.old.storage) }
        ensures stored { StoresAt (fortran77 width) line place value (seen self.old) (seen self.new) result }
        ensures names { names_in self.new.storage ≡ names_in self.old.storage }
    {
        at(line, check_range(width, value))?;
        self.count_step()?;
        self.storage.put(place, value);
        Ok(())
    }
}
