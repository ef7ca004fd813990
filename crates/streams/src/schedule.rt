// When a source or a sink over memory fails.
ghost use Rattle.std.specs.Prelude.{◌≡◌, ◌↔◌, IsTrue, Contains};
ghost use Rattle.streams.specs.Causes.{next_count};

// The numbers of the calls that are to fail, from 1, the number of calls made, and how many of them failed.
#[derive(Debug, Drop)]
pub(crate) struct Schedule {
    pub(crate) fails: Vec<u64>,
    pub(crate) calls: u64,
    pub(crate) faults: u64,
}

impl Schedule {
    pub(crate) fn new(fails: Vec<u64>) -> Schedule
        ensures fails { result.fails.items ≡ fails.items }
        ensures calls { result.calls ≡ 0 }
        ensures faults { result.faults ≡ 0 }
    {
        Schedule {
            fails,
            calls: 0,
            faults: 0,
        }
    }

    // Counts a call, and says whether it is to fail.
    pub(crate) fn begin(&mut self) -> bool
        ensures listed { IsTrue result ↔ Contains self.old.fails.items self.new.calls }
        ensures calls { self.new.calls ≡ next_count self.old.calls }
        ensures fails { self.new.fails ≡ self.old.fails }
        ensures faults { self.new.faults ≡ self.old.faults }
    {
        self.calls = self.calls.saturating_add(1);
        self.fails.contains(&self.calls)
    }

    // Counts a failure.
    pub(crate) fn fail(&mut self)
        ensures faults { self.new.faults ≡ next_count self.old.faults }
        ensures fails { self.new.fails ≡ self.old.fails }
        ensures calls { self.new.calls ≡ self.old.calls }
    {
        self.faults = self.faults.saturating_add(1);
    }
}
