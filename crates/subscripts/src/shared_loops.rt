//! Loops that matter to two pairings.
ghost use Rattle.std.specs.Prelude.{◌<◌, ◌↔◌, IsTrue};
ghost use Rattle.subscripts.specs.Classes.{First, Matters, Second, Shared};
ghost use Rattle.subscripts.specs.Partitions.{SharesAt, SharesLoop};
ghost use Rattle.subscripts.specs.Shapes.{IsPairing};

use crate::pairing::Pairing;

impl Pairing {
    // The loop round both references at this place matters.
    fn has_shared(&self, place: usize) -> bool
        requires { place < 7 }
        ensures { IsTrue result ↔ Matters self.now (Shared place) }
    {
        place < usize::from(self.common)
            && (self.from.loops[place] != 0 || self.to.loops[place] != 0)
    }

    // The first reference's own loop at this place matters.
    fn has_first(&self, place: usize) -> bool
        requires { place < 7 }
        ensures { IsTrue result ↔ Matters self.now (First place) }
    {
        place >= usize::from(self.common) && self.from.loops[place] != 0
    }

    // The second reference's own loop at this place matters.
    fn has_second(&self, place: usize) -> bool
        requires { place < 7 }
        ensures { IsTrue result ↔ Matters self.now (Second place) }
    {
        place >= usize::from(self.common) && self.to.loops[place] != 0
    }

    // A loop at this place matters to both.
    fn shares_at(&self, other: &Pairing, place: usize) -> bool
        requires { place < 7 }
        ensures { IsTrue result ↔ SharesAt self.now other.now place }
    {
        if self.has_shared(place) && other.has_shared(place) {
            return true;
        }
        if self.has_first(place) && other.has_first(place) {
            return true;
        }
        self.has_second(place) && other.has_second(place)
    }

    // A loop matters to both, which are linear.
    pub fn shares_loop(&self, other: &Pairing) -> bool
        requires { IsPairing self.now }
        ensures { IsTrue result ↔ SharesLoop self.now other.now }
    {
        if !self.known || !other.known {
            return false;
        }
        for place in 0..7 {
            if self.shares_at(other, place) {
                return true;
            }
        }
        false
    }
}
