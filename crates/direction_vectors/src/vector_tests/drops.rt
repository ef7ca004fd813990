//! Why a vector is dropped.
ghost use Rattle.std.specs.Prelude.{MatchOption};
ghost use Rattle.direction_vectors.specs.vector_tests.Pairs.{NeverMeet};
ghost use Rattle.direction_vectors.specs.vector_tests.Refs.{IsRefPair, IsVectorOf};
ghost use Rattle.direction_vectors.specs.vector_tests.Ways.{IsRefutedVector};
ghost use Rattle.direction_vectors.specs.vector_tests.Words.{IsDropWord};

use crate::vector_tests::coupled::a_group_refutes;
use crate::vector_tests::refs::RefPair;
use crate::vector_tests::siv::{has_unequal_constants, miv_word, siv_word};
use subscripts::{Dirs, Test};

impl RefPair {
    /// The word of the first test that refutes the vector: of trips, of pairs without a loop, of separable pairs of one
    /// loop, of groups, and of separable pairs of several loops.
    pub fn drop_word(&self, d: &Dirs) -> Option<Test>
        requires refs { IsRefPair self.now }
        requires vector { IsVectorOf self.now d.now }
        ensures { MatchOption result (IsRefutedVector self.now d.now → ⊥)
            (λ w. NeverMeet self.now d.now × IsDropWord self.now d.now w) }
    {
        let subs = self.subs.as_slice();
        if self.has_no_trip(d) {
            return Some(Test::Trip);
        }
        if has_unequal_constants(subs) {
            return Some(Test::Ziv);
        }
        if let Some(word) = siv_word(subs, d) {
            return Some(word);
        }
        if a_group_refutes(subs, d) {
            return Some(Test::Delta);
        }
        miv_word(subs, d)
    }
}
