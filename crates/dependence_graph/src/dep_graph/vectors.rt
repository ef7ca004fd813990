//! Couples of references, and their vectors.
ghost use Rattle.std.specs.Prelude.{◌∷◌, [], All, IfOk, OnOk};
ghost use Rattle.direction_vectors.specs.vector_tests.Refs.{IsRefPair};
ghost use Rattle.dependence_graph.specs.dep_graph.Joined.{AreJoined, AreVectors, IsTestable, row, table};

use crate::dep_graph::lines::{Dependences, Ends};
use crate::dep_graph::pairs::{dependence_of, ref_pair};
use crate::nest_references::Occurrence;
use direction_vectors::{RefPair, vectors};
use std::alloc::Global;
use subscripts::{Dirs, Verdict};
use tree::{Memory, Seq};

fn vectors_of(alloc: Global, refs: &RefPair) -> Result<Seq<(Dirs, Verdict)>, Memory>
    requires { IsRefPair refs.now }
    ensures { IfOk result (λ answers. AreVectors refs.now answers) }
{
    vectors(alloc, refs)
}

impl Dependences {
    pub(crate) fn add_couple(
        &mut self,
        alloc: Global,
        from: &Occurrence,
        to: &Occurrence,
    ) -> Result<(), Memory>
        requires { IsTestable from.now to.now }
        ensures { OnOk result (AreJoined ((from.now, to.now) ∷ []) self.old self.new) }
    {
        let Some(kind) = dependence_of(from, to) else {
            return Ok(());
        };
        let refs = ref_pair(alloc, from, to)?;
        let answers = vectors_of(alloc, &refs)?;
        let ends = Ends {
            from: from.place,
            to: to.place,
            kind,
            array: from.name,
        };
        self.add_answers(&ends, answers.as_slice())
    }

    // One reference with each of others.
    fn add_row(
        &mut self,
        alloc: Global,
        from: &Occurrence,
        all: &[Occurrence],
    ) -> Result<(), Memory>
        requires { All (IsTestable from.now) all.now }
        ensures { OnOk result (AreJoined (row from.now all.now) self.old self.new) }
    {
        for to in all {
            self.add_couple(alloc, from, to)?;
        }
        Ok(())
    }

    /// Each reference with each one.
    pub fn add_table(&mut self, alloc: Global, all: &[Occurrence]) -> Result<(), Memory>
        requires { All (λ a. All (IsTestable a) all.now) all.now }
        ensures { OnOk result (AreJoined (table all.now all.now) self.old self.new) }
    {
        for from in all {
            self.add_row(alloc, from, all)?;
        }
        Ok(())
    }
}
