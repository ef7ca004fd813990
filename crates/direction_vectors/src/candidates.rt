//! All candidate vectors of two references.
ghost use Rattle.std.specs.Prelude.{◌≡◌, ◌≤◌, ℕ, All, IfOk};
ghost use Rattle.direction_vectors.specs.Answers.{OnAssumed, OnKept, OnNever, OnPair};
ghost use Rattle.direction_vectors.specs.Candidates.{CoversCandidates, CoversEach, dir_at};
ghost use Rattle.direction_vectors.specs.Merged.{AreMerged};
ghost use Rattle.direction_vectors.specs.Parts.{AreListedUnder, IsEqualPrefix};
ghost use Rattle.subscripts.specs.declared.affine.Dir.TheVariants.{Any};
ghost use Rattle.direction_vectors.specs.vector_tests.Refs.{IsRefPair, IsVectorOf};

use crate::dirs::{Answer, with_dir};
use crate::merging::one_answer;
use crate::splitting::merged;
use crate::vector_tests::RefPair;
use std::alloc::Global;
use subscripts::{Dir, Dirs, Verdict};
use tree::{Memory, Seq};

// The answers to all candidates that have `=` in the first `place` places.
fn listed(alloc: Global, refs: &RefPair, d: &Dirs, place: usize) -> Result<Vec<Answer>, Memory>
    requires refs { IsRefPair refs.now }
    requires prefix { IsEqualPrefix refs.now d.now place }
    requires starred { (m : ℕ) → place ≤ m → dir_at d.now m ≡ Any }
    ensures { IfOk result (λ answers. AreListedUnder refs.now d.now place answers.items) }
{
    if place == usize::from(refs.common) {
        return if refs.same_turn {
            one_answer(alloc, refs, d)
        } else {
            Ok(Vec::new(alloc))
        };
    }
    let mut answers = merged(alloc, refs, &with_dir(d, place, Dir::Lt), place + 1, None)?;
    let rest = listed(alloc, refs, &with_dir(d, place, Dir::Eq), place + 1)?;
    answers.extend_from_slice(rest.as_slice())?;
    Ok(answers)
}

/// The vectors in which two references are tested, each with what the tests say of it. One with `*` stands for the
/// three with `<`, `=` and `>` there. Vectors stand in order, `<` before `=` before `>`.
pub fn vectors(alloc: Global, refs: &RefPair) -> Result<Seq<(Dirs, Verdict)>, Memory>
    requires { IsRefPair refs.now }
    ensures vectors { IfOk result (λ answers. All (λ a. IsVectorOf refs.now a.0) answers) }
    ensures covered { IfOk result (λ answers. CoversEach refs.now answers) }
    ensures candidates { IfOk result (λ answers. All (CoversCandidates refs.now) answers) }
    ensures never { IfOk result (λ answers. All (λ a. OnNever refs.now a.0 a.1) answers) }
    ensures pair { IfOk result (λ answers. All (λ a. OnPair refs.now a.0 a.1) answers) }
    ensures assumed { IfOk result (λ answers. All (λ a. OnAssumed refs.now a.0 a.1) answers) }
    ensures kept { IfOk result (λ answers. All (λ a. OnKept refs.now a.1) answers) }
    ensures merged { IfOk result (λ answers. AreMerged refs.now answers) }
{
    let d = Dirs {
        len: refs.common,
        at: [Dir::Any; 7],
    };
    Ok(Seq::from_vec(listed(alloc, refs, &d, 0)?))
}
