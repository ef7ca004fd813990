//! The ZIV test (Goff, Kennedy and Tseng 1991, section 4.1).
ghost use Rattle.std.specs.Prelude.{◌≡◌};
ghost use Rattle.subscripts.specs.Classes.{IsZiv};
ghost use Rattle.subscripts.specs.Cuts.{IsLeastPair};
ghost use Rattle.subscripts.specs.Forms.{HasNoPair};
ghost use Rattle.subscripts.specs.Shapes.{IsPairing};
ghost use Rattle.subscripts.specs.declared.affine.Dirs.{Dirs as Vector};
ghost use Rattle.dependence_tests.specs.loop_lines.Verdicts.{OnNever, IfPair, OnAssumed, test_of};
ghost use Rattle.dependence_tests.specs.siv_tests.Words.{ziv_word};

use subscripts::{Pairing, Point, Test, Verdict};

/// The test of a pair without a loop. Its two sides are equal everywhere or nowhere, whatever the directions.
pub fn test_ziv(p: &Pairing) -> Verdict
    requires pairing { IsPairing p.now }
    requires ziv { IsZiv p.now }
    ensures never { OnNever result ((d : Vector) → HasNoPair p.now d) }
    ensures pair { IfPair result (λ x y. (d : Vector) → IsLeastPair p.now d x.at y.at) }
    ensures assumed { OnAssumed result ⊥ }
    ensures word { test_of result ≡ ziv_word }
{
    // read so that the arrays' lengths are known
    let _span = p.from_spans[0];
    if p.from.constant == p.to.constant {
        let first = Point { at: [1; 7] };
        Verdict::Pair(first, first, Test::Ziv)
    } else {
        Verdict::Never(Test::Ziv)
    }
}
