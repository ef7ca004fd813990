//! The words of a listing.
ghost use Rattle.std.specs.Prelude.{◌≡◌};
ghost use Rattle.listing.specs.graphs.Words.{hold_word, kind_word, direction_sign, test_word};

use dependence_graph::graphs::{Dep, HoldReason};
use subscripts::{Dir, Test};

pub(crate) fn kind_word(kind: Dep) -> &'static [u8]
    ensures { result.now ≡ kind_word kind }
{
    match kind {
        Dep::Flow => b"FLOW",
        Dep::Anti => b"ANTI",
        Dep::Output => b"OUTPUT",
    }
}

pub(crate) fn test_word(test: Test) -> &'static [u8]
    ensures { result.now ≡ test_word test }
{
    match test {
        Test::Trip => b"TRIP",
        Test::Scalar => b"SCALAR",
        Test::Ziv => b"ZIV",
        Test::Strong => b"STRONG",
        Test::WeakZero => b"WEAKZERO",
        Test::Crossing => b"CROSSING",
        Test::Siv => b"SIV",
        Test::Delta => b"DELTA",
        Test::Gcd => b"GCD",
        Test::Range => b"RANGE",
        Test::Miv => b"MIV",
        Test::Unknown => b"UNKNOWN",
    }
}

pub(crate) fn hold_word(reason: HoldReason) -> &'static [u8]
    ensures { result.now ≡ hold_word reason }
{
    match reason {
        HoldReason::Form => b"FORM",
        HoldReason::Triangle => b"TRIANGLE",
        HoldReason::Bounds => b"BOUNDS",
    }
}

pub(crate) fn sign(dir: Dir) -> &'static [u8]
    ensures { result.now ≡ direction_sign dir }
{
    match dir {
        Dir::Lt => b"<",
        Dir::Eq => b"=",
        Dir::Gt => b">",
        Dir::Any => b"*",
    }
}
