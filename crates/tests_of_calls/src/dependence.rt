//! What pairs of subscripts have to keep, and the numbers of groups behind the pairs that are given.
ghost use Rattle.std.specs.Prelude.{All, IsTrue};
ghost use Rattle.subscripts.specs.Shapes.{IsPairing};

use dependence_tests::loop_lines::only_loop_of;
use std::process::Abort;
use std::test::Fail;
use subscripts::{Affine, Pairing, Span, partition};

type Symbols = [(u16, i64); 8];

const NONE: (u16, i64) = (0, 0);

const FOUR: (u16, i64) = (2, 4);

const NO_SYMBOLS: Symbols = [NONE; 8];

// The same symbol twice, and a symbol behind a place without one.
const TWICE: Symbols = [FOUR, FOUR, NONE, NONE, NONE, NONE, NONE, NONE];

const LATE: Symbols = [NONE, FOUR, NONE, NONE, NONE, NONE, NONE, NONE];

fn form(loops: [i64; 3], syms: Symbols) -> Affine {
    Affine {
        loops: [loops[0], loops[1], loops[2], 0, 0, 0, 0],
        syms,
        constant: 5,
    }
}

// Two loops round both references, and a third round each.
fn pairing(from: [i64; 3], to: [i64; 3]) -> Pairing {
    let once = Span {
        last: Some(1),
        fixed: true,
    };
    let ten = Span {
        last: Some(10),
        fixed: true,
    };
    let open = Span {
        last: None,
        fixed: false,
    };
    Pairing {
        from: form(from, NO_SYMBOLS),
        to: form(to, NO_SYMBOLS),
        known: true,
        common: 2,
        from_depth: 3,
        to_depth: 3,
        from_spans: [ten, open, ten, once, once, once, once],
        to_spans: [ten, open, open, once, once, once, once],
    }
}

#[test]
fn shapes(rt: HostRuntime) -> Result<(), Fail> {
    let good = pairing([1, 2, 3], [4, 5, 6]);
    let table = [
        (good, true),
        // more common loops than loops, a coefficient of a loop that isn't there, a common loop with two spans
        (Pairing { common: 4, ..good }, false),
        (
            Pairing {
                from_depth: 2,
                ..good
            },
            false,
        ),
        (Pairing { common: 3, ..good }, false),
        (
            Pairing {
                from: form([0, 0, 0], TWICE),
                ..good
            },
            false,
        ),
        (
            Pairing {
                from: form([0, 0, 0], LATE),
                ..good
            },
            false,
        ),
    ];
    for (p, valid) in table {
        assert_eq!(rt; p.is_valid(), valid);
    }
    Ok(())
}

fn are_valid(ps: &[Pairing]) -> bool
    ensures { IsTrue result → All IsPairing ps.now }
{
    ps.iter().all(|p| p.is_valid())
}

fn numbers_of(rt: &impl Abort, ps: &[Pairing; 2]) -> [u8; 7] {
    assert!(rt; are_valid(ps));
    partition(ps).of
}

// Each number behind the pairs is its own place.
#[test]
fn numbers_behind_the_pairs(rt: HostRuntime) -> Result<(), Fail> {
    let pairs = [pairing([1, 0, 0], [1, 0, 0]), pairing([0, 0, 0], [1, 0, 0])];
    assert_eq!(rt; numbers_of(&rt, &pairs), [0, 0, 2, 3, 4, 5, 6]);
    Ok(())
}

fn has_one_loop(rt: &impl Abort, p: &Pairing) -> bool {
    assert!(rt; p.is_valid());
    only_loop_of(p).is_some()
}

#[test]
fn one_loop(rt: HostRuntime) -> Result<(), Fail> {
    let table = [
        (pairing([0, 0, 0], [0, 0, 0]), false),
        (pairing([1, 0, 0], [0, 0, 0]), true),
        (pairing([1, 0, 0], [0, 1, 0]), false),
    ];
    for (p, one) in table {
        assert_eq!(rt; has_one_loop(&rt, &p), one);
    }
    Ok(())
}
