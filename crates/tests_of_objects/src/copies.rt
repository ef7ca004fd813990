//! Copies of what a program may hold, which are printed as it was.
use f90_print::print90;
use f90_read::read90;
use std::test::Fail;
use tree::{Program90, Seq};

// A program with each statement and each expression. Its declarations aren't copied.
const DECK: &str = "PROGRAM P\nIMPLICIT NONE\n\
INTEGER :: A(9)\nINTEGER, ALLOCATABLE :: B(:)\nINTEGER :: I\nLOGICAL :: L\nINTEGER :: M(2, 2)\n\
ALLOCATE (B(1:6))\nB(1:6:2) = (/ 1, 2, 3 /)\nWHERE (B > 2) B = SUM(A(1:7:3))\nDEALLOCATE (B)\n\
DO I = 1, 9, 3\nIF (L) THEN\nSTOP\nELSE\nGO TO 10\nEND IF\n10 CONTINUE\nEND DO\n\
A(-I) = -I ** MAX(2, ABS(I))\nL = .NOT. (L .OR. .TRUE.)\n\
M = TRANSPOSE(RESHAPE((/ (I * I, I = 1, 4) /), (/ 2, 2 /))) + SPREAD(A(1:2), 2, 2)\n\
READ *, (A(I), I = 1, 3)\nPRINT *, (7, I = 1, 9, 2), 'HI', L\nEND\n";

const COPIED: &str = "PROGRAM P\nIMPLICIT NONE\n\
ALLOCATE (B(1:6))\nB(1:6:2) = (/ 1, 2, 3 /)\nWHERE (B > 2) B = SUM(A(1:7:3))\nDEALLOCATE (B)\n\
DO I = 1, 9, 3\nIF (L) THEN\nSTOP\nELSE\nGO TO 10\nEND IF\n10 CONTINUE\nEND DO\n\
A(-I) = -I ** MAX(2, ABS(I))\nL = .NOT. (L .OR. .TRUE.)\n\
M = TRANSPOSE(RESHAPE((/ (I * I, I = 1, 4) /), (/ 2, 2 /))) + SPREAD(A(1:2), 2, 2)\n\
READ *, (A(I), I = 1, 3)\nPRINT *, (7, I = 1, 9, 2), 'HI', L\nEND\n";

#[test]
fn copies_are_printed_alike(rt: HostRuntime) -> Result<(), Fail> {
    assert!(rt; DECK.len() < 1000);
    let Ok(program) = read90(rt.alloc(), DECK.as_bytes()) else {
        return Err(Fail::from("the deck is not read"));
    };
    let copy = Program90 {
        name: program.name,
        decls: Seq::new(rt.alloc()),
        body: program.body.copy(rt.alloc())?,
    };
    let text = print90(rt.alloc(), &copy, &Seq::new(rt.alloc()))?;
    assert_eq!(rt; text.as_slice(), COPIED.as_bytes());
    Ok(())
}
