//! What no deck shows of the machines: one that is run twice, and extents of other ranks, which are refused before.
use array_values::check_conform;
use f77_read::read77;
use meaning::End;
use run77::Machine77;
use std::test::Fail;
use streams::MemSink;
use tree::{Fault, Width};

const SQUARES: &[u8] =
    b"      PROGRAM SQUARE\n      INTEGER A(3), I\n      DO 10 I = 1, 3\n   10 A(I) = I * I\n\
    \x20     READ *, I\n      PRINT *, 'X', A, I\n      END\n";

#[test]
fn runs_twice(rt: HostRuntime) -> Result<(), Fail> {
    let program = read77(rt.alloc(), SQUARES, Width::Plain)?;
    let mut machine = Machine77::new(rt.alloc(), program, Width::Plain)?;
    let mut out = MemSink::new(rt.alloc(), 1000, 7, Vec::new(rt.alloc()))?;
    let first = machine.run(b" -12 /\r\n", &mut out, None);
    machine.show(&mut out)?;
    let second = machine.run(b"", &mut out, Some(6));
    assert_eq!(rt; [first, second], [End::Done, End::StepLimit]);
    assert_eq!(rt;
        out.bytes(),
        b" X 1 4 9 -12\nA(1) = 1\nA(2) = 4\nA(3) = 9\nI = -12\n".as_slice()
    );
    Ok(())
}

#[test]
fn ranks_conform_or_do_not(rt: HostRuntime) {
    assert_eq!(rt; check_conform(&[2, 3], &[3]), Err(Fault::Shape));
}
