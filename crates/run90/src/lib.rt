//! The run of a Fortran 90 program.
//!
//! Proved (`Machine90`): the machine of a program of Fortran 90 (`new`, on `IsProgram90`) has the opening store. A run
//! starts from the opening store each time, gives the ending and the bytes of the array run, cut by the limit where one
//! is given, and leaves its store in the machine (`run`); after a failed write the store is that of a moment of the run
//! of whose text a front was given (`unwritten`); where there was no memory a front of the text was given, and the
//! machine may be run again (`machine`). `show` gives exactly the lines of the store that is left, of source names that
//! have elements, and takes no memory. Where nothing is written, by a run or by `show`, the sink is as it was
//! (`untouched`), and where no write failed its count stays (`no_fault`).
#![tactic(auto)]

mod allocation;
mod programs;
mod runs;
mod statements;

pub use programs::Machine90;
