//! The sequential run of a FORTRAN 77 program.
//!
//! Proved (`Machine77`): a machine takes a program of the profile, with INTEGER of 32 or of 64 bits, and all memory at
//! once, and then has the opening store (`new`: `machine`, `opened`). A run starts from the opening store each time,
//! takes no memory, and gives the ending and the bytes of the sequential run, cut by the limit of steps where one is
//! given, and its store (`run`); where a write fails, the sink's count rose (`fault`), what it got is a front of the
//! run's text, and the store is that of the run cut after some step, with a list of INTEGER scalars set since
//! (`unwritten`); after any answer the machine is still one of its program (`machine`). `show` writes exactly the
//! lines of the final store (`text`), or a front of them where a write fails. Where the run writes nothing, or the
//! store has no lines, the sink is as it was, for every sink and not only for one that tells its bytes (`untouched`);
//! where no write failed its count stays (`no_fault`). That a line of PRINT is passed on at its end no clause says;
//! `checks/lines` tests it.
//!
//! **How wide INTEGER is goes along as an argument, as the input does.** So what is said of a statement speaks of one
//! width, and nothing has to be said of what stays. Values of expressions are the same at both widths
//! (`meaning::wider_integers`), and their functions don't have it.
//!
//! **A run's text is one function of its state.** The output, and behind it the final store where the run ended Done
//! and that was asked for. Statuses 0, 3 and 4 all say that this text was given whole, and 6 a front of it.
//!
//! **After a failed write a store is that of a cut run, but for variables set since.** Setting the variable of a loop
//! is no step. So where a write fails between two steps an implied DO may have gone on: the store is that of the run
//! cut after some step, with a list of INTEGER scalars set since.
#![tactic(auto)]

mod loops;
mod moment;
mod printing;
mod programs;
mod reading;
mod statements;
mod stores;
mod values;

pub use programs::Machine77;
